ghost use Rattle.std.specs.Prelude.{◌≡◌, ◌<◌, ◌↔◌, ◌++◌, ◌∷◌, [], None, Some, IfOk, IsTrue, OnOk, drop, length, string_bytes, if◌then◌else◌};
ghost use Rattle.std.specs.List.{join_with_byte, list_any, slice_split};
ghost use Rattle.std.specs.Option.{option_map};
ghost use Rattle.import_paths.specs.Paths.{file_meant, begins_outside, folder_of, folder_segments, is_foreign, is_slash, IsBelow, leads_outside, step_from, walk};

use slint_base::{Memory, Text};
use sqlite_items::Items;
use std::alloc::Global;

/// The name of the file that an import's path means in the file `importer`, both below the folder of the file `main`. The path's segments are taken
/// in order from the importer's folder on: an empty one and `.` stay, `..` goes back, and any other goes deeper. `None` where the path
/// is empty, begins with `/` or `@`, holds a backslash or a colon, or goes back from the main file's folder, even if it comes back later.
pub fn file_meant(
    alloc: Global,
    main: &str,
    importer: &str,
    path: &str,
) -> Result<Option<String>, Memory>
    requires { IsBelow (folder_of main.now) importer.now }
    ensures { IfOk result (λ found. option_map string_bytes found ≡ file_meant main.now importer.now path.now) }
{
    if leads_outside(path) {
        return Ok(None);
    }
    let root = root_of(main);
    let folder = folder_segments(alloc, root, importer)?;
    let segments = match walk(alloc, folder, path)? {
        Some(segments) => segments,
        None => return Ok(None),
    };
    let name = joined(alloc, root, &segments)?;
    Ok(Some(name))
}

/// Whether a file's name begins with the folder of the file `main`.
pub fn is_below(main: &str, name: &str) -> bool
    ensures { IsTrue result ↔ IsBelow (folder_of main.now) name.now }
{
    name.starts_with(root_of(main))
}

/// Whether a path leads outside by its characters alone.
fn leads_outside(path: &str) -> bool
    ensures { result ≡ leads_outside path.now }
{
    let bytes = path.as_bytes();
    begins_outside(bytes) || holds_foreign(bytes)
}

/// Whether a path holds a backslash or a colon.
fn holds_foreign(path: &[u8]) -> bool
    ensures { result ≡ list_any is_foreign path.now }
{
    path.iter().any(|byte| *byte == b'\\' || *byte == b':')
}

/// Whether a path is empty or begins where no file of a source is.
fn begins_outside(path: &[u8]) -> bool
    ensures { result ≡ begins_outside path.now }
{
    match path {
        [] => true,
        [first, ..] => *first == b'/' || *first == b'@',
    }
}

/// The folder of a file, with the slash behind it.
fn root_of(main: &str) -> &str
    ensures { result.now ≡ folder_of main.now }
{
    match main.rfind('/') {
        Some(slash) => &main[..slash + 1],
        None => "",
    }
}

/// What a name has behind the folder in which it lies.
fn behind<'a>(root: &str, name: &'a str) -> &'a str
    requires { IsBelow root.now name.now }
    ensures { result.now ≡ drop (length root.now) name.now }
{
    match name.strip_prefix(root) {
        Some(rest) => rest,
        None => unreachable!(),
    }
}

/// The segments of a file's folder, from `root` on.
fn folder_segments(alloc: Global, root: &str, name: &str) -> Result<Items<Text>, Memory>
    requires { IsBelow root.now name.now }
    ensures { IfOk result (λ folder. folder ≡ folder_segments root.now name.now) }
{
    let mut folder = Items::new(alloc);
    for segment in behind(root, name).split('/') {
        folder.push(Text::from_str(alloc, segment)?)?;
    }
    let _file = folder.pop();
    Ok(folder)
}

/// Takes a segment of a path from the folder on; `false` where nothing is left to go back from.
fn take_segment(alloc: Global, folder: &mut Items<Text>, segment: &str) -> Result<bool, Memory>
    ensures { IfOk result (λ goes_on. step_from folder.old segment.now ≡ (if goes_on then Some folder.new else None)) }
{
    if segment.is_empty() || segment == "." {
        return Ok(true);
    }
    if segment == ".." {
        return Ok(folder.pop().is_some());
    }
    folder.push(Text::from_str(alloc, segment)?)?;
    Ok(true)
}

/// Where the segments of a path lead from a folder.
fn walk(alloc: Global, mut folder: Items<Text>, path: &str) -> Result<Option<Items<Text>>, Memory>
    ensures { IfOk result (λ found. found ≡ walk folder (slice_split is_slash path.now)) }
{
    for segment in path.split('/') {
        if !take_segment(alloc, &mut folder, segment)? {
            return Ok(None);
        }
    }
    Ok(Some(folder))
}

/// The name that segments below a folder make.
fn joined(alloc: Global, root: &str, segments: &Items<Text>) -> Result<String, Memory>
    ensures { IfOk result (λ name. string_bytes name ≡ root.now ++ join_with_byte 47 segments.now) }
{
    let mut name = String::from_str(alloc, root)?;
    for (index, segment) in segments.as_slice().iter().enumerate() {
        push_segment(&mut name, index, segment.as_str())?;
    }
    Ok(name)
}

/// Puts the segment of that number behind a name, with a slash before each but the first.
fn push_segment(name: &mut String, index: usize, segment: &str) -> Result<(), Memory>
    ensures first { index ≡ 0 → OnOk result (string_bytes name.new ≡ string_bytes name.old ++ segment.now) }
    ensures further { 0 < index → OnOk result (string_bytes name.new ≡ (string_bytes name.old ++ 47 ∷ []) ++ segment.now) }
{
    if index == 0 {
        name.push_str(segment)?;
        return Ok(());
    }
    name.push_str("/")?;
    name.push_str(segment)?;
    Ok(())
}
