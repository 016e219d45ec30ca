use io_edge::{DiskFiles, Files, FilesEnd, Found};
use std::alloc::Global;
use std::test::Fail;
use std::{env, fs, process};

/// A path in the system's folder for files that are soon gone.
fn fresh_path(rt: &HostRuntime, name: &str) -> Result<String, Fail> {
    let folder = env::temp_dir(rt)?;
    let number = process::id(rt.process());
    let folder = folder.as_str();
    Ok(format!(in rt.alloc(); "{folder}/slintrun-{number}-{name}")?)
}

/// Whether a read gave exactly these bytes.
fn gave(found: Result<Found, FilesEnd>, bytes: &[u8]) -> bool {
    match found {
        Ok(Found::Bytes(found)) => found.as_slice() == bytes,
        _ => false,
    }
}

#[test]
fn reads_files_by_their_content(rt: HostRuntime) -> Result<(), Fail> {
    let alloc: Global = rt.alloc();
    let mut files = DiskFiles::new(&rt);
    for (name, count) in [
        ("short", 5),
        ("whole", 262_144),
        ("cut", 262_146),
        ("empty", 0),
    ] {
        let path = fresh_path(&rt, name)?;
        let mut bytes = vec![in alloc; b'x'; count]?;
        for (at, byte) in bytes.iter_mut().enumerate() {
            *byte = (at % 251) as u8;
        }
        fs::write(&rt, path.as_str(), &bytes)?;
        let found = files.read(alloc, path.as_str());
        fs::remove_file(&rt, path.as_str())?;
        assert!(rt; gave(found, &bytes[..count.min(262_145)]), "{name}");
        let gone = files.read(alloc, path.as_str());
        assert!(rt; matches!(gone, Ok(Found::Missing)), "{name}");
    }
    assert_eq!(rt; (files.misses(), files.faults()), (4, 0));
    Ok(())
}

#[test]
fn a_file_that_may_not_be_read_is_a_failed_read(rt: HostRuntime) -> Result<(), Fail> {
    let mut files = DiskFiles::new(&rt);
    let mut long = fresh_path(&rt, "long")?;
    for _ in 0..300 {
        long.push('x')?;
    }
    let folder = fresh_path(&rt, "folder")?;
    fs::create_dir(&rt, folder.as_str())?;
    let mut faults = 0u64;
    for path in [folder.as_str(), long.as_str(), "/", "main\0.slint"] {
        let found = files.read(rt.alloc(), path);
        faults = faults.saturating_add(1);
        assert!(rt; matches!(found, Err(FilesEnd::Failed)), "{path}");
        assert_eq!(rt; (files.misses(), files.faults()), (0, faults), "{path}");
    }
    fs::remove_dir(&rt, folder.as_str())?;
    Ok(())
}
