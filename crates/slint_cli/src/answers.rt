ghost use Rattle.std.specs.Prelude.{◌≡◌, ◌<◌, ℕ, List, ◌++◌, length, slice_get, Some, OnOk};
ghost use Rattle.slint_meaning.specs.Commands.{refusal_reply, value_reply, does_assign, does_get, does_set, does_command, does_line, target_of};
ghost use Rattle.first_evaluator.specs.Bindings.{names_of};
ghost use Rattle.first_evaluator.specs.Values.{World};
ghost use Rattle.first_evaluator.specs.Live.{Shows};
ghost use Rattle.slint_cli.specs.Turns.{Answers, LeadsTo};

use first_evaluator::Evaluator;
use script_lines::{BadLine, Command, Path, read_int, read_line};
use slint_base::{End, Memory};
use slint_meaning::LineRefusal;
use std::alloc::Global;

/// What a path leads to.
enum Target {
    Nothing,
    Root,
    /// The property at this place in the text.
    Property(usize),
}

/// The property or the component that a path names, if it names one.
fn target_of(evaluator: &Evaluator, path: &Path) -> Target
    ensures { LeadsTo evaluator.now.file result (target_of evaluator.now.file path.now) }
{
    match path.as_slice() {
        [first] if first.name.as_str() == "root" => Target::Root,
        [first, second] if first.name.as_str() == "root" && second.row.is_none() => {
            match evaluator.place_of(&second.name) {
                Some(place) => Target::Property(place),
                None => Target::Nothing,
            }
        }
        _ => Target::Nothing,
    }
}

/// Writes the reply of a refused line at the end of `out`.
fn refuse(alloc: Global, out: &mut Vec<u8>, why: LineRefusal) -> Result<(), Memory>
    ensures { OnOk result (out.new.items ≡ out.old.items ++ refusal_reply why) }
{
    let number = why.number();
    let reply = format!(in alloc; "refused {number}\n")?;
    out.extend_from_slice(reply.as_bytes())?;
    Ok(())
}

/// Writes the reply that tells a value at the end of `out`.
fn tell(alloc: Global, out: &mut Vec<u8>, value: i32) -> Result<(), Memory>
    ensures { OnOk result (out.new.items ≡ out.old.items ++ value_reply value) }
{
    let reply = format!(in alloc; "{value}\n")?;
    out.extend_from_slice(reply.as_bytes())?;
    Ok(())
}

/// Answers `get`: the value of the property that the path leads to, in the world as it is now.
fn answer_get(
    alloc: Global,
    evaluator: &mut Evaluator,
    out: &mut Vec<u8>,
    path: &Path,
) -> Result<(), Memory>
    ensures same { evaluator.new.file ≡ evaluator.old.file }
    ensures answered { OnOk result ((world : World) → Shows evaluator.old world →
        Answers (does_get evaluator.old.file world (target_of evaluator.old.file path.now)) out.old.items out.new.items evaluator.new) }
{
    match target_of(evaluator, path) {
        Target::Nothing => refuse(alloc, out, LineRefusal::UnknownPath),
        Target::Root => refuse(alloc, out, LineRefusal::WrongKind),
        Target::Property(place) => tell(alloc, out, evaluator.value(place)),
    }
}

/// Assigns the property at a place, and answers so.
fn answer_assignment(
    evaluator: &mut Evaluator,
    out: &mut Vec<u8>,
    place: usize,
    value: i32,
) -> Result<(), Memory>
    requires { place < length evaluator.old.file.props }
    ensures same { evaluator.new.file ≡ evaluator.old.file }
    ensures answered { OnOk result ((world : World) (name : List ℕ) → Shows evaluator.old world → slice_get (names_of evaluator.old.file.props) place ≡ Some name →
        Answers (does_assign world name (Some value)) out.old.items out.new.items evaluator.new) }
{
    out.extend_from_slice(b"ok\n")?;
    evaluator.assign(place, value);
    Ok(())
}

/// Answers `set`: assigns the property that the path leads to, where the text reads as an int.
fn answer_set(
    alloc: Global,
    evaluator: &mut Evaluator,
    out: &mut Vec<u8>,
    path: &Path,
    text: &str,
) -> Result<(), Memory>
    ensures same { evaluator.new.file ≡ evaluator.old.file }
    ensures answered { OnOk result ((world : World) → Shows evaluator.old world →
        Answers (does_set world (target_of evaluator.old.file path.now) text.now) out.old.items out.new.items evaluator.new) }
{
    match target_of(evaluator, path) {
        Target::Nothing => refuse(alloc, out, LineRefusal::UnknownPath),
        Target::Root => refuse(alloc, out, LineRefusal::WrongKind),
        Target::Property(place) => match read_int(text) {
            None => refuse(alloc, out, LineRefusal::BadValue),
            Some(value) => answer_assignment(evaluator, out, place, value),
        },
    }
}

/// Answers a command.
fn answer_command(
    alloc: Global,
    evaluator: &mut Evaluator,
    out: &mut Vec<u8>,
    command: &Command,
) -> Result<(), Memory>
    ensures same { evaluator.new.file ≡ evaluator.old.file }
    ensures answered { OnOk result ((world : World) → Shows evaluator.old world →
        Answers (does_command evaluator.old.file world command.now) out.old.items out.new.items evaluator.new) }
{
    match command {
        Command::Get(path) => answer_get(alloc, evaluator, out, path),
        Command::Set(path, text) => answer_set(alloc, evaluator, out, path, text.as_str()),
    }
}

/// Answers a line of the script, which stands without its line feed.
pub(crate) fn answer_line(
    alloc: Global,
    evaluator: &mut Evaluator,
    out: &mut Vec<u8>,
    line: &[u8],
) -> Result<(), Memory>
    ensures same { evaluator.new.file ≡ evaluator.old.file }
    ensures answered { OnOk result ((world : World) → Shows evaluator.old world →
        Answers (does_line evaluator.old.file world line.now) out.old.items out.new.items evaluator.new) }
{
    match read_line(alloc, line) {
        Ok(None) => Ok(()),
        Ok(Some(command)) => answer_command(alloc, evaluator, out, &command),
        Err(End::Fault(BadLine::TooLong)) => refuse(alloc, out, LineRefusal::LineTooLong),
        Err(End::Fault(BadLine::Unread)) => refuse(alloc, out, LineRefusal::BadLine),
        Err(End::Memory) => Err(Memory),
    }
}
