ghost use Rattle.std.specs.Prelude.{◌≡◌, IfOk, map, string_bytes};
ghost use Rattle.std.specs.Option.{option_copied, option_map};
ghost use Rattle.clap.specs.Words.{app_of, found_of, rows_of};
ghost use Rattle.slint_base.specs.Names.{normal_name};
ghost use Rattle.command_words.specs.Words.{program, words_in, words_of, words_seen};

use clap::error::ErrorKind;
use clap::{Arg, ArgMatches, Command};
use slint_base::{Memory, Name, Text};
use std::alloc::{AllocError, Global};

/// What the words of the command line ask for.
#[derive(Debug, Drop)]
pub struct Words {
    /// The name of the main file, as it is written.
    pub file: Text,
    /// The name of the component to run, where the words name one.
    pub component: Option<Name>,
}

/// The command that the program is: `slintrun FILE [--component NAME]`, without help and version.
fn command<'a>(alloc: Global) -> Result<Command<'a>, AllocError>
    ensures { IfOk result (λ made. app_of made ≡ program) }
{
    let file = Arg::new(alloc, "file");
    let component = Arg::new(alloc, "component").long("component");
    let bare = Command::new(alloc, "slintrun").disable_help_flag(true);
    bare.arg(file)?.arg(component)
}

/// The name that a text spells, where there is a text.
fn normal(alloc: Global, text: Option<&str>) -> Result<Option<Name>, Memory>
    ensures { IfOk result (λ name. name ≡ option_map normal_name (option_copied text.entry)) }
{
    match text {
        Some(text) => {
            let name = Name::normal(alloc, text)?;
            Ok(Some(name))
        }
        None => Ok(None),
    }
}

/// What the matches of the command's two arguments say. `None` where no file is among them.
fn words_in(alloc: Global, matches: &ArgMatches) -> Result<Option<Words>, Memory>
    ensures { IfOk result (λ found. option_map words_seen found ≡ words_in (rows_of (found_of matches.now))) }
{
    let file = match matches.get_str("file") {
        Some(file) => Text::from_str(alloc, file)?,
        None => return Ok(None),
    };
    let component = normal(alloc, matches.get_str("component"))?;
    Ok(Some(Words { file, component }))
}

/// Reads the words of the command line, the first of which is the program's own name: FILE, and `--component NAME` at most once, before
/// FILE or behind it. `None` where the words can't be read: `clap` refuses them, or FILE isn't there. Words that `clap` refuses for want
/// of memory aren't unreadable; the error is then `Memory`.
pub fn read_words(alloc: Global, words: &[String]) -> Result<Option<Words>, Memory>
    ensures { IfOk result (λ found. option_map words_seen found ≡ words_of (map string_bytes words.now)) }
{
    let command = command(alloc)?;
    match command.try_get_matches_from(words) {
        Ok(matches) => words_in(alloc, &matches),
        Err(error) => match error.kind() {
            ErrorKind::OutOfMemory => Err(Memory),
            _ => Ok(None),
        },
    }
}
