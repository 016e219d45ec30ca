ghost use Rattle.std.specs.Prelude.{◌≡◌, Some, IfOk, OnOk, map, string_bytes};
ghost use Rattle.slint_base.specs.Refusals.{refusal_line};
ghost use Rattle.io_edge.specs.Counts.{IsQuiet};
ghost use Rattle.command_words.specs.Words.{words_of, words_seen};
ghost use Rattle.slint_meaning.specs.Commands.{written};
ghost use Rattle.slint_meaning.specs.Runs.{unreadable};
ghost use Rattle.slint_meaning.specs.declared.endings.Ending.TheVariants.{Refused};
ghost use Rattle.slint_cli.specs.Outputs.{outcome_of};
ghost use Rattle.slint_cli.specs.Running.{MissedFile, MissedWhereMissing, RanScript, RanWords, ReadsFit, ScriptFits, TakenBy};

use crate::judging::judge;
use crate::replies::{MOST_SCRIPT, Output, run_script};
use crate::status::Stop;
use command_words::{Words, read_words};
use first_evaluator::Component;
use import_resolver::{LoadEnd, one_outcome};
use io_edge::{Files, Source, take_up_to};
use slint_base::{Memory, Refusal};
use slint_meaning::Ending;
use std::alloc::Global;

/// The outcome of a component over a script, which is taken whole before its first line runs.
fn run_component<S: Source>(
    alloc: Global,
    component: Component,
    script: &mut S,
) -> Result<Output, Stop>
    ensures ran { IfOk result (λ output. RanScript component (S.left script.old) (outcome_of output)) }
    ensures ended { IfOk result (λ output. output.end ≡ Refused → ⊥) }
    ensures took { TakenBy result (S.left script.old) (S.left script.new) }
    ensures counted { ScriptFits result (S.faults script.old) (S.faults script.new) }
    ensures steady { S.is_steady script.old → IsQuiet (S.is_steady script.new) (S.faults script.old) (S.faults script.new) }
{
    let text = take_up_to(alloc, MOST_SCRIPT, script)?;
    let outcome = run_script(alloc, component, &text)?;
    Ok(outcome)
}

/// The outcome of a source that is refused.
fn refuse(alloc: Global, refusal: &Refusal) -> Result<Output, Memory>
    ensures { IfOk result (λ output. outcome_of output ≡ record { end = Refused; bytes = written (refusal_line refusal.now) }) }
{
    let line = refusal.line(alloc)?;
    let mut bytes = Vec::from_slice(alloc, line.as_bytes())?;
    bytes.push(b'\n')?;
    let end = Ending::Refused;
    Ok(Output { end, bytes })
}

/// The outcome of what the words say over the files and the script.
fn run_source<F: Files, S: Source>(
    alloc: Global,
    words: &Words,
    files: &mut F,
    script: &mut S,
) -> Result<Output, Stop>
    ensures ran { IfOk result (λ output. RanWords (Some (words_seen words.now)) (F.held files.old) (S.left script.old) (outcome_of output)) }
    ensures missed { IfOk result (MissedFile (F.misses files.old) (F.misses files.new)) }
    ensures missing { OnOk result (MissedWhereMissing (Some (words_seen words.now)) (F.held files.old) (F.misses files.old) (F.misses files.new)) }
    ensures took { TakenBy result (S.left script.old) (S.left script.new) }
    ensures counted { ReadsFit result (F.faults files.old) (F.faults files.new) (S.faults script.old) (S.faults script.new) }
    ensures same_map { F.held files.new ≡ F.held files.old }
    ensures files_steady { F.is_steady files.old → IsQuiet (F.is_steady files.new) (F.faults files.old) (F.faults files.new) }
    ensures script_steady { S.is_steady script.old → IsQuiet (S.is_steady script.new) (S.faults script.old) (S.faults script.new) }
{
    // A load that comes to the refusal for a missing file comes to nothing else.
    one_outcome();
    match judge(alloc, files, words) {
        Ok(component) => run_component(alloc, component, script),
        Err(LoadEnd::Refused(refusal)) => Ok(refuse(alloc, &refusal)?),
        Err(LoadEnd::ReadFault) => Err(Stop::ReadFault),
        Err(LoadEnd::Memory) => Err(Stop::Memory),
    }
}

/// The outcome of words that can't be read.
fn unreadable(alloc: Global) -> Result<Output, Memory>
    ensures { IfOk result (λ output. outcome_of output ≡ unreadable) }
{
    let bytes = Vec::from_slice(alloc, b"words\n")?;
    let end = Ending::Words;
    Ok(Output { end, bytes })
}

/// The outcome of the words of the command line, the first of which is the program's name, over the files and the script.
pub(crate) fn run_words<F: Files, S: Source>(
    alloc: Global,
    words: &[String],
    files: &mut F,
    script: &mut S,
) -> Result<Output, Stop>
    ensures ran { IfOk result (λ output. RanWords (words_of (map string_bytes words.now)) (F.held files.old) (S.left script.old) (outcome_of output)) }
    ensures missed { IfOk result (MissedFile (F.misses files.old) (F.misses files.new)) }
    ensures missing { OnOk result (MissedWhereMissing (words_of (map string_bytes words.now)) (F.held files.old) (F.misses files.old) (F.misses files.new)) }
    ensures took { TakenBy result (S.left script.old) (S.left script.new) }
    ensures counted { ReadsFit result (F.faults files.old) (F.faults files.new) (S.faults script.old) (S.faults script.new) }
    ensures same_map { F.held files.new ≡ F.held files.old }
    ensures files_steady { F.is_steady files.old → IsQuiet (F.is_steady files.new) (F.faults files.old) (F.faults files.new) }
    ensures script_steady { S.is_steady script.old → IsQuiet (S.is_steady script.new) (S.faults script.old) (S.faults script.new) }
{
    let found = read_words(alloc, words)?;
    match found {
        Some(named) => run_source(alloc, &named, files, script),
        None => Ok(unreadable(alloc)?),
    }
}
