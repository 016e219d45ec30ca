ghost use Rattle.std.specs.Prelude.{◌≡◌, ℕ, List, map, string_bytes, Some};
ghost use Rattle.io_edge.specs.Counts.{IsQuiet};
ghost use Rattle.io_edge.specs.Files.{FileList};
ghost use Rattle.slint_meaning.specs.Runs.{Runs};
ghost use Rattle.slint_cli.specs.Statuses.{EndsAs, EndsAsTold, FaultsFit, IsOwnStatus, IsUntroubled, MissedWhereNone, MissedWhereRefused, OutFits, TakesScript, Writes};
ghost use Rattle.slint_cli.specs.Outputs.{outcome_of};

use crate::replies::Output;
use crate::running::run_words;
use crate::status::{Status, Stop};
use io_edge::{Files, Sink, SinkEnd, Source, write_all};
use slint_meaning::some_outcome;
use std::alloc::Global;

/// Writes all that a run comes to, and says how it ends then.
fn write_output<K: Sink>(output: &Output, out: &mut K) -> Status
    ensures writes { Writes result (outcome_of output.now) (K.taken out.old) (K.taken out.new) }
    ensures counted { OutFits result (K.faults out.old) (K.faults out.new) }
    ensures steady { K.is_steady out.old → IsQuiet (K.is_steady out.new) (K.faults out.old) (K.faults out.new) }
{
    match write_all(out, &output.bytes) {
        Ok(()) => Status::Ended(output.end),
        Err(SinkEnd::Failed) => Status::Stopped(Stop::SinkFault),
        Err(SinkEnd::Memory) => Status::Stopped(Stop::Memory),
    }
}

/// Runs the program: the words of the command line, the first of which is the program's own name, over the files and
/// the script, with the replies written to `out`.
pub fn slint_run<F: Files, S: Source, K: Sink>(
    alloc: Global,
    words: Vec<String>,
    files: &mut F,
    script: &mut S,
    out: &mut K,
) -> Status
    // Where files and script are told: the status is that of the run, which is evaluated afresh at each reply, and its
    // bytes are written whole; only want of memory or a failed read or write ends it otherwise, with a front of them.
    ensures told { (held : FileList) (text : List ℕ) → F.held files.old ≡ Some held → S.left script.old ≡ Some text
        → EndsAs (map string_bytes words.items) held text result (K.taken out.old) (K.taken out.new) }
    // Where they aren't, the same holds for some files and some script.
    ensures ran { EndsAsTold (map string_bytes words.items) (F.held files.old) (S.left script.old) result (K.taken out.old) (K.taken out.new) }

    // A failed read or write, and no other answer, moves one count of failures; where none moves, none of them ends the run.
    ensures counted { FaultsFit result (record {
      files = F.faults files.old;
      files_now = F.faults files.new;
      script = S.faults script.old;
      script_now = S.faults script.new;
      out = K.faults out.old;
      out_now = K.faults out.new;
    }) }
    ensures complete { IsUntroubled (record {
      files = F.faults files.old;
      files_now = F.faults files.new;
      script = S.faults script.old;
      script_now = S.faults script.new;
      out = K.faults out.old;
      out_now = K.faults out.new;
    }) → IsOwnStatus result }
    ensures missed { MissedWhereRefused result (K.taken out.old) (K.taken out.new) (F.misses files.old) (F.misses files.new) }
    ensures missed_none { MissedWhereNone (map string_bytes words.items) (F.held files.old) result (F.misses files.old) (F.misses files.new) }
    ensures same_map { F.held files.new ≡ F.held files.old }

    // What is taken of the script: all of it at the end, none of it where the words or the source are refused.
    ensures took { TakesScript result (S.left script.old) (S.left script.new) }

    // Where no call can fail, no count moves.
    ensures files_steady { F.is_steady files.old → IsQuiet (F.is_steady files.new) (F.faults files.old) (F.faults files.new) }
    ensures script_steady { S.is_steady script.old → IsQuiet (S.is_steady script.new) (S.faults script.old) (S.faults script.new) }
    ensures out_steady { K.is_steady out.old → IsQuiet (K.is_steady out.new) (K.faults out.old) (K.faults out.new) }
{
    // A run that ends before its outcome is known has one all the same.
    some_outcome();
    match run_words(alloc, &words, files, script) {
        Ok(output) => write_output(&output, out),
        Err(stop) => Status::Stopped(stop),
    }
}
