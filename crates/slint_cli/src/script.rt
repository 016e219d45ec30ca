ghost use Rattle.std.specs.Prelude.{◌≡◌, OnOk};
ghost use Rattle.script_lines.specs.Lines.{lines_of};
ghost use Rattle.slint_meaning.specs.Runs.{Outcome, behind, run_lines};
ghost use Rattle.first_evaluator.specs.Values.{World};
ghost use Rattle.first_evaluator.specs.Live.{Shows};

use crate::answers::answer_line;
use first_evaluator::Evaluator;
use script_lines::cut_line;
use slint_base::Memory;
use std::alloc::Global;

/// Answers the lines of a text in order, at the end of `out`.
pub(crate) fn answer_lines(
    alloc: Global,
    evaluator: &mut Evaluator,
    out: &mut Vec<u8>,
    text: &[u8],
) -> Result<(), Memory>
    ensures { OnOk result ((world : World) (end : Outcome) → Shows evaluator.old world →
        behind out.old.items (run_lines evaluator.old.file world (lines_of text.now) end) ≡ behind out.new.items end) }
{
    let mut rest = text;
    while !rest.is_empty() {
        let (line, next) = cut_line(rest);
        answer_line(alloc, evaluator, out, line)?;
        rest = next;
    }
    Ok(())
}
