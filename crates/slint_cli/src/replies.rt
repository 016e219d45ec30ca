ghost use Rattle.std.specs.Prelude.{◌≡◌, IfOk, List, ℕ, nat_le, length, MatchBool};
ghost use Rattle.script_lines.specs.Lines.{lines_of};
ghost use Rattle.slint_meaning.specs.Runs.{Outcome, behind, most_script, run_lines, run_script};
ghost use Rattle.first_evaluator.specs.Values.{opening_world};
ghost use Rattle.slint_meaning.specs.declared.endings.Ending.TheVariants as endings;
ghost use Rattle.slint_cli.specs.Outputs.{outcome_of};

use crate::script::answer_lines;
use first_evaluator::{Component, Evaluator};
use script_lines::whole_part;
use slint_base::Memory;
use slint_meaning::Ending;
use std::alloc::Global;

/// The most bytes of a script.
pub(crate) const MOST_SCRIPT: usize = 16_777_216;

/// How a run ended by itself, and all that it writes.
#[derive(Debug, Drop)]
pub(crate) struct Output {
    pub end: Ending,
    pub bytes: Vec<u8>,
}

/// The replies to the lines of a text, in the world in which nothing is assigned.
fn replies(alloc: Global, component: Component, text: &[u8]) -> Result<Vec<u8>, Memory>
    ensures { IfOk result (λ replies. (end : Outcome) → run_lines component opening_world (lines_of text.now) end ≡ behind replies.items end) }
{
    let mut evaluator = Evaluator::new(alloc, component)?;
    let mut out = Vec::new(alloc);
    answer_lines(alloc, &mut evaluator, &mut out, text)?;
    Ok(out)
}

/// The outcome of a script. Of one that has a byte too many, the lines that end within the limit are run.
pub(crate) fn run_script(
    alloc: Global,
    component: Component,
    script: &[u8],
) -> Result<Output, Memory>
    ensures ran { IfOk result (λ output. outcome_of output ≡ run_script component script.now) }
    ensures ended { IfOk result (λ output. MatchBool (nat_le (length script.now) most_script) (output.end ≡ endings.Done) (output.end ≡ endings.ScriptLong)) }
{
    if script.len() <= MOST_SCRIPT {
        let bytes = replies(alloc, component, script)?;
        let end = Ending::Done;
        return Ok(Output { end, bytes });
    }
    let (within, _past) = script.split_at(MOST_SCRIPT);
    let mut bytes = replies(alloc, component, whole_part(within))?;
    bytes.extend_from_slice(b"stopped 8\n")?;
    let end = Ending::ScriptLong;
    Ok(Output { end, bytes })
}
