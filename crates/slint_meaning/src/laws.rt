ghost use Rattle.std.specs.Prelude.{◌≡◌, ℕ, ℤ, Option, List, [], ◌∷◌, ◌++◌, All};
ghost use Rattle.first_evaluator.specs.declared.trees.FirstFile.{FirstFile};
ghost use Rattle.io_edge.specs.Files.{FileList};
ghost use Rattle.slint_meaning.specs.declared.refusals.LineRefusal.{LineRefusal as Refusal};
ghost use Rattle.slint_meaning.specs.Commands.{refusal_reply, value_reply};
ghost use Rattle.slint_meaning.specs.Laws.{answer_of, world_after, answers, Sets, Gets, SetsNot};
ghost use Rattle.slint_meaning.specs.Runs.{Outcome, behind, run_lines, Runs};
ghost use Rattle.slint_meaning.specs.Verdicts.{HasVerdict, Verdict};
ghost use Rattle.first_evaluator.specs.Values.{World};
ghost use Rattle.import_resolver.specs.Loads.{World as Files};

use loop_check::some_purity_verdict;
use type_resolver::{one_resolution, some_resolution};

/// A law, which does nothing when it is called: a refused line leaves every other reply as it would be without that line.
pub fn refused_lines_change_nothing()
    ensures { (file : FirstFile) (world : World) (before after : List (List ℕ)) (line : List ℕ) (why : Refusal) (end : Outcome)
        → answer_of file (world_after file world before) line ≡ refusal_reply why
        → (later : Outcome)
        × (run_lines file world (before ++ line ∷ after) end ≡ behind (answers file world before ++ refusal_reply why) later)
        × (run_lines file world (before ++ after) end ≡ behind (answers file world before) later) }
{}

/// A law, which does nothing when it is called: behind a line that assigns a value to a property, each line that asks for the
/// property answers that value, until another line assigns one to it, whatever stands between.
pub fn an_assignment_stays()
    ensures { (file : FirstFile) (world : World) (set get : List ℕ) (between : List (List ℕ)) (name : List ℕ) (value : ℤ)
        → Sets file set name value
        → All (SetsNot file name) between
        → Gets file get name
        → answer_of file (world_after file world (set ∷ between)) get ≡ value_reply value }
{}

/// A law, which does nothing when it is called: a source has at most one verdict.
pub fn one_verdict()
    ensures { (w : Files) (main : List ℕ) (named : Option (List ℕ)) (a b : Verdict) → HasVerdict w main named a → HasVerdict w main named b → a ≡ b }
{
    import_resolver::one_outcome();
    one_resolution();
}

/// A law, which does nothing when it is called: each source has a verdict.
pub fn some_verdict()
    ensures { (w : Files) (main : List ℕ) (named : Option (List ℕ)) → (v : Verdict) × HasVerdict w main named v }
{
    import_resolver::some_outcome();
    some_resolution();
    some_purity_verdict();
}

/// A law, which does nothing when it is called: a run has at most one outcome.
pub fn one_outcome()
    ensures { (ws : List (List ℕ)) (files : FileList) (script : List ℕ) (a b : Outcome) → Runs ws files script a → Runs ws files script b → a ≡ b }
{
    one_verdict();
}

/// A law, which does nothing when it is called: each run has an outcome.
pub fn some_outcome()
    ensures { (ws : List (List ℕ)) (files : FileList) (script : List ℕ) → (outcome : Outcome) × Runs ws files script outcome }
{
    some_verdict();
}
