ghost use Rattle.std.specs.Prelude.{◌≡◌, ℕ, List};
ghost use Rattle.import_resolver.specs.Loaded.{ImportsLead};
ghost use Rattle.import_resolver.specs.Loads.{Goes, LoadsMain, Outcome, State, World};

use source_reader::{one_reading, some_reading};

/// A law, which does nothing when it is called: the load of a source comes to one thing.
pub fn one_outcome()
    ensures { (w : World) (main : List ℕ) (o p : Outcome) → LoadsMain w main o → LoadsMain w main p → o ≡ p }
{
    one_reading();
}

/// A law, which does nothing when it is called: the load of any main file comes to something.
pub fn some_outcome()
    ensures { (w : World) (main : List ℕ) → (o : Outcome) × LoadsMain w main o }
{
    some_reading();
}

/// A law, which does nothing when it is called: where a load goes on, the number of each import of each file is that of the file which it means.
pub fn imports_lead()
    ensures { (w : World) (main : List ℕ) (s : State) → LoadsMain w main (Goes s) → ImportsLead main s.seen s.seen }
{}
