ghost use Rattle.std.specs.Prelude.{ℕ, List, Option};
ghost use Rattle.declaration_rules.specs.Declarations.{SomeFirst};
ghost use Rattle.import_resolver.specs.Loaded.{FileRow};

use finite_graphs::circles_are_decided;

/// A law, which does nothing when it is called: of any files, some fault of the first pass is the first one, or there is none.
pub fn some_first_declaration_fault()
    ensures { (rows : List FileRow) (wanted : Option (List ℕ)) → SomeFirst rows wanted }
{
    circles_are_decided();
}
