ghost use Rattle.std.specs.Prelude.{List};
ghost use Rattle.import_resolver.specs.Loaded.{FileRow};
ghost use Rattle.source_outline.specs.Laws.{SomeFirst};

use finite_graphs::circles_are_decided;

/// A law, which does nothing when it is called: of any files, some endless link is the first one, or there is none.
pub fn some_first_endless_link()
    ensures { (rows : List FileRow) → SomeFirst rows }
{
    circles_are_decided();
}
