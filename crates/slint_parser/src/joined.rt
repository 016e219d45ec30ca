ghost use Rattle.std.specs.Prelude.{◌≡◌};
ghost use Rattle.slint_grammar.specs.Trees.{join as joined};

use slint_base::Span;

/// The stretch from the start of one to the end of another.
pub fn join(from: Span, to: Span) -> Span
    ensures { result ≡ joined from to }
{
    Span {
        file: from.file,
        start: from.start,
        end: to.end,
    }
}
