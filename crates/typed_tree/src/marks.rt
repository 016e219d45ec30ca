ghost use Rattle.std.specs.Prelude.{◌≡◌};
ghost use Rattle.typed_tree.specs.Members.{assignable, bindable, callable, linkable, readable, takes_out};

use syntax_tree::{Access, Mark};

/// Whether a property may be read, by its owner's body and by others.
pub fn readable(is_inside: bool, mark: Mark) -> bool
    ensures { result ≡ readable is_inside mark }
{
    match mark {
        Mark::None => is_inside,
        Mark::Private => is_inside,
        Mark::In => true,
        Mark::Out => true,
        Mark::InOut => true,
    }
}

/// Whether a property may be bound, or linked as a left side.
pub fn bindable(is_inside: bool, mark: Mark) -> bool
    ensures { result ≡ bindable is_inside mark }
{
    match mark {
        Mark::In => true,
        Mark::InOut => true,
        Mark::None => is_inside,
        Mark::Private => is_inside,
        Mark::Out => is_inside,
    }
}

/// Whether a property may be assigned.
pub fn assignable(is_inside: bool, mark: Mark) -> bool
    ensures { result ≡ assignable is_inside mark }
{
    match mark {
        Mark::In => !is_inside,
        Mark::InOut => true,
        Mark::None => is_inside,
        Mark::Private => is_inside,
        Mark::Out => is_inside,
    }
}

/// Whether an `out` property of others may be linked to a left side with this mark.
fn takes_out(mark: Mark) -> bool
    ensures { result ≡ takes_out mark }
{
    match mark {
        Mark::None => true,
        Mark::Private => true,
        Mark::Out => true,
        Mark::In => false,
        Mark::InOut => false,
    }
}

/// Whether a property may be linked as a right side, beside a left side with this mark.
pub fn linkable(is_inside: bool, left: Mark, mark: Mark) -> bool
    ensures { result ≡ linkable is_inside left mark }
{
    match mark {
        Mark::In => true,
        Mark::InOut => true,
        Mark::Out => is_inside || takes_out(left),
        Mark::None => is_inside,
        Mark::Private => is_inside,
    }
}

/// Whether a function may be called, by its owner's body, by that of a component that inherits the owner, and by others.
pub fn callable(is_inside: bool, is_below: bool, access: Access) -> bool
    ensures { result ≡ callable is_inside is_below access }
{
    match access {
        Access::None => is_inside,
        Access::Protected => is_inside || is_below,
        Access::Public => true,
    }
}
