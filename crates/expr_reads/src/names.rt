ghost use Rattle.std.specs.Prelude.{◌≡◌, [], ◌∷◌, ◌++◌, OnOk};
ghost use Rattle.expr_reads.specs.Names.{called};

use slint_base::{Memory, Span};
use sqlite_items::Items;
use typed_tree::{Callee, MemberRef};

/// What an expression can read or call. Members and elements are those of the component or the global in which it stands.
#[derive(Clone, Copy)]
pub enum Named {
    /// A property: its value, its length or one of its items.
    Property(MemberRef),
    /// The item of the row at hand of a repeated element.
    RowItem(usize),
    /// The number of the row at hand of a repeated element.
    RowNumber(usize),
    /// A function, and the stretch of the call.
    Function(MemberRef, Span),
    /// A callback, and the stretch of the call.
    Callback(MemberRef, Span),
}

/// Adds one of what is named.
pub(crate) fn add(found: &mut Items<Named>, name: Named) -> Result<(), Memory>
    ensures { OnOk result (found.new ≡ found.old ++ name ∷ []) }
{
    found.push(name)?;
    Ok(())
}

/// Adds what a call names beside its arguments. A call that moves the focus names nothing.
pub(crate) fn add_callee(found: &mut Items<Named>, callee: Callee, span: Span) -> Result<(), Memory>
    ensures { OnOk result (found.new ≡ found.old ++ called callee span) }
{
    match callee {
        Callee::Function(member) => add(found, Named::Function(member, span)),
        Callee::Callback(member) => add(found, Named::Callback(member, span)),
        Callee::Focus(_) => Ok(()),
    }
}
