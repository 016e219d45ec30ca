ghost use Rattle.std.specs.Prelude.{◌≡◌};
ghost use Rattle.loop_check.specs.Acts.{assignment, call, declared_by, routine_of};

use slint_base::Span;
use typed_tree::{Callee, ElementMember, MemberRef};

/// The component or the global in whose body something is declared, by its number.
#[derive(Clone, Copy)]
pub enum Home {
    Component(usize),
    Global(usize),
}

/// A declared callback or function: where it is declared, and its number among the members there.
#[derive(Clone, Copy)]
pub struct Routine {
    pub home: Home,
    pub number: usize,
}

/// An assignment or a call, with its stretch.
#[derive(Clone, Copy)]
pub struct Act {
    /// What is called. Nothing stands for an assignment, and for a call of what is built in: these are impure in any case.
    pub calls: Option<Routine>,
    pub span: Span,
}

/// The declared callback or function that a member is, if it is declared.
pub(crate) fn declared_by(member: MemberRef) -> Option<Routine>
    ensures { result ≡ declared_by member }
{
    match member {
        MemberRef::Element(_, ElementMember::BuiltIn(_)) => None,
        MemberRef::Element(_, ElementMember::Declared(component, number)) => {
            Some(Routine {
                home: Home::Component(component),
                number,
            })
        }
        MemberRef::Global(global, number) => {
            Some(Routine {
                home: Home::Global(global),
                number,
            })
        }
    }
}

/// The declared callback or function that is called, if it is declared.
fn routine_of(callee: Callee) -> Option<Routine>
    ensures { result ≡ routine_of callee }
{
    match callee {
        Callee::Function(member) => declared_by(member),
        Callee::Callback(member) => declared_by(member),
        Callee::Focus(_) => None,
    }
}

/// A call as an act.
pub(crate) fn call(callee: Callee, span: Span) -> Act
    ensures { result ≡ call callee span }
{
    Act {
        calls: routine_of(callee),
        span,
    }
}

/// An assignment as an act.
pub(crate) fn assignment(span: Span) -> Act
    ensures { result ≡ assignment span }
{
    Act { calls: None, span }
}
