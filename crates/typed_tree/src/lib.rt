//! What a source comes to once its names are looked up and its expressions have types: the outline of its declarations, the scope
//! of an expression, and the typed tree.
#![tactic(auto)]

mod bases;
mod built_ins;
mod copying;
mod declarers;
mod elements;
mod expressions;
mod finding;
mod marks;
mod member_indexes;
mod members;
mod name_lists;
mod names;
mod outlines;
mod parts;
mod scopes;
mod statements;
mod trees;

pub use built_ins::{built_in_enum, built_in_type};
pub use copying::copy_steps;
pub use expressions::{
    Callee, ExprKind, StepKind, TypedExpr, TypedField, TypedHole, TypedOperand, TypedStep,
};
pub use marks::{assignable, bindable, callable, linkable, readable};
pub use members::{
    ElementMember, Found, Member, MemberKind, MemberRef, Owner, Signature, is_inside,
};
pub use names::Names;
pub use outlines::{
    ComponentOutline, Declared, ElementOutline, ElementType, FileName, FileOutline, GlobalOutline,
    Outline, Repeat, Slot,
};
pub use scopes::{Local, RowNames, Scope, Site};
pub use statements::{StmtKind, Target, TargetBase, TypedBlock, TypedStmt, TypedValue};
pub use trees::{
    HandlerOf, RowSource, TypedBinding, TypedChange, TypedChanged, TypedComponent, TypedElement,
    TypedFor, TypedFunction, TypedGlobal, TypedHandler, TypedItem, TypedLink, TypedRepeat,
    TypedState, TypedStates, TypedTree,
};
