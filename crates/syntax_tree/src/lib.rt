//! The trees of source files: one variant or field for each part of the written grammar, with the stretches that spell them.
#![tactic(auto)]

mod expressions;
mod files;
mod items;
mod print_exprs;
mod print_files;
mod print_items;
mod print_members;
mod print_stmts;
mod print_types;
mod statements;
mod types;
mod words;
mod writing;

pub use expressions::{BinaryOp, Expr, FieldValue, Hole, Operand, PrefixOp, Suffix};
pub use files::{
    Alias, Component, Decl, EnumDecl, ExportAll, ExportList, File, FileItem, Global, Import,
    StructDecl,
};
pub use items::{
    Access, Binding, Callback, CallbackForm, Change, Changed, Element, For, Function, Handler,
    IfElement, Item, Link, Mark, Parameter, PropValue, Property, State, States,
};
pub use print_files::print_tree;
pub use statements::{AssignOp, Block, Else, Stmt, Value};
pub use types::{Field, TypeName};
pub use words::{Ident, Path, Quoted};
