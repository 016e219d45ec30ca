ghost use Rattle.std.specs.Prelude.{◌∷◌, ◌++◌, [], IfOk, map, Some, codes};
ghost use Rattle.slint_lexer.specs.declared.tokens.Symbol.TheVariants.{Semicolon as a_semicolon, CloseParen as close_paren, CloseBrace as close_brace, CloseBracket as close_bracket};
ghost use Rattle.slint_lexer.specs.declared.tokens.TokenKind.TheVariants.{Id as id_kind};
ghost use Rattle.syntax_tree.specs.Printed.{if_some, in_order, in_parens, in_angles, linked_to, in_braces, behind_points, tokens_of_point, mark_tokens, prop_value_of, signature, states_of, property_head, pure_tokens, callback_head, before_type, access_tokens, modifiers, tokens_of_ident, tokens_of_path, tokens_of_type, tokens_of_field, tokens_of_block, tokens_of_prop_value, tokens_of_property, tokens_of_parameter, tokens_of_parameters, tokens_of_result, tokens_of_form, tokens_of_callback, tokens_of_function, tokens_of_binding, tokens_of_link, tokens_of_names, tokens_of_handler, tokens_of_changed, tokens_of_change, tokens_of_when, tokens_of_state, tokens_of_states};
ghost use Rattle.syntax_tree.specs.Writes.{Writes};

use crate::print_exprs::print_expr;
use crate::print_stmts::{print_block, print_value};
use crate::print_types::{print_field, print_type};
use crate::writing::{write_comma, write_name, write_symbol, write_word};
use crate::{
    Access, Binding, Callback, CallbackForm, Change, Changed, Expr, Field, Function, Handler,
    Ident, Link, Mark, Parameter, Path, PropValue, Property, State, States, TypeName, Value,
};
use slint_base::Memory;
use slint_lexer::Symbol;
use sqlite_items::Items;
use std::alloc::Global;

/// Prints a name.
pub(crate) fn print_ident(alloc: Global, out: &mut Vec<u8>, ident: &Ident) -> Result<(), Memory>
    ensures { IfOk result (λ _. Writes out.old.items out.new.items (tokens_of_ident ident.now)) }
{
    write_name(out, &ident.name)
}

/// Prints a name behind a point.
fn print_point(alloc: Global, out: &mut Vec<u8>, ident: &Ident) -> Result<(), Memory>
    ensures { IfOk result (λ _. Writes out.old.items out.new.items (tokens_of_point ident.now)) }
{
    write_symbol(alloc, out, Symbol::Dot)?;
    write_name(out, &ident.name)?;
    Ok(())
}

/// Prints names, each behind a point.
fn print_points(alloc: Global, out: &mut Vec<u8>, idents: &[Ident]) -> Result<(), Memory>
    ensures { IfOk result (λ _. Writes out.old.items out.new.items (behind_points idents.now)) }
{
    for ident in idents {
        print_point(alloc, out, ident)?;
    }
    Ok(())
}

/// Prints names with points between.
fn print_path(alloc: Global, out: &mut Vec<u8>, path: &Path) -> Result<(), Memory>
    ensures { IfOk result (λ _. Writes out.old.items out.new.items (tokens_of_path path.now)) }
{
    write_name(out, &path.first.name)?;
    print_points(alloc, out, path.rest.as_slice())?;
    Ok(())
}

/// Prints a link to a path, with its semicolon.
fn print_linked(alloc: Global, out: &mut Vec<u8>, path: &Path) -> Result<(), Memory>
    ensures { IfOk result (λ _. Writes out.old.items out.new.items (linked_to path.now)) }
{
    write_symbol(alloc, out, Symbol::TwoWay)?;
    print_path(alloc, out, path)?;
    write_symbol(alloc, out, Symbol::Semicolon)?;
    Ok(())
}

/// Prints the mark of a property.
fn print_mark(out: &mut Vec<u8>, mark: Mark) -> Result<(), Memory>
    ensures { IfOk result (λ _. Writes out.old.items out.new.items (mark_tokens mark)) }
{
    match mark {
        Mark::None => Ok(()),
        Mark::Private => write_word(out, "private"),
        Mark::In => write_word(out, "in"),
        Mark::Out => write_word(out, "out"),
        Mark::InOut => write_word(out, "in-out"),
    }
}

/// Prints a type in angles.
fn print_angled(alloc: Global, out: &mut Vec<u8>, ty: &TypeName) -> Result<(), Memory>
    ensures { IfOk result (λ _. Writes out.old.items out.new.items (in_angles ty.now)) }
{
    write_symbol(alloc, out, Symbol::Less)?;
    print_type(alloc, out, ty)?;
    write_symbol(alloc, out, Symbol::Greater)?;
    Ok(())
}

/// Prints a type in angles, where there is one.
fn print_some_angled(alloc: Global, out: &mut Vec<u8>, ty: &Option<TypeName>) -> Result<(), Memory>
    ensures { IfOk result (λ _. Writes out.old.items out.new.items (if_some in_angles ty.now)) }
{
    match ty {
        None => Ok(()),
        Some(ty) => print_angled(alloc, out, ty),
    }
}

/// Prints a value behind a colon.
pub(crate) fn print_bound(alloc: Global, out: &mut Vec<u8>, value: &Value) -> Result<(), Memory>
    ensures { IfOk result (λ _. Writes out.old.items out.new.items (prop_value_of value.now)) }
{
    write_symbol(alloc, out, Symbol::Colon)?;
    print_value(alloc, out, value)?;
    Ok(())
}

/// Prints what a property is given.
fn print_prop_value(alloc: Global, out: &mut Vec<u8>, value: &PropValue) -> Result<(), Memory>
    ensures { IfOk result (λ _. Writes out.old.items out.new.items (tokens_of_prop_value value.now)) }
{
    match value {
        PropValue::None => write_symbol(alloc, out, Symbol::Semicolon),
        PropValue::Value(value) => print_bound(alloc, out, value),
        PropValue::Link(path) => print_linked(alloc, out, path),
    }
}

/// Prints the words before a property.
fn print_property_head(out: &mut Vec<u8>, mark: Mark) -> Result<(), Memory>
    ensures { IfOk result (λ _. Writes out.old.items out.new.items (property_head mark)) }
{
    print_mark(out, mark)?;
    write_word(out, "property")?;
    Ok(())
}

/// Prints a property.
pub(crate) fn print_property(
    alloc: Global,
    out: &mut Vec<u8>,
    property: &Property,
) -> Result<(), Memory>
    ensures { IfOk result (λ _. Writes out.old.items out.new.items (tokens_of_property property.now)) }
{
    print_property_head(out, property.mark)?;
    print_some_angled(alloc, out, &property.ty)?;
    write_name(out, &property.name.name)?;
    print_prop_value(alloc, out, &property.value)?;
    Ok(())
}

/// Prints `pure`, where it stands.
fn print_pure(out: &mut Vec<u8>, is_pure: bool) -> Result<(), Memory>
    ensures { IfOk result (λ _. Writes out.old.items out.new.items (pure_tokens is_pure)) }
{
    if is_pure {
        return write_word(out, "pure");
    }
    Ok(())
}

/// Prints the words before a callback.
fn print_callback_head(out: &mut Vec<u8>, is_pure: bool) -> Result<(), Memory>
    ensures { IfOk result (λ _. Writes out.old.items out.new.items (callback_head is_pure)) }
{
    print_pure(out, is_pure)?;
    write_word(out, "callback")?;
    Ok(())
}

/// Prints a name before a type, with its colon.
fn print_before_type(alloc: Global, out: &mut Vec<u8>, name: &Ident) -> Result<(), Memory>
    ensures { IfOk result (λ _. Writes out.old.items out.new.items (before_type (Some name.now))) }
{
    write_name(out, &name.name)?;
    write_symbol(alloc, out, Symbol::Colon)?;
    Ok(())
}

/// Prints the name of a parameter with its colon, where there is one.
fn print_parameter_name(
    alloc: Global,
    out: &mut Vec<u8>,
    name: &Option<Ident>,
) -> Result<(), Memory>
    ensures { IfOk result (λ _. Writes out.old.items out.new.items (before_type name.now)) }
{
    match name {
        None => Ok(()),
        Some(name) => print_before_type(alloc, out, name),
    }
}

/// Prints a callback's parameter.
fn print_parameter(alloc: Global, out: &mut Vec<u8>, parameter: &Parameter) -> Result<(), Memory>
    ensures { IfOk result (λ _. Writes out.old.items out.new.items (tokens_of_parameter parameter.now)) }
{
    print_parameter_name(alloc, out, &parameter.name)?;
    print_type(alloc, out, &parameter.ty)?;
    Ok(())
}

/// Prints a callback's parameters in parentheses.
fn print_parameters(
    alloc: Global,
    out: &mut Vec<u8>,
    parameters: &[Parameter],
) -> Result<(), Memory>
    ensures { IfOk result (λ _. Writes out.old.items out.new.items (tokens_of_parameters parameters.now)) }
{
    write_symbol(alloc, out, Symbol::OpenParen)?;
    for (at, parameter) in parameters.iter().enumerate() {
        write_comma(alloc, out, at)?;
        print_parameter(alloc, out, parameter)?;
    }
    write_symbol(alloc, out, Symbol::CloseParen)?;
    Ok(())
}

/// Prints a callback's parameters, where there are any.
fn print_some_parameters(
    alloc: Global,
    out: &mut Vec<u8>,
    parameters: &Option<Items<Parameter>>,
) -> Result<(), Memory>
    ensures { IfOk result (λ _. Writes out.old.items out.new.items (if_some tokens_of_parameters parameters.now)) }
{
    match parameters {
        None => Ok(()),
        Some(parameters) => print_parameters(alloc, out, parameters.as_slice()),
    }
}

/// Prints a result behind its arrow.
fn print_result(alloc: Global, out: &mut Vec<u8>, ty: &TypeName) -> Result<(), Memory>
    ensures { IfOk result (λ _. Writes out.old.items out.new.items (tokens_of_result ty.now)) }
{
    write_symbol(alloc, out, Symbol::ThinArrow)?;
    print_type(alloc, out, ty)?;
    Ok(())
}

/// Prints a result behind its arrow, where there is one.
fn print_some_result(alloc: Global, out: &mut Vec<u8>, ty: &Option<TypeName>) -> Result<(), Memory>
    ensures { IfOk result (λ _. Writes out.old.items out.new.items (if_some tokens_of_result ty.now)) }
{
    match ty {
        None => Ok(()),
        Some(ty) => print_result(alloc, out, ty),
    }
}

/// Prints a callback's signature, with its semicolon.
fn print_signature(
    alloc: Global,
    out: &mut Vec<u8>,
    parameters: &Option<Items<Parameter>>,
    ty: &Option<TypeName>,
) -> Result<(), Memory>
    ensures { IfOk result (λ _. Writes out.old.items out.new.items (signature parameters.now ty.now)) }
{
    print_some_parameters(alloc, out, parameters)?;
    print_some_result(alloc, out, ty)?;
    write_symbol(alloc, out, Symbol::Semicolon)?;
    Ok(())
}

/// Prints what stands behind the name of a callback.
fn print_form(alloc: Global, out: &mut Vec<u8>, form: &CallbackForm) -> Result<(), Memory>
    ensures { IfOk result (λ _. Writes out.old.items out.new.items (tokens_of_form form.now)) }
{
    match form {
        CallbackForm::Link(path) => print_linked(alloc, out, path),
        CallbackForm::Signature(parameters, ty) => print_signature(alloc, out, parameters, ty),
    }
}

/// Prints a callback.
pub(crate) fn print_callback(
    alloc: Global,
    out: &mut Vec<u8>,
    callback: &Callback,
) -> Result<(), Memory>
    ensures { IfOk result (λ _. Writes out.old.items out.new.items (tokens_of_callback callback.now)) }
{
    print_callback_head(out, callback.is_pure)?;
    write_name(out, &callback.name.name)?;
    print_form(alloc, out, &callback.form)?;
    Ok(())
}

/// Prints the mark of a function.
fn print_access(out: &mut Vec<u8>, access: Access) -> Result<(), Memory>
    ensures { IfOk result (λ _. Writes out.old.items out.new.items (access_tokens access)) }
{
    match access {
        Access::None => Ok(()),
        Access::Public => write_word(out, "public"),
        Access::Protected => write_word(out, "protected"),
    }
}

/// Prints the words before a function.
fn print_modifiers(out: &mut Vec<u8>, is_pure: bool, access: Access) -> Result<(), Memory>
    ensures { IfOk result (λ _. Writes out.old.items out.new.items (modifiers is_pure access)) }
{
    print_pure(out, is_pure)?;
    print_access(out, access)?;
    Ok(())
}

/// Prints a function's parameters in parentheses.
fn print_field_list(alloc: Global, out: &mut Vec<u8>, fields: &[Field]) -> Result<(), Memory>
    ensures { IfOk result (λ _. Writes out.old.items out.new.items (in_parens (map tokens_of_field fields.now))) }
{
    write_symbol(alloc, out, Symbol::OpenParen)?;
    for (at, field) in fields.iter().enumerate() {
        write_comma(alloc, out, at)?;
        print_field(alloc, out, field)?;
    }
    write_symbol(alloc, out, Symbol::CloseParen)?;
    Ok(())
}

/// Prints a function from its parameters on.
fn print_behind_name(alloc: Global, out: &mut Vec<u8>, function: &Function) -> Result<(), Memory>
    ensures { IfOk result (λ _. Writes out.old.items out.new.items (in_parens (map tokens_of_field function.now.parameters) ++ (if_some tokens_of_result function.now.result ++ tokens_of_block function.now.body))) }
{
    print_field_list(alloc, out, function.parameters.as_slice())?;
    print_some_result(alloc, out, &function.result)?;
    print_block(alloc, out, &function.body)?;
    Ok(())
}

/// Prints a function.
pub(crate) fn print_function(
    alloc: Global,
    out: &mut Vec<u8>,
    function: &Function,
) -> Result<(), Memory>
    ensures { IfOk result (λ _. Writes out.old.items out.new.items (tokens_of_function function.now)) }
{
    print_modifiers(out, function.is_pure, function.access)?;
    write_word(out, "function")?;
    write_name(out, &function.name.name)?;
    print_behind_name(alloc, out, function)?;
    Ok(())
}

/// Prints a binding.
pub(crate) fn print_binding(
    alloc: Global,
    out: &mut Vec<u8>,
    binding: &Binding,
) -> Result<(), Memory>
    ensures { IfOk result (λ _. Writes out.old.items out.new.items (tokens_of_binding binding.now)) }
{
    write_name(out, &binding.name.name)?;
    write_symbol(alloc, out, Symbol::Colon)?;
    print_value(alloc, out, &binding.value)?;
    Ok(())
}

/// Prints a two-way link.
pub(crate) fn print_link(alloc: Global, out: &mut Vec<u8>, link: &Link) -> Result<(), Memory>
    ensures { IfOk result (λ _. Writes out.old.items out.new.items (tokens_of_link link.now)) }
{
    write_name(out, &link.left.name)?;
    print_linked(alloc, out, &link.right)?;
    Ok(())
}

/// Prints a handler's parameters in parentheses.
fn print_names(alloc: Global, out: &mut Vec<u8>, idents: &[Ident]) -> Result<(), Memory>
    ensures { IfOk result (λ _. Writes out.old.items out.new.items (tokens_of_names idents.now)) }
{
    write_symbol(alloc, out, Symbol::OpenParen)?;
    for (at, ident) in idents.iter().enumerate() {
        write_comma(alloc, out, at)?;
        print_ident(alloc, out, ident)?;
    }
    write_symbol(alloc, out, Symbol::CloseParen)?;
    Ok(())
}

/// Prints a handler's parameters, where there are any.
fn print_some_names(
    alloc: Global,
    out: &mut Vec<u8>,
    idents: &Option<Items<Ident>>,
) -> Result<(), Memory>
    ensures { IfOk result (λ _. Writes out.old.items out.new.items (if_some tokens_of_names idents.now)) }
{
    match idents {
        None => Ok(()),
        Some(idents) => print_names(alloc, out, idents.as_slice()),
    }
}

/// Prints a handler.
pub(crate) fn print_handler(
    alloc: Global,
    out: &mut Vec<u8>,
    handler: &Handler,
) -> Result<(), Memory>
    ensures { IfOk result (λ _. Writes out.old.items out.new.items (tokens_of_handler handler.now)) }
{
    write_name(out, &handler.name.name)?;
    print_some_names(alloc, out, &handler.parameters)?;
    write_symbol(alloc, out, Symbol::FatArrow)?;
    print_value(alloc, out, &handler.run)?;
    Ok(())
}

/// Prints a handler of a change.
pub(crate) fn print_changed(
    alloc: Global,
    out: &mut Vec<u8>,
    changed: &Changed,
) -> Result<(), Memory>
    ensures { IfOk result (λ _. Writes out.old.items out.new.items (tokens_of_changed changed.now)) }
{
    write_word(out, "changed")?;
    write_name(out, &changed.name.name)?;
    write_symbol(alloc, out, Symbol::FatArrow)?;
    print_value(alloc, out, &changed.run)?;
    Ok(())
}

/// Prints the value that a property has in a state.
fn print_change(alloc: Global, out: &mut Vec<u8>, change: &Change) -> Result<(), Memory>
    ensures { IfOk result (λ _. Writes out.old.items out.new.items (tokens_of_change change.now)) }
{
    print_path(alloc, out, &change.path)?;
    write_symbol(alloc, out, Symbol::Colon)?;
    print_value(alloc, out, &change.value)?;
    Ok(())
}

/// Prints what a state changes, in braces.
fn print_changes(alloc: Global, out: &mut Vec<u8>, changes: &[Change]) -> Result<(), Memory>
    ensures { IfOk result (λ _. Writes out.old.items out.new.items (in_braces (map tokens_of_change changes.now))) }
{
    write_symbol(alloc, out, Symbol::OpenBrace)?;
    for change in changes {
        print_change(alloc, out, change)?;
    }
    write_symbol(alloc, out, Symbol::CloseBrace)?;
    Ok(())
}

/// Prints the condition of a state.
fn print_when(alloc: Global, out: &mut Vec<u8>, condition: &Expr) -> Result<(), Memory>
    ensures { IfOk result (λ _. Writes out.old.items out.new.items (tokens_of_when condition.now)) }
{
    write_word(out, "when")?;
    print_expr(alloc, out, condition)?;
    Ok(())
}

/// Prints the condition of a state, where there is one.
fn print_some_when(alloc: Global, out: &mut Vec<u8>, condition: &Option<Expr>) -> Result<(), Memory>
    ensures { IfOk result (λ _. Writes out.old.items out.new.items (if_some tokens_of_when condition.now)) }
{
    match condition {
        None => Ok(()),
        Some(condition) => print_when(alloc, out, condition),
    }
}

/// Prints a state.
fn print_state(alloc: Global, out: &mut Vec<u8>, state: &State) -> Result<(), Memory>
    ensures { IfOk result (λ _. Writes out.old.items out.new.items (tokens_of_state state.now)) }
{
    write_name(out, &state.name.name)?;
    print_some_when(alloc, out, &state.when)?;
    write_symbol(alloc, out, Symbol::Colon)?;
    print_changes(alloc, out, state.changes.as_slice())?;
    Ok(())
}

/// Prints states in brackets.
fn print_state_list(alloc: Global, out: &mut Vec<u8>, states: &[State]) -> Result<(), Memory>
    ensures { IfOk result (λ _. Writes out.old.items out.new.items (states_of states.now)) }
{
    write_symbol(alloc, out, Symbol::OpenBracket)?;
    for state in states {
        print_state(alloc, out, state)?;
    }
    write_symbol(alloc, out, Symbol::CloseBracket)?;
    Ok(())
}

/// Prints a list of states.
pub(crate) fn print_states(alloc: Global, out: &mut Vec<u8>, states: &States) -> Result<(), Memory>
    ensures { IfOk result (λ _. Writes out.old.items out.new.items (tokens_of_states states.now)) }
{
    write_word(out, "states")?;
    print_state_list(alloc, out, states.states.as_slice())?;
    Ok(())
}
