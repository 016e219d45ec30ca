ghost use Rattle.std.specs.Prelude.{◌≡◌, ◌++◌, IfOk, OnOk};
ghost use Rattle.std.specs.List.{flat_map};
ghost use Rattle.source_elements.specs.Elements.{written_in as its_elements};
ghost use Rattle.declaration_rules.specs.Words.{if_declared, type_words, type_words_of, words_of_body, words_of_field, words_of_form, words_of_item, words_of_parameter, words_of_parameters, words_of_result, words_of_type, words_of_written};

use crate::words::{Word, push_word};
use slint_base::Memory;
use source_elements::{Written, written_in};
use sqlite_items::Items;
use std::alloc::Global;
use syntax_tree::{
    CallbackForm, Component, Decl, Field, FileItem, Function, Item, Parameter, TypeName,
};

/// Adds the names of types that a type is written with.
#[cycle(type_words)]
fn push_type<'a>(out: &mut Items<Word<'a>>, ty: &'a TypeName) -> Result<(), Memory>
    ensures { OnOk result (out.new ≡ out.old ++ words_of_type ty.now) }
{
    match ty {
        TypeName::Named(ident) => push_word(out, ident),
        TypeName::Array(item, _) => push_type(out, item.get()),
        TypeName::Struct(fields, _) => push_fields(out, fields.as_slice()),
    }
}

/// Adds those of the types of fields or parameters.
#[cycle(type_words)]
pub(crate) fn push_fields<'a>(out: &mut Items<Word<'a>>, fields: &'a [Field]) -> Result<(), Memory>
    ensures { OnOk result (out.new ≡ out.old ++ flat_map words_of_field fields.now) }
{
    for field in fields {
        push_field(out, field)?;
    }
    Ok(())
}

/// Adds those of the type of a field or a parameter.
#[cycle(type_words)]
fn push_field<'a>(out: &mut Items<Word<'a>>, field: &'a Field) -> Result<(), Memory>
    ensures { OnOk result (out.new ≡ out.old ++ words_of_field field.now) }
{
    push_type(out, &field.ty)
}

/// Adds those of a type, where one is written.
fn push_result<'a>(out: &mut Items<Word<'a>>, ty: &'a Option<TypeName>) -> Result<(), Memory>
    ensures { OnOk result (out.new ≡ out.old ++ words_of_result ty.now) }
{
    match ty {
        Some(ty) => push_type(out, ty),
        None => Ok(()),
    }
}

/// Adds those of the parameters of a callback.
fn push_each<'a>(out: &mut Items<Word<'a>>, parameters: &'a [Parameter]) -> Result<(), Memory>
    ensures { OnOk result (out.new ≡ out.old ++ flat_map words_of_parameter parameters.now) }
{
    for parameter in parameters {
        push_type(out, &parameter.ty)?;
    }
    Ok(())
}

/// Adds those of the parameters of a callback, where parentheses are written.
fn push_parameters<'a>(
    out: &mut Items<Word<'a>>,
    parameters: &'a Option<Items<Parameter>>,
) -> Result<(), Memory>
    ensures { OnOk result (out.new ≡ out.old ++ words_of_parameters parameters.now) }
{
    match parameters {
        Some(parameters) => push_each(out, parameters.as_slice()),
        None => Ok(()),
    }
}

/// Adds those of what a callback takes and gives.
fn push_signature<'a>(
    out: &mut Items<Word<'a>>,
    parameters: &'a Option<Items<Parameter>>,
    gives: &'a Option<TypeName>,
) -> Result<(), Memory>
    ensures { OnOk result (out.new ≡ out.old ++ words_of_parameters parameters.now ++ words_of_result gives.now) }
{
    push_parameters(out, parameters)?;
    push_result(out, gives)?;
    Ok(())
}

/// Adds those of a callback.
fn push_form<'a>(out: &mut Items<Word<'a>>, form: &'a CallbackForm) -> Result<(), Memory>
    ensures { OnOk result (out.new ≡ out.old ++ words_of_form form.now) }
{
    match form {
        CallbackForm::Link(_) => Ok(()),
        CallbackForm::Signature(parameters, gives) => push_signature(out, parameters, gives),
    }
}

/// Adds those of a function.
fn push_function<'a>(out: &mut Items<Word<'a>>, function: &'a Function) -> Result<(), Memory>
    ensures { OnOk result (out.new ≡ out.old ++ flat_map words_of_field function.now.parameters ++ words_of_result function.now.result) }
{
    push_fields(out, function.parameters.as_slice())?;
    push_result(out, &function.result)?;
    Ok(())
}

/// Adds those of an item of a body, but for the elements inside it.
fn push_item<'a>(out: &mut Items<Word<'a>>, item: &'a Item) -> Result<(), Memory>
    ensures { OnOk result (out.new ≡ out.old ++ words_of_item item.now) }
{
    match item {
        Item::Property(property) => push_result(out, &property.ty),
        Item::Callback(callback) => push_form(out, &callback.form),
        Item::Function(function) => push_function(out, function),
        _ => Ok(()),
    }
}

/// Adds those of a body, but for the elements inside it.
fn push_body<'a>(out: &mut Items<Word<'a>>, items: &'a [Item]) -> Result<(), Memory>
    ensures { OnOk result (out.new ≡ out.old ++ words_of_body items.now) }
{
    for item in items {
        push_item(out, item)?;
    }
    Ok(())
}

/// Adds those of the bodies of elements.
fn push_bodies<'a>(out: &mut Items<Word<'a>>, elements: &[Written<'a>]) -> Result<(), Memory>
    ensures { OnOk result (out.new ≡ out.old ++ flat_map words_of_written elements.now) }
{
    for element in elements {
        push_body(out, element.body())?;
    }
    Ok(())
}

/// Adds those of a component.
fn push_component<'a>(
    alloc: Global,
    out: &mut Items<Word<'a>>,
    component: &'a Component,
) -> Result<(), Memory>
    ensures { OnOk result (out.new ≡ out.old ++ flat_map words_of_written (its_elements component.now)) }
{
    let elements = written_in(alloc, component)?;
    push_bodies(out, elements.as_slice())
}

/// Adds those of a declaration.
fn push_decl<'a>(alloc: Global, out: &mut Items<Word<'a>>, decl: &'a Decl) -> Result<(), Memory>
    ensures { OnOk result (out.new ≡ out.old ++ type_words_of decl.now) }
{
    match decl {
        Decl::Component(component) => push_component(alloc, out, component),
        Decl::Global(global) => push_body(out, global.items.as_slice()),
        Decl::Struct(declared) => push_fields(out, declared.fields.as_slice()),
        Decl::Enum(_) => Ok(()),
    }
}

/// Adds those of an item of a file.
fn push_type_words<'a>(
    alloc: Global,
    out: &mut Items<Word<'a>>,
    item: &'a FileItem,
) -> Result<(), Memory>
    ensures { OnOk result (out.new ≡ out.old ++ if_declared type_words_of item.now) }
{
    match item {
        FileItem::Decl(_, decl) => push_decl(alloc, out, decl),
        _ => Ok(()),
    }
}

/// The names of types that a file's declarations are written with.
pub(crate) fn type_words<'a>(
    alloc: Global,
    items: &'a [FileItem],
) -> Result<Items<Word<'a>>, Memory>
    ensures { IfOk result (λ words. words ≡ type_words items.now) }
{
    let mut words = Items::new(alloc);
    for item in items {
        push_type_words(alloc, &mut words, item)?;
    }
    Ok(words)
}
