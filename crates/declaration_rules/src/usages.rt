ghost use Rattle.std.specs.Prelude.{◌≡◌, ◌++◌, [], IfOk, OnOk, map};
ghost use Rattle.std.specs.List.{flat_map};
ghost use Rattle.source_scopes.specs.Entries.{entry_meaning, entry_of};
ghost use Rattle.source_scopes.specs.Shown.{shown_component, shown_struct};
ghost use Rattle.declaration_rules.specs.Circles.{component_usage, component_usages, struct_usage, struct_usages, usage_of_element, usage_of_type, usages_in_component, usages_in_struct};
ghost use Rattle.declaration_rules.specs.Turns.{in_turn};
ghost use Rattle.declaration_rules.specs.Words.{words_of_component, words_of_field};

use crate::type_words::push_fields;
use crate::words::{Word, push_elements};
use slint_base::{Memory, Span};
use source_scopes::{FileComponent, FileStruct, Meaning, Scopes};
use sqlite_items::Items;
use std::alloc::Global;
use syntax_tree::{Component, Field};
use typed_tree::ElementType;

/// A use of a declaration in another one, each by its number, and the stretch of the name that is used.
#[derive(Clone, Copy)]
pub struct Usage {
    pub from: usize,
    pub to: usize,
    pub span: Span,
}

/// Adds the use of an element in a component, where that element is a component.
fn push_component_usage(
    out: &mut Items<Usage>,
    from: usize,
    span: Span,
    element: Option<ElementType>,
) -> Result<(), Memory>
    ensures { OnOk result (out.new ≡ out.old ++ component_usage from span element) }
{
    match element {
        Some(ElementType::Component(to)) => {
            out.push(Usage { from, to, span })?;
            Ok(())
        }
        Some(ElementType::BuiltIn(_)) => Ok(()),
        None => Ok(()),
    }
}

/// Adds the uses of components among the names of elements that a component of a file is written with.
fn push_used_elements(
    scopes: &Scopes<'_>,
    out: &mut Items<Usage>,
    from: usize,
    file: usize,
    words: &[Word<'_>],
) -> Result<(), Memory>
    ensures { OnOk result (out.new ≡ out.old ++ flat_map (usage_of_element scopes.now from file) words.now) }
{
    for word in words {
        let element = scopes.element(file, word.name());
        push_component_usage(out, from, word.span(), element)?;
    }
    Ok(())
}

/// Adds the uses of components in a component of a file.
fn push_component(
    alloc: Global,
    scopes: &Scopes<'_>,
    out: &mut Items<Usage>,
    from: usize,
    file: usize,
    component: &Component,
) -> Result<(), Memory>
    ensures { OnOk result (out.new ≡ out.old ++ flat_map (usage_of_element scopes.now from file) (words_of_component component.now)) }
{
    let mut words = Items::new(alloc);
    push_elements(alloc, &mut words, component)?;
    push_used_elements(scopes, out, from, file, words.as_slice())?;
    Ok(())
}

/// The uses of components, as bases and as elements, in all components.
pub(crate) fn component_usages(alloc: Global, scopes: &Scopes<'_>) -> Result<Items<Usage>, Memory>
    ensures { IfOk result (λ usages. usages ≡ component_usages scopes.now) }
{
    let components = scopes.components(alloc)?;
    let usages = usages_in_components(alloc, scopes, components.as_slice())?;
    Ok(usages)
}

/// The uses of components in some components, which are numbered from 0.
fn usages_in_components(
    alloc: Global,
    scopes: &Scopes<'_>,
    components: &[FileComponent<'_>],
) -> Result<Items<Usage>, Memory>
    ensures { IfOk result (λ usages. usages ≡ in_turn (usages_in_component scopes.now) [] (map shown_component components.now)) }
{
    let mut usages = Items::new(alloc);
    for (number, one) in components.iter().enumerate() {
        push_component(alloc, scopes, &mut usages, number, one.file, one.component)?;
    }
    Ok(usages)
}

/// Adds the use of a type in a struct, where that type is a struct.
fn push_struct_usage(
    out: &mut Items<Usage>,
    from: usize,
    span: Span,
    meaning: Option<Meaning>,
) -> Result<(), Memory>
    ensures { OnOk result (out.new ≡ out.old ++ struct_usage from span meaning) }
{
    match meaning {
        Some(Meaning::Struct(to)) => {
            out.push(Usage { from, to, span })?;
            Ok(())
        }
        Some(Meaning::Component(_)) => Ok(()),
        Some(Meaning::Global(_)) => Ok(()),
        Some(Meaning::Enum(_)) => Ok(()),
        None => Ok(()),
    }
}

/// What a name of a file's scope stands for.
fn meaning_of(scopes: &Scopes<'_>, file: usize, word: &Word<'_>) -> Option<Meaning>
    ensures { result ≡ entry_meaning (entry_of scopes.now file word.now.name) }
{
    match scopes.meaning(file, word.name()) {
        Some(meaning) => meaning,
        None => None,
    }
}

/// Adds the uses of structs among the names of types that a struct of a file is written with.
fn push_used_types(
    scopes: &Scopes<'_>,
    out: &mut Items<Usage>,
    from: usize,
    file: usize,
    words: &[Word<'_>],
) -> Result<(), Memory>
    ensures { OnOk result (out.new ≡ out.old ++ flat_map (usage_of_type scopes.now from file) words.now) }
{
    for word in words {
        let meaning = meaning_of(scopes, file, word);
        push_struct_usage(out, from, word.span(), meaning)?;
    }
    Ok(())
}

/// Adds the uses of structs in a struct of a file, which has these fields.
fn push_struct(
    alloc: Global,
    scopes: &Scopes<'_>,
    out: &mut Items<Usage>,
    from: usize,
    file: usize,
    fields: &[Field],
) -> Result<(), Memory>
    ensures { OnOk result (out.new ≡ out.old ++ flat_map (usage_of_type scopes.now from file) (flat_map words_of_field fields.now)) }
{
    let mut words = Items::new(alloc);
    push_fields(&mut words, fields)?;
    push_used_types(scopes, out, from, file, words.as_slice())?;
    Ok(())
}

/// The uses of structs in all structs.
pub(crate) fn struct_usages(alloc: Global, scopes: &Scopes<'_>) -> Result<Items<Usage>, Memory>
    ensures { IfOk result (λ usages. usages ≡ struct_usages scopes.now) }
{
    let structs = scopes.structs(alloc)?;
    let usages = usages_in_structs(alloc, scopes, structs.as_slice())?;
    Ok(usages)
}

/// The uses of structs in some structs, which are numbered from 0.
fn usages_in_structs(
    alloc: Global,
    scopes: &Scopes<'_>,
    structs: &[FileStruct<'_>],
) -> Result<Items<Usage>, Memory>
    ensures { IfOk result (λ usages. usages ≡ in_turn (usages_in_struct scopes.now) [] (map shown_struct structs.now)) }
{
    let mut usages = Items::new(alloc);
    for (number, one) in structs.iter().enumerate() {
        push_struct(
            alloc,
            scopes,
            &mut usages,
            number,
            one.file,
            one.decl.fields.as_slice(),
        )?;
    }
    Ok(usages)
}
