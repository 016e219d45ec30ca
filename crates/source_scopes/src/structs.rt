ghost use Rattle.std.specs.Prelude.{◌≡◌, ℕ, suc, IfOk, IsTrue, None, length, map, replicate, slice_get};
ghost use Rattle.std.specs.Option.{option_copied};
ghost use Rattle.import_resolver.specs.Loaded.{rows_of};
ghost use Rattle.source_scopes.specs.Declarations.{structs_of};
ghost use Rattle.source_scopes.specs.Shown.{shown_struct};
ghost use Rattle.source_scopes.specs.Structs.{AllStay, AreStructTypes, AreTyped, type_at};
ghost use Rattle.source_scopes.specs.Tables.{AreAll, entries_in};
ghost use Rattle.source_scopes.specs.Types.{struct_at};

use crate::Meaning;
use crate::declarations::{FileStruct, structs_of};
use crate::entries::Entries;
use crate::files::{add_edge, order_of};
use crate::tables::{FileTable, scope_in};
use crate::written::{find_in, written_fields};
use finite_graphs::Graph;
use import_resolver::Loaded;
use slint_base::{Memory, Name};
use sqlite_items::{Items, at};
use std::alloc::Global;
use syntax_tree::{Field, TypeName};
use value_types::Ty;

/// Of each struct its type, none of one that leads into a circle of structs. A struct's type is made once those of all structs in it are there.
pub(crate) fn struct_types(
    alloc: Global,
    loaded: &Loaded,
    tables: &[Option<FileTable>],
) -> Result<Items<Option<Ty>>, Memory>
    requires { AreAll (rows_of loaded.now) tables.now }
    ensures { IfOk result (AreStructTypes (rows_of loaded.now)) }
{
    let structs = structs_of(alloc, loaded)?;
    let order = struct_order(alloc, structs.as_slice(), tables)?;
    if order.len() > structs.len() {
        return Err(Memory);
    }
    let types = types_in_order(alloc, loaded, structs.as_slice(), tables, order.as_slice())?;
    if !all_stay(alloc, loaded, structs.as_slice(), tables, types.as_slice())? {
        return Err(Memory);
    }
    Ok(types)
}

/// The types of structs, made in this order.
fn types_in_order(
    alloc: Global,
    loaded: &Loaded,
    structs: &[FileStruct<'_>],
    tables: &[Option<FileTable>],
    order: &[usize],
) -> Result<Items<Option<Ty>>, Memory>
    requires structs { map shown_struct structs.now ≡ structs_of (rows_of loaded.now) }
    requires tables { AreAll (rows_of loaded.now) tables.now }
    ensures { IfOk result (AreTyped (rows_of loaded.now) (length order.now)) }
{
    let mut types = none_yet(alloc, structs.len())?;
    for number in order {
        types = with_type(alloc, loaded, structs, tables, types, *number)?;
    }
    Ok(types)
}

/// No struct's type.
fn none_yet(alloc: Global, count: usize) -> Result<Items<Option<Ty>>, Memory>
    ensures { IfOk result (λ types. types ≡ replicate count None) }
{
    let mut types = Items::new(alloc);
    for _ in 0..count {
        types.push(None)?;
    }
    Ok(types)
}

/// These types of structs, and that of one more.
fn with_type(
    alloc: Global,
    loaded: &Loaded,
    structs: &[FileStruct<'_>],
    tables: &[Option<FileTable>],
    mut types: Items<Option<Ty>>,
    number: usize,
) -> Result<Items<Option<Ty>>, Memory>
    requires structs { map shown_struct structs.now ≡ structs_of (rows_of loaded.now) }
    requires tables { AreAll (rows_of loaded.now) tables.now }
    ensures { (done : ℕ) → AreTyped (rows_of loaded.now) done types → IfOk result (AreTyped (rows_of loaded.now) (suc done)) }
{
    let ty = type_of_struct(alloc, loaded, structs, tables, types.as_slice(), number)?;
    if number >= types.len() {
        return Ok(types);
    }
    types.set(number, ty);
    Ok(types)
}

/// The type of a struct by a table of the types of structs.
fn type_of_struct(
    alloc: Global,
    loaded: &Loaded,
    structs: &[FileStruct<'_>],
    tables: &[Option<FileTable>],
    types: &[Option<Ty>],
    number: usize,
) -> Result<Option<Ty>, Memory>
    requires structs { map shown_struct structs.now ≡ structs_of (rows_of loaded.now) }
    requires tables { AreAll (rows_of loaded.now) tables.now }
    ensures { IfOk result (λ ty. ty ≡ struct_at (type_at types.now) (rows_of loaded.now) (slice_get (structs_of (rows_of loaded.now)) number)) }
{
    match at(structs, number) {
        Some(of) => {
            let scope = scope_in(tables, of.file);
            let made = written_fields(alloc, scope, types, of.decl.fields.as_slice())?;
            Ok(made)
        }
        None => Ok(None),
    }
}

/// Whether each struct without a type in a table has none by the table.
fn all_stay(
    alloc: Global,
    loaded: &Loaded,
    structs: &[FileStruct<'_>],
    tables: &[Option<FileTable>],
    types: &[Option<Ty>],
) -> Result<bool, Memory>
    requires structs { map shown_struct structs.now ≡ structs_of (rows_of loaded.now) }
    requires tables { AreAll (rows_of loaded.now) tables.now }
    requires sized { length types.now ≡ length (structs_of (rows_of loaded.now)) }
    ensures { IfOk result (λ stay. IsTrue stay → AllStay (rows_of loaded.now) types.now) }
{
    for (number, ty) in types.iter().enumerate() {
        if ty.is_none() {
            let made = type_of_struct(alloc, loaded, structs, tables, types, number)?;
            if made.is_some() {
                return Ok(false);
            }
        }
    }
    Ok(true)
}

/// The numbers of the structs, such that a struct comes behind those that it has in it, but for those on circles.
fn struct_order(
    alloc: Global,
    structs: &[FileStruct<'_>],
    tables: &[Option<FileTable>],
) -> Result<Items<usize>, Memory> {
    let mut graph = Graph::new(alloc, structs.len());
    for (number, of) in structs.iter().enumerate() {
        add_fields(
            &mut graph,
            scope_in(tables, of.file),
            number,
            of.decl.fields.as_slice(),
        )?;
    }
    order_of(alloc, &graph)
}

/// Adds an edge from a struct to each that its fields have in them.
#[cycle(add_types)]
fn add_fields(
    graph: &mut Graph,
    scope: Option<&Entries>,
    number: usize,
    fields: &[Field],
) -> Result<(), Memory> {
    for field in fields {
        add_type(graph, scope, number, &field.ty)?;
    }
    Ok(())
}

/// Adds an edge from a struct to each that a type in it has in it.
#[cycle(add_types)]
fn add_type(
    graph: &mut Graph,
    scope: Option<&Entries>,
    number: usize,
    ty: &TypeName,
) -> Result<(), Memory> {
    match ty {
        TypeName::Named(ident) => add_name(graph, scope, number, &ident.name),
        TypeName::Array(item, _) => add_type(graph, scope, number, item.get()),
        TypeName::Struct(fields, _) => add_fields(graph, scope, number, fields.as_slice()),
    }
}

/// Adds an edge from a struct to that of a name, where it is one.
fn add_name(
    graph: &mut Graph,
    scope: Option<&Entries>,
    number: usize,
    name: &Name,
) -> Result<(), Memory> {
    let Some(entry) = find_in(scope, name) else {
        return Ok(());
    };
    match entry.meaning {
        Some(Meaning::Struct(to)) => add_edge(graph, number, to),
        _ => Ok(()),
    }
}
