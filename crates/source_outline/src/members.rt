ghost use Rattle.std.specs.Prelude.{◌≡◌, [], ◌++◌, IfOk, Some, map};
ghost use Rattle.std.specs.Option.{option_copied};
ghost use Rattle.source_elements.specs.Elements.{WrittenElement};
ghost use Rattle.syntax_tree.specs.declared.items.Item.{out-Item};
ghost use Rattle.syntax_tree.specs.declared.types.Field.{out-Field};
ghost use Rattle.source_outline.specs.Members.{body_members, callback_member, callback_signature, element_members, field_ty, function_member, function_signature, function_span, in_front, member_by, parameter_tys, property_member, ty_if_written, ty_written};

use slint_base::{Memory, Span};
use source_elements::Written;
use source_scopes::Scopes;
use sqlite_items::Items;
use std::alloc::Global;
use syntax_tree::{
    Callback, CallbackForm, Field, Function, Ident, Item, Parameter, Property, TypeName,
};
use typed_tree::{Member, MemberKind, Signature};
use value_types::Ty;

/// The same name once more.
pub(crate) fn copy_ident(ident: &Ident) -> Result<Ident, Memory>
    ensures { IfOk result (λ same. same ≡ ident.now) }
{
    let name = ident.name.copy()?;
    Ok(Ident {
        name,
        span: ident.span,
    })
}

/// The type that is written in a file; void where a name in it is no type.
fn ty_written(alloc: Global, scopes: &Scopes<'_>, file: usize, ty: &TypeName) -> Result<Ty, Memory>
    ensures { IfOk result (λ made. made ≡ ty_written scopes.now file ty.now) }
{
    match scopes.written_type(alloc, file, ty)? {
        Some(ty) => Ok(ty),
        None => Ok(Ty::Void),
    }
}

/// The same; void where nothing is written.
fn ty_if_written(
    alloc: Global,
    scopes: &Scopes<'_>,
    file: usize,
    ty: &Option<TypeName>,
) -> Result<Ty, Memory>
    ensures { IfOk result (λ made. made ≡ ty_if_written scopes.now file ty.now) }
{
    match ty {
        Some(ty) => ty_written(alloc, scopes, file, ty),
        None => Ok(Ty::Void),
    }
}

/// The types of parameters.
fn parameter_list(
    alloc: Global,
    scopes: &Scopes<'_>,
    file: usize,
    parameters: &[Parameter],
) -> Result<Items<Ty>, Memory>
    ensures { IfOk result (λ made. made ≡ parameter_tys scopes.now file (Some parameters.now)) }
{
    let mut made = Items::new(alloc);
    for parameter in parameters {
        made.push(ty_written(alloc, scopes, file, &parameter.ty)?)?;
    }
    Ok(made)
}

/// The types of a callback's parameters.
fn parameter_tys(
    alloc: Global,
    scopes: &Scopes<'_>,
    file: usize,
    parameters: &Option<Items<Parameter>>,
) -> Result<Items<Ty>, Memory>
    ensures { IfOk result (λ made. made ≡ parameter_tys scopes.now file parameters.now) }
{
    match parameters {
        Some(parameters) => parameter_list(alloc, scopes, file, parameters.as_slice()),
        None => Ok(Items::new(alloc)),
    }
}

/// The types of a function's parameters.
fn field_tys(
    alloc: Global,
    scopes: &Scopes<'_>,
    file: usize,
    fields: &[Field],
) -> Result<Items<Ty>, Memory>
    ensures { IfOk result (λ made. made ≡ map (field_ty scopes.now file) fields.now) }
{
    let mut made = Items::new(alloc);
    for field in fields {
        made.push(ty_written(alloc, scopes, file, &field.ty)?)?;
    }
    Ok(made)
}

/// What a callback takes and gives.
fn callback_signature(
    alloc: Global,
    scopes: &Scopes<'_>,
    file: usize,
    form: &CallbackForm,
) -> Result<Signature, Memory>
    ensures { IfOk result (λ made. made ≡ callback_signature scopes.now file form.now) }
{
    match form {
        CallbackForm::Link(_) => Ok(Signature {
            parameters: Items::new(alloc),
            result: Ty::Void,
        }),
        CallbackForm::Signature(parameters, result) => {
            let parameters = parameter_tys(alloc, scopes, file, parameters)?;
            let result = ty_if_written(alloc, scopes, file, result)?;
            Ok(Signature { parameters, result })
        }
    }
}

/// What a function takes and gives.
fn function_signature(
    alloc: Global,
    scopes: &Scopes<'_>,
    file: usize,
    function: &Function,
) -> Result<Signature, Memory>
    ensures { IfOk result (λ made. made ≡ function_signature scopes.now file function.now) }
{
    let parameters = field_tys(alloc, scopes, file, function.parameters.as_slice())?;
    let result = ty_if_written(alloc, scopes, file, &function.result)?;
    Ok(Signature { parameters, result })
}

/// A declared property.
fn property_member(
    alloc: Global,
    scopes: &Scopes<'_>,
    file: usize,
    element: usize,
    property: &Property,
) -> Result<Member, Memory>
    ensures { IfOk result (λ made. made ≡ property_member scopes.now file element property.now) }
{
    let name = copy_ident(&property.name)?;
    let ty = ty_if_written(alloc, scopes, file, &property.ty)?;
    Ok(Member {
        name,
        element,
        kind: MemberKind::Property(property.mark, ty),
        span: property.span,
    })
}

/// A declared callback.
fn callback_member(
    alloc: Global,
    scopes: &Scopes<'_>,
    file: usize,
    element: usize,
    callback: &Callback,
) -> Result<Member, Memory>
    ensures { IfOk result (λ made. made ≡ callback_member scopes.now file element callback.now) }
{
    let name = copy_ident(&callback.name)?;
    let signature = callback_signature(alloc, scopes, file, &callback.form)?;
    Ok(Member {
        name,
        element,
        kind: MemberKind::Callback(callback.is_pure, signature),
        span: callback.span,
    })
}

/// The stretch of a function from its name to the end of its body.
fn function_span(function: &Function) -> Span
    ensures { result ≡ function_span function.now }
{
    Span {
        file: function.name.span.file,
        start: function.name.span.start,
        end: function.body.span.end,
    }
}

/// A declared function.
fn function_member(
    alloc: Global,
    scopes: &Scopes<'_>,
    file: usize,
    element: usize,
    function: &Function,
) -> Result<Member, Memory>
    ensures { IfOk result (λ made. made ≡ function_member scopes.now file element function.now) }
{
    let name = copy_ident(&function.name)?;
    let signature = function_signature(alloc, scopes, file, function)?;
    Ok(Member {
        name,
        element,
        kind: MemberKind::Function(function.is_pure, function.access, signature),
        span: function_span(function),
    })
}

/// The member that an item declares, if it declares one.
fn member_by(
    alloc: Global,
    scopes: &Scopes<'_>,
    file: usize,
    element: usize,
    item: &Item,
) -> Result<Option<Member>, Memory>
    ensures { IfOk result (λ made. made ≡ member_by scopes.now file element (out-Item item.now)) }
{
    match item {
        Item::Property(property) => {
            let made = property_member(alloc, scopes, file, element, property)?;
            Ok(Some(made))
        }
        Item::Callback(callback) => {
            let made = callback_member(alloc, scopes, file, element, callback)?;
            Ok(Some(made))
        }
        Item::Function(function) => {
            let made = function_member(alloc, scopes, file, element, function)?;
            Ok(Some(made))
        }
        _ => Ok(None),
    }
}

/// Puts something behind what is there, if it is something.
pub(crate) fn push_if<T: Drop>(out: &mut Items<T>, made: Option<T>) -> Result<(), Memory>
    ensures { IfOk result (λ _. out.new ≡ out.old ++ in_front made []) }
{
    match made {
        Some(made) => {
            out.push(made)?;
            Ok(())
        }
        None => Ok(()),
    }
}

/// Adds the members that are declared in the body of an element, or of a global, of which the element is 0.
pub(crate) fn push_members(
    alloc: Global,
    scopes: &Scopes<'_>,
    file: usize,
    element: usize,
    items: &[Item],
    out: &mut Items<Member>,
) -> Result<(), Memory>
    ensures { IfOk result (λ _. out.new ≡ out.old ++ body_members scopes.now file element items.now) }
{
    for item in items {
        let made = member_by(alloc, scopes, file, element, item)?;
        push_if(out, made)?;
    }
    Ok(())
}

/// The members of a component, element by element.
pub(crate) fn element_members(
    alloc: Global,
    scopes: &Scopes<'_>,
    file: usize,
    written: &[Written<'_>],
) -> Result<Items<Member>, Memory>
    ensures { IfOk result (λ made. made ≡ element_members scopes.now file 0 written.now) }
{
    let mut made = Items::new(alloc);
    for (element, one) in written.iter().enumerate() {
        push_members(alloc, scopes, file, element, one.body(), &mut made)?;
    }
    Ok(made)
}
