use element_tables::ElementKind;
use expanded_tree::{Expanded, ExpandedMember, Holder};
use inliner::expand;
use slint_base::{End, Name, Span};
use sqlite_items::Items;
use std::alloc::Global;
use std::test::Fail;
use syntax_tree::Ident;
use typed_tree::{
    ComponentOutline, ElementMember, ElementOutline, ElementType, MemberRef, Repeat, Slot,
    TypedComponent, TypedElement, TypedRepeat, TypedTree,
};

const RECTANGLE: ElementType = ElementType::BuiltIn(ElementKind::Rectangle);

const TEXT: ElementType = ElementType::BuiltIn(ElementKind::Text);

const EMPTY: ElementType = ElementType::BuiltIn(ElementKind::Empty);

/// An element: its type, the element around it, and whether it is repeated.
type Written = (ElementType, Option<usize>, bool);

/// A component: its elements, and the place of `@children`.
type Component<'a> = (&'a [Written], Option<Slot>);

/// A stretch whose first byte has a number.
fn span_at(start: u32) -> Span {
    Span {
        file: 0,
        start,
        end: start,
    }
}

/// The stretches of names are numbered as components are, those of words by 100 and the number of the element.
fn component(alloc: Global, number: u32, comp: &Component<'_>) -> Result<TypedComponent, Fail> {
    let mut elements = Items::new(alloc);
    let mut typed = Items::new(alloc);
    let mut word: u32 = 100;
    for (ty, parent, repeated) in comp.0 {
        let repeat = if *repeated {
            Repeat::If(span_at(word))
        } else {
            Repeat::Once
        };
        elements.push(ElementOutline {
            id: None,
            ty: *ty,
            ty_span: span_at(0),
            parent: *parent,
            repeat,
        })?;
        typed.push(TypedElement {
            repeat: TypedRepeat::Once,
            items: Items::new(alloc),
        })?;
        word = word.saturating_add(1);
    }
    let outline = ComponentOutline {
        name: Ident {
            name: Name::normal(alloc, "x")?,
            span: span_at(number),
        },
        file: 0,
        members: Items::new(alloc),
        elements,
        slot: comp.1,
    };
    Ok(TypedComponent {
        outline,
        elements: typed,
    })
}

/// A tree of components, of which the last one is the root.
fn tree(alloc: Global, comps: &[Component<'_>]) -> Result<TypedTree, Fail> {
    let mut all = Items::new(alloc);
    let mut number: u32 = 0;
    for comp in comps {
        all.push(component(alloc, number, comp)?)?;
        number = number.saturating_add(1);
    }
    Ok(TypedTree {
        comps: all,
        globals: Items::new(alloc),
        enums: Items::new(alloc),
        root: comps.len().saturating_sub(1),
    })
}

/// The elements: of each its kind, the element in which it lands, and how many repeaters are around it.
fn elements_text(alloc: Global, expanded: &Expanded<'_>) -> Result<String, Fail> {
    let mut text = String::new(alloc);
    for element in expanded.elements() {
        let kind = element.kind;
        let repeaters = element.repeaters;
        let one = match element.parent {
            Some(parent) => format!(in alloc; " {kind:?}^{parent}*{repeaters}")?,
            None => format!(in alloc; "{kind:?}*{repeaters}")?,
        };
        text.push_str(one.as_str())?;
    }
    Ok(text)
}

/// The bodies: of each its component, where it is used, its first place and its depth.
fn bodies_text(alloc: Global, expanded: &Expanded<'_>) -> Result<String, Fail> {
    let mut text = String::new(alloc);
    for body in expanded.bodies() {
        let (comp, first, depth) = (body.comp, body.first, body.depth);
        let one = match body.spot {
            Some(spot) => {
                let (around, element) = (spot.body, spot.element);
                format!(in alloc; " {comp}@{around}.{element}+{first}d{depth}")?
            }
            None => format!(in alloc; "{comp}+{first}d{depth}")?,
        };
        text.push_str(one.as_str())?;
    }
    Ok(text)
}

/// The places: of each the element of which it is a layer, and the body inside.
fn places_text(alloc: Global, expanded: &Expanded<'_>) -> Result<String, Fail> {
    let mut text = String::new(alloc);
    for place in expanded.places() {
        let (body, element, owner) = (place.body, place.element, place.expanded);
        let one = match place.inner {
            Some(inner) => format!(in alloc; " {body}.{element}={owner}>{inner}")?,
            None => format!(in alloc; " {body}.{element}={owner}")?,
        };
        text.push_str(one.as_str())?;
    }
    Ok(text)
}

/// The layers in instance order.
fn holders_text(alloc: Global, expanded: &Expanded<'_>) -> Result<String, Fail> {
    let mut text = String::new(alloc);
    for holder in expanded.holders(alloc)?.as_slice() {
        if let Holder::Element(spot) = holder {
            let (body, element) = (spot.body, spot.element);
            let one = format!(in alloc; " {body}.{element}")?;
            text.push_str(one.as_str())?;
        }
    }
    Ok(text)
}

/// The elements of the expanded tree of some components, or its fault.
fn expanded_text(alloc: Global, comps: &[Component<'_>]) -> Result<String, Fail> {
    let tree = tree(alloc, comps)?;
    match expand(alloc, &tree) {
        Ok(expanded) => elements_text(alloc, &expanded),
        Err(End::Fault(fault)) => {
            let rule = fault.rule.number();
            let start = fault.span.start;
            Ok(format!(in alloc; "{rule} at {start}")?)
        }
        Err(End::Memory) => Ok(String::from_str(alloc, "no memory")?),
    }
}

/// A use of a component.
fn used(component: usize, parent: usize) -> Written {
    (ElementType::Component(component), Some(parent), false)
}

#[test]
fn what_is_written_at_a_use_stands_behind_the_component(rt: HostRuntime) -> Result<(), Fail> {
    let alloc: Global = rt.alloc();
    let plain: [Written; 2] = [(EMPTY, None, false), (RECTANGLE, Some(0), false)];
    let main: [Written; 3] = [
        (ElementType::BuiltIn(ElementKind::Window), None, false),
        used(0, 0),
        (TEXT, Some(1), false),
    ];
    let tree = tree(alloc, &[(plain.as_slice(), None), (main.as_slice(), None)])?;
    let Ok(expanded) = expand(alloc, &tree) else {
        return Err("no tree".into());
    };
    let elements = elements_text(alloc, &expanded)?;
    assert_eq!(rt;
        elements.as_str(),
        "Window*0 Empty^0*0 Rectangle^1*0 Text^1*0"
    );
    let bodies = bodies_text(alloc, &expanded)?;
    assert_eq!(rt; bodies.as_str(), "1+0d0 0@0.1+3d1");
    let places = places_text(alloc, &expanded)?;
    assert_eq!(rt; places.as_str(), " 0.0=0 0.1=1>1 0.2=3 1.0=1 1.1=2");
    Ok(())
}

#[test]
fn bases_are_layers_of_one_element(rt: HostRuntime) -> Result<(), Fail> {
    let alloc: Global = rt.alloc();
    let lowest: [Written; 1] = [(RECTANGLE, None, false)];
    let middle: [Written; 2] = [
        (ElementType::Component(0), None, false),
        (TEXT, Some(0), false),
    ];
    let upper: [Written; 2] = [
        (ElementType::Component(1), None, false),
        (EMPTY, Some(0), false),
    ];
    let main: [Written; 4] = [
        (ElementType::BuiltIn(ElementKind::Window), None, false),
        used(2, 0),
        (TEXT, Some(1), false),
        used(1, 0),
    ];
    let comps: [Component<'_>; 4] = [
        (lowest.as_slice(), None),
        (middle.as_slice(), None),
        (upper.as_slice(), None),
        (main.as_slice(), None),
    ];
    let tree = tree(alloc, comps.as_slice())?;
    let Ok(expanded) = expand(alloc, &tree) else {
        return Err("no tree".into());
    };
    let elements = elements_text(alloc, &expanded)?;
    assert_eq!(rt;
        elements.as_str(),
        "Window*0 Rectangle^0*0 Text^1*0 Empty^1*0 Text^1*0 Rectangle^0*0 Text^5*0"
    );
    let bodies = bodies_text(alloc, &expanded)?;
    assert_eq!(rt;
        bodies.as_str(),
        "3+0d0 2@0.1+4d1 1@1.0+6d2 0@2.0+8d3 1@0.3+9d1 0@4.0+11d2"
    );
    let places = places_text(alloc, &expanded)?;
    assert_eq!(rt;
        places.as_str(),
        " 0.0=0 0.1=1>1 0.2=4 0.3=5>4 1.0=1>2 1.1=3 2.0=1>3 2.1=2 3.0=1 4.0=5>5 4.1=6 5.0=5"
    );
    let holders = holders_text(alloc, &expanded)?;
    assert_eq!(rt;
        holders.as_str(),
        " 0.0 3.0 2.0 1.0 0.1 2.1 1.1 0.2 5.0 4.0 0.3 4.1"
    );
    let member = MemberRef::Element(1, ElementMember::Declared(0, 7));
    assert!(rt;
        matches!(
            expanded.member_at(0, member),
            ExpandedMember::Declared(3, 7)
        )
    );
    let member = MemberRef::Element(3, ElementMember::Declared(0, 7));
    assert!(rt;
        matches!(
            expanded.member_at(0, member),
            ExpandedMember::Declared(5, 7)
        )
    );
    let member = MemberRef::Element(0, ElementMember::Declared(1, 2));
    assert!(rt;
        matches!(
            expanded.member_at(1, member),
            ExpandedMember::Declared(2, 2)
        )
    );
    let member = MemberRef::Element(0, ElementMember::Declared(1, 2));
    assert!(rt;
        matches!(
            expanded.member_at(4, member),
            ExpandedMember::Declared(4, 2)
        )
    );
    let member = MemberRef::Element(0, ElementMember::BuiltIn(9));
    assert!(rt; matches!(expanded.member_at(2, member), ExpandedMember::BuiltIn(1, 9)));
    Ok(())
}

#[test]
fn children_stand_where_a_component_places_them(rt: HostRuntime) -> Result<(), Fail> {
    let alloc: Global = rt.alloc();
    let slot = |element: usize, before: usize| Some(Slot { element, before });
    let image = ElementType::BuiltIn(ElementKind::Image);
    // `@children` in a Rectangle, between an Image and a Text
    let placing: [Written; 4] = [
        (EMPTY, None, false),
        (RECTANGLE, Some(0), false),
        (image, Some(1), false),
        (TEXT, Some(1), false),
    ];
    // a component that inherits it, with an Image of its own
    let heir: [Written; 2] = [
        (ElementType::Component(0), None, false),
        (image, Some(0), false),
    ];
    // one that hands its children on to it
    let handing: [Written; 2] = [(EMPTY, None, false), used(0, 0)];
    let main: [Written; 3] = [(EMPTY, None, false), used(1, 0), (RECTANGLE, Some(1), true)];
    let told = expanded_text(
        alloc,
        &[
            (placing.as_slice(), slot(1, 1)),
            (heir.as_slice(), None),
            (main.as_slice(), None),
        ],
    )?;
    assert_eq!(rt;
        told.as_str(),
        "Empty*0 Empty^0*0 Rectangle^1*0 Image^2*0 Image^2*0 Rectangle^2*1 Text^2*0"
    );
    let told = expanded_text(
        alloc,
        &[
            (placing.as_slice(), slot(1, 1)),
            (handing.as_slice(), slot(1, 0)),
            (main.as_slice(), None),
        ],
    )?;
    assert_eq!(rt;
        told.as_str(),
        "Empty*0 Empty^0*0 Empty^1*0 Rectangle^2*0 Image^3*0 Rectangle^3*1 Text^3*0"
    );
    let heir_at_root: [Written; 2] = [
        (ElementType::Component(0), None, false),
        (TEXT, Some(0), false),
    ];
    let told = expanded_text(
        alloc,
        &[
            (placing.as_slice(), slot(0, 0)),
            (heir_at_root.as_slice(), None),
        ],
    )?;
    assert_eq!(rt;
        told.as_str(),
        "Empty*0 Text^0*0 Rectangle^0*0 Image^2*0 Text^2*0"
    );
    Ok(())
}

#[test]
fn components_that_double_are_too_many(rt: HostRuntime) -> Result<(), Fail> {
    let alloc: Global = rt.alloc();
    for (count, want) in [(12, 17), (13, 70), (60, 70)] {
        let lowest: [Written; 1] = [(EMPTY, None, false)];
        let mut all = Items::new(alloc);
        all.push(component(alloc, 7, &(lowest.as_slice(), None))?)?;
        for number in 1..count {
            let one: [Written; 3] = [
                (EMPTY, None, false),
                used(number - 1, 0),
                used(number - 1, 0),
            ];
            all.push(component(alloc, 7, &(one.as_slice(), None))?)?;
        }
        let tree = TypedTree {
            comps: all,
            globals: Items::new(alloc),
            enums: Items::new(alloc),
            root: count - 1,
        };
        match expand(alloc, &tree) {
            Ok(expanded) => {
                assert_eq!(rt; want, 17);
                assert_eq!(rt; expanded.elements().len(), 4095);
            }
            Err(End::Fault(fault)) => {
                assert_eq!(rt; (fault.rule.number() as usize, fault.span.start), (want, 7));
            }
            Err(End::Memory) => return Err("no memory".into()),
        }
    }
    Ok(())
}

#[test]
fn a_fourth_repeater_is_one_too_many(rt: HostRuntime) -> Result<(), Fail> {
    let alloc: Global = rt.alloc();
    let three: [Written; 4] = [
        (EMPTY, None, false),
        (EMPTY, Some(0), true),
        (EMPTY, Some(1), true),
        (EMPTY, Some(2), true),
    ];
    let four: [Written; 5] = [
        (EMPTY, None, false),
        (EMPTY, Some(0), true),
        (EMPTY, Some(1), true),
        (EMPTY, Some(2), true),
        (TEXT, Some(3), true),
    ];
    let one: [Written; 2] = [(EMPTY, None, false), (TEXT, Some(0), true)];
    let using: [Written; 5] = [
        (EMPTY, None, false),
        (EMPTY, Some(0), true),
        (EMPTY, Some(1), true),
        (ElementType::Component(0), Some(2), true),
        (TEXT, Some(0), true),
    ];
    for (root, want) in [
        (three.as_slice(), "Empty*0 Empty^0*1 Empty^1*2 Empty^2*3"),
        (four.as_slice(), "71 at 104"),
        (using.as_slice(), "71 at 101"),
    ] {
        let told = expanded_text(alloc, &[(one.as_slice(), None), (root, None)])?;
        assert_eq!(rt; told.as_str(), want);
    }
    Ok(())
}

#[test]
fn what_contains_itself_has_no_end(rt: HostRuntime) -> Result<(), Fail> {
    let alloc: Global = rt.alloc();
    let one: [Written; 2] = [(EMPTY, None, false), used(1, 0)];
    let other: [Written; 2] = [(EMPTY, None, false), used(0, 0)];
    let plain: [Written; 2] = [(EMPTY, None, false), (TEXT, Some(0), false)];
    let told = expanded_text(alloc, &[(one.as_slice(), None), (other.as_slice(), None)])?;
    assert_eq!(rt; told.as_str(), "70 at 1");
    let told = expanded_text(
        alloc,
        &[
            (one.as_slice(), None),
            (other.as_slice(), None),
            (plain.as_slice(), None),
        ],
    )?;
    assert_eq!(rt; told.as_str(), "Empty*0 Text^0*0");
    Ok(())
}
