use crate::{Evaluator, Factor, FirstFile, FirstProp, resolve};
use slint_base::{Memory, Name};
use sqlite_items::Items;
use std::alloc::Global;
use std::test::Fail;

fn factor(alloc: Global, text: &str) -> Result<Factor, Memory> {
    match text.parse::<i32>() {
        Ok(number) => Ok(Factor::Lit(number)),
        Err(_) => Ok(Factor::Named(Name::normal(alloc, text)?)),
    }
}

fn term(alloc: Global, text: &str) -> Result<Items<Factor>, Memory> {
    let mut factors = Items::new(alloc);
    for part in text.split('*') {
        factors.push(factor(alloc, part)?)?;
    }
    Ok(factors)
}

fn prop(alloc: Global, name: &str, sum: &str) -> Result<FirstProp, Memory> {
    let mut terms = Items::new(alloc);
    for part in sum.split('+') {
        terms.push(term(alloc, part)?)?;
    }
    Ok(FirstProp {
        name: Name::normal(alloc, name)?,
        terms,
    })
}

/// The tree of bindings as `a=2;b=a*3`.
fn file(alloc: Global, text: &str) -> Result<FirstFile, Memory> {
    let mut props = Items::new(alloc);
    for binding in text.split(';') {
        if let Some((name, sum)) = binding.split_once('=') {
            props.push(prop(alloc, name, sum)?)?;
        }
    }
    Ok(FirstFile { props })
}

fn opened(alloc: Global, text: &str) -> Result<Evaluator, Fail> {
    let component = resolve(alloc, file(alloc, text)?)?.ok_or("unsound")?;
    Ok(Evaluator::new(alloc, component)?)
}

fn value_of(alloc: Global, evaluator: &mut Evaluator, name: &str) -> Result<i32, Fail> {
    let place = evaluator
        .place_of(&Name::normal(alloc, name)?)
        .ok_or("no property")?;
    Ok(evaluator.value(place))
}

fn set(alloc: Global, evaluator: &mut Evaluator, name: &str, value: i32) -> Result<(), Fail> {
    let place = evaluator
        .place_of(&Name::normal(alloc, name)?)
        .ok_or("no property")?;
    evaluator.assign(place, value);
    Ok(())
}

#[test]
fn an_assignment_replaces_the_binding(rt: HostRuntime) -> Result<(), Fail> {
    let alloc = rt.alloc();
    let mut live = opened(alloc, "a=2;b=a*3")?;
    assert_eq!(rt; value_of(alloc, &mut live, "b")?, 6);
    set(alloc, &mut live, "a", 5)?;
    assert_eq!(rt; value_of(alloc, &mut live, "b")?, 15);
    set(alloc, &mut live, "b", 100)?;
    set(alloc, &mut live, "a", 7)?;
    assert_eq!(rt; value_of(alloc, &mut live, "b")?, 100);
    assert_eq!(rt; value_of(alloc, &mut live, "a")?, 7);
    assert!(rt; live.place_of(&Name::normal(alloc, "c")?).is_none());
    Ok(())
}

#[test]
fn a_doubling_chain_saturates(rt: HostRuntime) -> Result<(), Fail> {
    let alloc = rt.alloc();
    let mut text = String::from_str(alloc, "p0=1")?;
    for k in 0..39u32 {
        let next = k + 1;
        text.push_str(format!(in alloc; ";p{next}=p{k}+p{k}")?.as_str())?;
    }
    let mut live = opened(alloc, text.as_str())?;
    assert_eq!(rt; value_of(alloc, &mut live, "p30")?, 1_073_741_824);
    assert_eq!(rt; value_of(alloc, &mut live, "p39")?, 2_147_483_647);
    Ok(())
}

#[test]
fn bindings_are_refused(rt: HostRuntime) -> Result<(), Fail> {
    let alloc = rt.alloc();
    let cases = [
        ("a=2147483647;b_c=a;d=b-c", true),
        ("a=b;b=1", false),
        ("a=a", false),
        ("a-b=1;a_b=2", false),
        ("root=1;b=root", false),
        ("root=1;b=2", true),
        ("a=1;b=a*1+c", false),
    ];
    for (text, accepted) in cases {
        let found = resolve(alloc, file(alloc, text)?)?;
        assert_eq!(rt; found.is_some(), accepted, "{text}");
    }
    Ok(())
}
