use alias_merge::{Candidate, Change, Home, StateList, changed_by, choose, first_change_fault};
use expanded_tree::Holder;
use finite_graphs::Graph;
use slint_base::{Memory, Span};
use sqlite_items::Items;
use std::alloc::Global;
use std::test::Fail;

/// A place of a text.
fn place(start: u32) -> Span {
    Span {
        file: 0,
        start,
        end: start,
    }
}

/// A candidate by its member, depth, place and repeaters.
fn candidate(member: usize, depth: usize, start: u32, repeaters: usize) -> Candidate {
    Candidate {
        member,
        holder: Holder::Global(0),
        item: 0,
        depth,
        span: place(start),
        repeaters,
    }
}

/// Where the choice for the class with label 0 stands, of two members with a link from the first to the second.
fn choice_of_two(alloc: Global, candidates: &[Candidate]) -> Result<Option<u32>, Memory> {
    let mut links = Graph::new(alloc, 2);
    links.push(0, 1)?;
    let homes = [
        Some(Home {
            first: 0,
            element: None,
            repeaters: 0,
        }),
        None,
    ];
    let chosen = choose(
        alloc,
        &links,
        [0, 0].as_slice(),
        homes.as_slice(),
        candidates,
    )?;
    Ok(start_at(chosen.as_slice(), 0))
}

/// Where a choice stands in the text.
fn start_at(chosen: &[Option<Candidate>], label: usize) -> Option<u32> {
    match chosen.get(label) {
        Some(choice) => match choice {
            Some(candidate) => Some(candidate.span.start),
            None => None,
        },
        None => None,
    }
}

#[test]
fn the_least_depth_is_chosen(rt: HostRuntime) -> Result<(), Fail> {
    let inner = candidate(1, 2, 50, 0);
    assert_eq!(rt; choice_of_two(rt.alloc(), [inner].as_slice())?, Some(50));
    let both = [candidate(0, 1, 90, 0), inner];
    assert_eq!(rt; choice_of_two(rt.alloc(), both.as_slice())?, Some(90));
    assert_eq!(rt; choice_of_two(rt.alloc(), [].as_slice())?, None);
    Ok(())
}

#[test]
fn the_right_side_of_a_link_wins(rt: HostRuntime) -> Result<(), Fail> {
    let both = [candidate(0, 0, 10, 0), candidate(1, 0, 20, 0)];
    assert_eq!(rt; choice_of_two(rt.alloc(), both.as_slice())?, Some(20));
    let twice = [candidate(1, 0, 30, 0), candidate(1, 0, 20, 0)];
    assert_eq!(rt; choice_of_two(rt.alloc(), twice.as_slice())?, Some(20));
    let repeated = [candidate(1, 0, 10, 1), candidate(0, 0, 40, 0)];
    assert_eq!(rt; choice_of_two(rt.alloc(), repeated.as_slice())?, Some(40));
    Ok(())
}

/// A change of the only member, by its list, state and place.
fn change(list: usize, state: usize, start: u32) -> Change {
    Change {
        list,
        state,
        change: 0,
        member: 0,
        path: place(start),
    }
}

/// Where the first fault of changes stands, of which the last list is in a repeater.
fn fault_start(alloc: Global, changes: &[Change]) -> Result<Option<u32>, Memory> {
    let home = Some(Home {
        first: 0,
        element: None,
        repeaters: 0,
    });
    let list = StateList {
        holder: Holder::Global(0),
        item: 0,
        word: place(0),
        repeaters: 0,
    };
    let repeated = StateList {
        holder: Holder::Global(0),
        item: 1,
        word: place(0),
        repeaters: 1,
    };
    let fault = first_change_fault(
        alloc,
        [0].as_slice(),
        [home].as_slice(),
        [list, list, repeated].as_slice(),
        changes,
    )?;
    match fault {
        Some(fault) => Ok(Some(fault.span.start)),
        None => Ok(None),
    }
}

#[test]
fn a_class_is_changed_by_one_list(rt: HostRuntime) -> Result<(), Fail> {
    let states = [change(0, 0, 10), change(0, 1, 20)];
    assert_eq!(rt; fault_start(rt.alloc(), states.as_slice())?, None);
    let twice = [change(0, 0, 10), change(0, 0, 20)];
    assert_eq!(rt; fault_start(rt.alloc(), twice.as_slice())?, Some(20));
    let lists = [change(0, 0, 10), change(1, 0, 5)];
    assert_eq!(rt; fault_start(rt.alloc(), lists.as_slice())?, Some(5));
    let repeated = [change(2, 0, 7)];
    assert_eq!(rt; fault_start(rt.alloc(), repeated.as_slice())?, Some(7));
    Ok(())
}

#[test]
fn the_first_list_changes_a_class(rt: HostRuntime) -> Result<(), Fail> {
    let changes = [change(1, 0, 10), change(2, 0, 20)];
    let lists: Items<Option<usize>> = changed_by(rt.alloc(), [0].as_slice(), changes.as_slice())?;
    assert_eq!(rt; lists.as_slice(), [Some(1)].as_slice());
    Ok(())
}
