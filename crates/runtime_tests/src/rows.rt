use row_models::{RowEnd, Rows};
use slint_base::Memory;
use sqlite_items::Items;
use std::alloc::Global;
use std::test::Fail;
use value_types::{Value, Values};

/// The first fresh key.
const FIRST: u64 = 4_294_967_296;

/// No test draws a key past this one.
const LAST: u64 = 4_294_977_296;

/// An edit of rows whose items are ints.
#[derive(Clone, Copy, Debug)]
enum Edit {
    Insert(u32, i32),
    Remove(u32),
    Set(u32, i32),
    Reset(&'static [i32]),
    Replace(&'static [i32]),
}

/// What stands behind an edit: why it is refused, or none; the items, the keys, the next fresh key, and the keys that are gone by it.
struct Outcome {
    end: Option<RowEnd>,
    items: &'static [i32],
    keys: &'static [u64],
    next: u64,
    gone: &'static [u64],
}

/// Edits one after the other, of rows with the items 10 and 20 at first, and what stands behind each.
static EDITS: [(Edit, Outcome); 14] = [
    (
        Edit::Insert(0, 30),
        Outcome {
            end: None,
            items: &[30, 10, 20],
            keys: &[4_294_967_296, 0, 1],
            next: 4_294_967_297,
            gone: &[],
        },
    ),
    (
        Edit::Insert(4, 40),
        Outcome {
            end: Some(RowEnd::NoRow),
            items: &[30, 10, 20],
            keys: &[4_294_967_296, 0, 1],
            next: 4_294_967_297,
            gone: &[],
        },
    ),
    (
        Edit::Insert(3, 40),
        Outcome {
            end: None,
            items: &[30, 10, 20, 40],
            keys: &[4_294_967_296, 0, 1, 4_294_967_297],
            next: 4_294_967_298,
            gone: &[],
        },
    ),
    (
        Edit::Remove(1),
        Outcome {
            end: None,
            items: &[30, 20, 40],
            keys: &[4_294_967_296, 1, 4_294_967_297],
            next: 4_294_967_298,
            gone: &[0],
        },
    ),
    (
        Edit::Remove(3),
        Outcome {
            end: Some(RowEnd::NoRow),
            items: &[30, 20, 40],
            keys: &[4_294_967_296, 1, 4_294_967_297],
            next: 4_294_967_298,
            gone: &[],
        },
    ),
    (
        Edit::Set(1, 50),
        Outcome {
            end: None,
            items: &[30, 50, 40],
            keys: &[4_294_967_296, 1, 4_294_967_297],
            next: 4_294_967_298,
            gone: &[],
        },
    ),
    (
        Edit::Set(3, 60),
        Outcome {
            end: Some(RowEnd::NoRow),
            items: &[30, 50, 40],
            keys: &[4_294_967_296, 1, 4_294_967_297],
            next: 4_294_967_298,
            gone: &[],
        },
    ),
    (
        Edit::Reset(&[30, 50, 40]),
        Outcome {
            end: None,
            items: &[30, 50, 40],
            keys: &[4_294_967_296, 1, 4_294_967_297],
            next: 4_294_967_298,
            gone: &[],
        },
    ),
    (
        Edit::Insert(1, 70),
        Outcome {
            end: None,
            items: &[30, 70, 50, 40],
            keys: &[4_294_967_296, 4_294_967_298, 1, 4_294_967_297],
            next: 4_294_967_299,
            gone: &[],
        },
    ),
    (
        Edit::Remove(0),
        Outcome {
            end: None,
            items: &[70, 50, 40],
            keys: &[4_294_967_298, 1, 4_294_967_297],
            next: 4_294_967_299,
            gone: &[4_294_967_296],
        },
    ),
    (
        Edit::Reset(&[50, 70]),
        Outcome {
            end: None,
            items: &[50, 70],
            keys: &[4_294_967_299, 4_294_967_300],
            next: 4_294_967_301,
            gone: &[4_294_967_298, 1, 4_294_967_297],
        },
    ),
    (
        Edit::Replace(&[50, 70]),
        Outcome {
            end: None,
            items: &[50, 70],
            keys: &[4_294_967_299, 4_294_967_300],
            next: 4_294_967_301,
            gone: &[],
        },
    ),
    (
        Edit::Replace(&[]),
        Outcome {
            end: None,
            items: &[],
            keys: &[],
            next: 4_294_967_301,
            gone: &[4_294_967_299, 4_294_967_300],
        },
    ),
    (
        Edit::Remove(0),
        Outcome {
            end: Some(RowEnd::NoRow),
            items: &[],
            keys: &[],
            next: 4_294_967_301,
            gone: &[],
        },
    ),
];

/// Edits one after the other, of rows with the items 10 and 20 at first: why each is refused, or none, how many rows there are
/// behind it, and the next fresh key.
static LARGE_EDITS: [(Edit, Option<RowEnd>, usize, u64); 8] = [
    (
        Edit::Reset(&[7; 1001]),
        Some(RowEnd::TooManyRows),
        2,
        4_294_967_296,
    ),
    (Edit::Replace(&[7; 1001]), None, 1001, 4_294_968_297),
    (
        Edit::Insert(0, 1),
        Some(RowEnd::TooManyRows),
        1001,
        4_294_968_297,
    ),
    (
        Edit::Insert(1002, 1),
        Some(RowEnd::NoRow),
        1001,
        4_294_968_297,
    ),
    (Edit::Remove(1000), None, 1000, 4_294_968_297),
    (
        Edit::Insert(1000, 1),
        Some(RowEnd::TooManyRows),
        1000,
        4_294_968_297,
    ),
    (Edit::Remove(0), None, 999, 4_294_968_297),
    (Edit::Insert(999, 1), None, 1000, 4_294_968_298),
];

/// Ints as values.
fn values_of(alloc: Global, numbers: &[i32]) -> Result<Values, Memory> {
    let mut values = Items::new(alloc);
    for number in numbers {
        values.push(Value::Int(*number))?;
    }
    Ok(values)
}

/// Values that are ints.
fn numbers_of(alloc: Global, values: &[Value]) -> Result<Vec<i32>, Memory> {
    let mut numbers = Vec::new(alloc);
    for value in values {
        let Value::Int(number) = value else {
            return Err(Memory);
        };
        numbers.push(*number)?;
    }
    Ok(numbers)
}

/// How an insert ends.
fn inserted(rows: &mut Rows, next: &mut u64, i: u32, number: i32) -> Option<RowEnd> {
    if *next >= LAST {
        return Some(RowEnd::Memory);
    }
    rows.insert(next, i, Value::Int(number)).err()
}

/// How a reset ends.
fn is_reset(rows: &mut Rows, next: &mut u64, items: Values) -> Option<RowEnd> {
    if *next >= LAST || items.len() > 10_000 {
        return Some(RowEnd::Memory);
    }
    rows.reset(next, items).err()
}

/// How a replacement ends.
fn is_replaced(rows: &mut Rows, next: &mut u64, items: Values) -> Option<RowEnd> {
    if *next >= LAST || items.len() > 10_000 {
        return Some(RowEnd::Memory);
    }
    match rows.replace(next, items) {
        Ok(()) => None,
        Err(Memory) => Some(RowEnd::Memory),
    }
}

/// How an edit ends.
fn edited(
    alloc: Global,
    rows: &mut Rows,
    next: &mut u64,
    edit: Edit,
) -> Result<Option<RowEnd>, Memory> {
    match edit {
        Edit::Insert(i, number) => Ok(inserted(rows, next, i, number)),
        Edit::Remove(i) => match rows.remove(i) {
            Ok(_) => Ok(None),
            Err(_) => Ok(Some(RowEnd::NoRow)),
        },
        Edit::Set(i, number) => match rows.set_row(i, Value::Int(number)) {
            Ok(_) => Ok(None),
            Err(_) => Ok(Some(RowEnd::NoRow)),
        },
        Edit::Reset(numbers) => Ok(is_reset(rows, next, values_of(alloc, numbers)?)),
        Edit::Replace(numbers) => Ok(is_replaced(rows, next, values_of(alloc, numbers)?)),
    }
}

#[test]
fn rows_keep_their_keys(rt: HostRuntime) -> Result<(), Fail> {
    let alloc = rt.alloc();
    let mut rows = Rows::by_place(alloc, values_of(alloc, &[10, 20])?)?;
    let mut next = FIRST;
    assert_eq!(rt; rows.keys(), [0, 1].as_slice());
    for (edit, wanted) in &EDITS {
        let old = Vec::from_slice(alloc, rows.keys())?;
        assert_eq!(rt;
            edited(alloc, &mut rows, &mut next, *edit)?,
            wanted.end,
            "{edit:?}"
        );
        assert_eq!(rt;
            numbers_of(alloc, rows.items())?.as_slice(),
            wanted.items,
            "{edit:?}"
        );
        assert_eq!(rt; rows.keys(), wanted.keys, "{edit:?}");
        assert_eq!(rt; next, wanted.next, "{edit:?}");
        assert_eq!(rt; rows.gone(&old)?.as_slice(), wanted.gone, "{edit:?}");
    }
    Ok(())
}

#[test]
fn large_arrays_are_given_by_code_alone(rt: HostRuntime) -> Result<(), Fail> {
    let alloc = rt.alloc();
    let mut rows = Rows::by_place(alloc, values_of(alloc, &[10, 20])?)?;
    let mut next = FIRST;
    for (edit, end, count, after) in LARGE_EDITS {
        assert_eq!(rt;
            edited(alloc, &mut rows, &mut next, edit)?,
            end,
            "{end:?} of {count}"
        );
        assert_eq!(rt; rows.items().len(), count);
        assert_eq!(rt; rows.keys().len(), count);
        assert_eq!(rt; next, after);
    }
    assert_eq!(rt; rows.gone(&[0, 1])?.as_slice(), [0, 1].as_slice());
    Ok(())
}
