ghost use Rattle.std.specs.Prelude.{◌≡◌, ◌∷◌, IfOk, None, Some, length, map, replicate};
ghost use Rattle.alias_merge.specs.ChoosingSteps.{put};
ghost use Rattle.alias_merge.specs.Homes.{home_of, homes_of, is_fewer, seat_of, seats_of, sit, sit_row, with_fewest, with_first};

use crate::{InstanceKey, MemberRow};
use slint_base::Memory;
use sqlite_items::{Items, at};
use std::alloc::Global;

/// Where a class of linked members has its rows.
#[derive(Clone, Copy)]
pub struct Home {
    /// Its first member in instance order, by its number.
    pub first: usize,
    /// The element of the member with the fewest repeaters around it; none for a member of a global.
    pub element: Option<usize>,
    /// The number of those repeaters.
    pub repeaters: usize,
}

/// What the members of a class so far come to: the first of them in instance order; and of those with the fewest repeaters the first.
#[derive(Clone, Copy)]
pub(crate) struct Seat {
    pub first: usize,
    pub first_key: InstanceKey,
    pub element: Option<usize>,
    pub repeaters: usize,
    pub key: InstanceKey,
}

/// The home of each class, by its label; nothing at numbers that are no labels. The rows are those of the members by their numbers. The cost
/// is in proportion to members.
pub fn class_homes(
    alloc: Global,
    labels: &[usize],
    rows: &[MemberRow],
) -> Result<Items<Option<Home>>, Memory>
    ensures { IfOk result (λ homes. homes ≡ homes_of labels.now rows.now) }
{
    let seats = seats(alloc, labels, rows)?;
    let homes = homes_in(alloc, seats.as_slice())?;
    Ok(homes)
}

/// What the members of each class come to.
fn seats(alloc: Global, labels: &[usize], rows: &[MemberRow]) -> Result<Items<Option<Seat>>, Memory>
    ensures { IfOk result (λ seats. seats ≡ seats_of labels.now rows.now) }
{
    let mut seats = no_seats(alloc, labels.len())?;
    for (number, row) in rows.iter().enumerate() {
        let class = at(labels, number).copied();
        note_row(&mut seats, class, number, row);
    }
    Ok(seats)
}

/// So many classes without members.
fn no_seats(alloc: Global, count: usize) -> Result<Items<Option<Seat>>, Memory>
    ensures { IfOk result (λ seats. seats ≡ replicate count None) }
{
    let seats = vec![in alloc; None; count]?;
    Ok(Items::from_vec(seats))
}

/// A member counts for its class.
fn note_row(seats: &mut Items<Option<Seat>>, class: Option<usize>, number: usize, row: &MemberRow)
    ensures { seats.new ≡ put sit_row class (record { number = number; row = row.now }) seats.old }
{
    let Some(label) = class else {
        return;
    };
    let Some(seat) = at(seats.as_slice(), label).copied() else {
        return;
    };
    seats.set(label, Some(sit(seat, number, row)));
}

/// What a class comes to with one more member.
fn sit(seat: Option<Seat>, number: usize, row: &MemberRow) -> Seat
    ensures { Some result ≡ sit number row.now seat }
{
    match seat {
        Some(seat) => with_fewest(with_first(seat, number, row), row),
        None => Seat {
            first: number,
            first_key: row.key,
            element: row.element,
            repeaters: row.repeaters,
            key: row.key,
        },
    }
}

/// A member is the first one, if it stands before that of so far.
fn with_first(seat: Seat, number: usize, row: &MemberRow) -> Seat
    ensures { result ≡ with_first number row.now seat }
{
    if row.key.is_before(&seat.first_key) {
        Seat {
            first: number,
            first_key: row.key,
            ..seat
        }
    } else {
        seat
    }
}

/// A member has the fewest repeaters, if it has fewer than that of so far, or as many and stands before it.
fn with_fewest(seat: Seat, row: &MemberRow) -> Seat
    ensures { result ≡ with_fewest row.now seat }
{
    if is_fewer(&seat, row) {
        Seat {
            element: row.element,
            repeaters: row.repeaters,
            key: row.key,
            ..seat
        }
    } else {
        seat
    }
}

/// Whether a member has fewer repeaters than that of so far, or as many and stands before it.
fn is_fewer(seat: &Seat, row: &MemberRow) -> bool
    ensures { result ≡ is_fewer row.now seat.now }
{
    row.repeaters < seat.repeaters
        || (row.repeaters == seat.repeaters && row.key.is_before(&seat.key))
}

/// The home of each class.
fn homes_in(alloc: Global, seats: &[Option<Seat>]) -> Result<Items<Option<Home>>, Memory>
    ensures { IfOk result (λ homes. homes ≡ map home_of seats.now) }
{
    let mut homes = Items::new(alloc);
    for seat in seats {
        homes.push(home_of(*seat))?;
    }
    Ok(homes)
}

/// The home of a class by what its members come to.
fn home_of(seat: Option<Seat>) -> Option<Home>
    ensures { result ≡ home_of seat }
{
    match seat {
        Some(seat) => Some(Home {
            first: seat.first,
            element: seat.element,
            repeaters: seat.repeaters,
        }),
        None => None,
    }
}
