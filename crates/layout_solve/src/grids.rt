ghost use Rattle.std.specs.Prelude.{◌≡◌, ℕ, ◌<◌, ◌≤◌, ◌^◌, neg_ℤ, pos, ◌≤ℤ◌, ◌+ℤ◌, ◌-ℤ◌, ◌*ℤ◌, ◌+◌, ◌-◌, ◌&&◌, nat_le, nat_lt, if◌then◌else◌, replicate, length, map, slice_index_or, All};
ghost use Rattle.std.specs.List.{fold, list_any, range_with_len};
ghost use Rattle.layout_solve.specs.Items.{IsItem, IsWithinLimits};
ghost use Rattle.layout_solve.specs.Sizes.{total, size_at};
ghost use Rattle.layout_solve.specs.Tracks.{IsCell, empty_track, loose_track, least_track, greatest_item, is_alone, reaches, items_alone, first_track, lacking, raised_track, widened, tracks_of};

use crate::levels::total;
use crate::places::saturated;
use crate::{Cell, Item, Sizing};
use slint_base::LIM;

/// A track that no cell reaches.
const EMPTY: Item = Item {
    min: 0,
    pref: 0,
    max: 0,
    weight: 0,
};

/// A track that only spanning cells reach.
const LOOSE: Item = Item {
    min: 0,
    pref: 0,
    max: LIM,
    weight: 1,
};

/// The item of which each number is the least.
const LEAST: Item = Item {
    min: -LIM,
    pref: -LIM,
    max: -LIM,
    weight: 0,
};

/// The greatest of each number.
fn greatest(a: &Item, b: &Item) -> Item
    requires a { IsItem a.now }
    requires b { IsItem b.now }
    ensures { result ≡ greatest_item a.now b.now }
{
    Item {
        min: a.min.max(b.min),
        pref: a.pref.max(b.pref),
        max: a.max.max(b.max),
        weight: a.weight.max(b.weight),
    }
}

/// Makes each track empty.
fn clear(tracks: &mut [Item])
    ensures length { length tracks.new ≡ length tracks.old }
    ensures empty { (t : ℕ) → slice_index_or tracks.new t empty_track ≡ empty_track }
{
    for track in tracks.iter_mut() {
        *track = EMPTY;
    }
}

/// Makes the tracks from `first` to before `end` loose.
fn loosen(tracks: &mut [Item], first: usize, end: usize)
    requires order { first ≤ end }
    requires inside { end ≤ length tracks.old }
    ensures length { length tracks.new ≡ length tracks.old }
    ensures loose { (t : ℕ) → slice_index_or tracks.new t empty_track
        ≡ (if nat_le first t && nat_lt t end then loose_track else slice_index_or tracks.old t empty_track) }
{
    for track in first..end {
        tracks[track] = LOOSE;
    }
}

/// Makes each track loose that a spanning cell reaches.
fn loosen_reached(cells: &[Cell], tracks: &mut [Item])
    requires { All (IsCell (length tracks.old)) cells.now }
    ensures length { length tracks.new ≡ length tracks.old }
    ensures loose { (t : ℕ) → slice_index_or tracks.new t empty_track
        ≡ (if list_any (reaches t) cells.now then loose_track else slice_index_or tracks.old t empty_track) }
{
    for cell in cells {
        if cell.span > 1 {
            let first = cell.first as usize;
            loosen(tracks, first, first + cell.span as usize);
        }
    }
}

/// Makes each track the least one in which a cell stands alone.
fn begin_alone(cells: &[Cell], tracks: &mut [Item])
    requires { All (IsCell (length tracks.old)) cells.now }
    ensures length { length tracks.new ≡ length tracks.old }
    ensures least { (t : ℕ) → slice_index_or tracks.new t empty_track
        ≡ (if list_any (is_alone t) cells.now then least_track else slice_index_or tracks.old t empty_track) }
{
    for cell in cells {
        if cell.span == 1 {
            tracks[cell.first as usize] = LEAST;
        }
    }
}

/// Raises each track to the greatest of itself and of the cells that stand in it alone.
fn raise_alone(cells: &[Cell], tracks: &mut [Item])
    requires cells { All (IsCell (length tracks.old)) cells.now }
    requires tracks { All IsItem tracks.old }
    ensures length { length tracks.new ≡ length tracks.old }
    ensures raised { (t : ℕ) → slice_index_or tracks.new t empty_track
        ≡ fold greatest_item (slice_index_or tracks.old t empty_track) (items_alone t cells.now) }
    ensures items { All IsItem tracks.new }
{
    for cell in cells {
        if cell.span == 1 {
            let track = cell.first as usize;
            tracks[track] = greatest(&tracks[track], &cell.item);
        }
    }
}

/// Writes the tracks before spanning cells get what they lack.
fn begin_tracks(cells: &[Cell], tracks: &mut [Item])
    requires { All (IsCell (length tracks.old)) cells.now }
    ensures tracks { tracks.new ≡ map (first_track cells.now) (range_with_len 0 (length tracks.old)) }
    ensures items { All IsItem tracks.new }
{
    clear(tracks);
    loosen_reached(cells, tracks);
    begin_alone(cells, tracks);
    raise_alone(cells, tracks);
}

/// The spacings between so many tracks.
fn spacings(span: u32, spacing: i64) -> i128
    requires span { 1 ≤ span }
    requires spacing { IsWithinLimits spacing }
    ensures value { result ≡ pos (span - 1) *ℤ spacing }
    ensures low { neg_ℤ (pos (2 ^ 86)) ≤ℤ result }
    ensures high { result ≤ℤ pos (2 ^ 86) }
{
    i128::from(span - 1) * i128::from(spacing)
}

/// What a size lacks: by so much the sizes of the tracks and the spacings between them are less.
fn lacking(wanted: i64, tracks: &[Item], sizing: Sizing, spacings: i128) -> i128
    requires wanted { IsWithinLimits wanted }
    requires tracks { All IsItem tracks.now }
    requires low { neg_ℤ (pos (2 ^ 86)) ≤ℤ spacings }
    requires high { spacings ≤ℤ pos (2 ^ 86) }
    ensures value { result ≡ lacking wanted (map (size_at sizing) tracks.now) spacings }
    ensures some { pos 0 ≤ℤ result }
    ensures small { result ≤ℤ pos (2 ^ 119) }
{
    (i128::from(wanted) - (total(tracks, sizing) + spacings)).max(0)
}

/// A track that gets more least and preferred size. Its greatest size is raised to the least, and its preferred one brought between.
fn raised(track: &Item, more_min: i128, more_pref: i128) -> Item
    requires track { IsItem track.now }
    requires some_min { pos 0 ≤ℤ more_min }
    requires small_min { more_min ≤ℤ pos (2 ^ 119) }
    requires some_pref { pos 0 ≤ℤ more_pref }
    requires small_pref { more_pref ≤ℤ pos (2 ^ 119) }
    ensures raised { result ≡ raised_track more_min more_pref track.now }
    ensures item { IsItem result }
{
    let min = saturated(i128::from(track.min) + more_min);
    let pref = saturated(i128::from(track.pref) + more_pref);
    let max = track.max.max(min);
    Item {
        min,
        pref: pref.max(min).min(max),
        max,
        weight: track.weight,
    }
}

/// Adds to the last track of a spanning cell what the least and the preferred size of the cell lack.
fn widen(cell: &Cell, spacing: i64, tracks: &mut [Item])
    requires cell { IsCell (length tracks.old) cell.now }
    requires several { 1 < cell.now.span }
    requires spacing { IsWithinLimits spacing }
    requires tracks { All IsItem tracks.old }
    ensures length { length tracks.new ≡ length tracks.old }
    ensures widened { tracks.new ≡ widened spacing tracks.old cell.now }
    ensures items { All IsItem tracks.new }
{
    let first = cell.first as usize;
    let end = first + cell.span as usize;
    let between = spacings(cell.span, spacing);
    let own = &tracks[first..end];
    let more_min = lacking(cell.item.min, own, Sizing::Least, between);
    let more_pref = lacking(cell.item.pref, own, Sizing::Preferred, between);
    tracks[end - 1] = raised(&tracks[end - 1], more_min, more_pref);
}

/// Writes the tracks of a grid along an axis, from the cells in text order. A track has the greatest least, preferred and greatest
/// size and the greatest weight of the cells that stand in it alone. A track that only spanning cells reach can have any size, from
/// 0 on, with the weight 1; one without cells has size 0. Then, cell by cell, what the least and the preferred size of a spanning
/// cell lack, the spacings between its tracks counted, is added to its last track, whose greatest size is then raised to the least
/// one and whose preferred one is brought between them. Sums are exact, and each size is brought into the limits. What `tracks`
/// held before is overwritten.
pub fn grid_tracks(cells: &[Cell], spacing: i64, tracks: &mut [Item])
    requires few { length tracks.old < 2 ^ 32 }
    requires cells { All (IsCell (length tracks.old)) cells.now }
    requires spacing { IsWithinLimits spacing }
    ensures tracks { tracks.new ≡ tracks_of cells.now spacing (length tracks.old) }
    ensures items { All IsItem tracks.new }
{
    begin_tracks(cells, tracks);
    for cell in cells {
        if cell.span > 1 {
            widen(cell, spacing, tracks);
        }
    }
}
