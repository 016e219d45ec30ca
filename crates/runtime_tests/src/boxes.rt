ghost use Rattle.std.specs.Prelude.{◌≡◌, ◌≤◌, All, IsTrue};
ghost use Rattle.std.specs.Bool.{OnTrue};
ghost use Rattle.layout_solve.specs.Items.{IsItem, IsWithinLimits};

use layout_solve::{Align, Item, place, solve_box};
use slint_base::{LIM, Memory};
use std::alloc::Global;

/// An item's least, preferred and greatest size, and its weight.
pub type Numbers = (i64, i64, i64, i64);

/// The item with these numbers.
pub fn item_of(numbers: &Numbers) -> Item {
    Item {
        min: numbers.0,
        pref: numbers.1,
        max: numbers.2,
        weight: numbers.3,
    }
}

/// The items with these numbers.
pub fn items_of(alloc: Global, numbers: &[Numbers]) -> Result<Vec<Item>, Memory> {
    let mut items = Vec::new(alloc);
    for n in numbers {
        items.push(item_of(n))?;
    }
    Ok(items)
}

/// Whether a number is within the limits.
pub fn is_within(z: &i64) -> bool
    ensures { OnTrue result (IsWithinLimits z.now) }
{
    -LIM <= *z && *z <= LIM
}

/// Whether the numbers of an item are in order.
pub fn is_item(item: &Item) -> bool
    ensures { OnTrue result (IsItem item.now) }
{
    -LIM <= item.min
        && item.min <= item.pref
        && item.pref <= item.max
        && item.max <= LIM
        && 0 <= item.weight
        && item.weight <= 1_000_000
}

/// Whether the numbers of all items are in order.
fn are_items(items: &[Item]) -> bool
    ensures { OnTrue result (All IsItem items.now) }
{
    for item in items {
        if !is_item(item) {
            return false;
        }
    }
    true
}

/// Whether all numbers are within the limits.
fn are_within(sizes: &[i64]) -> bool
    ensures { OnTrue result (All IsWithinLimits sizes.now) }
{
    for size in sizes {
        if !is_within(size) {
            return false;
        }
    }
    true
}

/// Sizes of items, with the room, whether they grow, and the sizes that they get.
static BOXES: [(&[Numbers], i64, bool, &[i64]); 45] = [
    (
        &[
            (0, 0, 9_000_000_000_000_000, 1),
            (0, 0, 9_000_000_000_000_000, 1),
            (0, 0, 9_000_000_000_000_000, 1),
        ],
        100_000,
        true,
        &[33_334, 33_333, 33_333],
    ),
    (
        &[
            (0, 0, 3_000_000_000_000_000, 2),
            (86, 87, 3_000_000_000_000_087, 1),
            (0, 1, 3_000_000_000_000_001, 0),
            (34, 73, 3_000_000_000_000_073, 1),
        ],
        161,
        true,
        &[0, 87, 1, 73],
    ),
    (
        &[
            (0, 3200, 3236, 0),
            (47, 73, 73, 1_000_000),
            (1, 1, 21, 3),
            (9, 58, 134, 1_000_000),
        ],
        -5,
        true,
        &[0, 47, 1, 9],
    ),
    (
        &[
            (33, 80, 116, 2),
            (1, 1, 1, 2),
            (46, 46, 3_000_000_000_000_046, 0),
            (0, 0, 3_000_000_000_000_000, 2),
        ],
        -5,
        false,
        &[33, 1, 46, 0],
    ),
    (
        &[(0, 0, 28, 0), (1, 34, 3_000_000_000_000_034, 2)],
        12,
        true,
        &[0, 12],
    ),
    (&[], 25135, true, &[]),
    (&[], 1, false, &[]),
    (&[(0, 1, 2, 0)], 0, true, &[0]),
    (
        &[(0, 0, 3_000_000_000_000_000, 1), (1, 1, 1, 1_000_000)],
        31,
        true,
        &[30, 1],
    ),
    (&[(21, 21, 22, 0), (1, 18, 87, 1)], 1, true, &[21, 1]),
    (
        &[(778_236_919_328, 778_236_919_328, 778_236_919_328, 2)],
        1,
        true,
        &[778_236_919_328],
    ),
    (&[(0, 0, 0, 3), (1, 1, 2, 0)], 1, false, &[0, 1]),
    (
        &[
            (0, 1, 2, 3),
            (0, 1, 43, 3),
            (0, 1, 2, 0),
            (0, 7966, 7966, 1),
            (33, 33, 3_000_000_000_000_033, 1),
            (1, 1, 32, 3),
        ],
        0,
        true,
        &[0, 0, 0, 0, 33, 1],
    ),
    (&[(0, 0, 0, 1)], 0, false, &[0]),
    (
        &[
            (37, 38, 3_000_000_000_000_038, 1),
            (0, 1, 3_000_000_000_000_001, 0),
            (0, 42, 42, 7),
            (1, 89, 90, 1),
        ],
        269,
        true,
        &[136, 1, 42, 90],
    ),
    (
        &[(0, 0, 0, 3), (0, 0, 0, 1_000_000), (0, 0, 0, 3)],
        0,
        true,
        &[0, 0, 0],
    ),
    (
        &[
            (0, 0, 3_000_000_000_000_000, 7),
            (45, 57, 128, 1),
            (0, 0, 3_000_000_000_000_000, 3),
            (0, 1, 1, 0),
            (86, 121, 121, 3),
            (43, 44, 45, 1_000_000),
        ],
        195,
        true,
        &[0, 45, 0, 0, 107, 43],
    ),
    (&[(37, 37, 38, 1), (1, 1, 26, 0)], 312, false, &[37, 1]),
    (&[(32, 32, 33, 0)], 32, true, &[32]),
    (&[], 20, false, &[]),
    (
        &[(61_871_633_567, 61_871_633_567, 61_871_633_568, 2)],
        61_871_633_567,
        false,
        &[61_871_633_567],
    ),
    (&[(1, 1, 2, 1_000_000)], 330, true, &[2]),
    (&[(0, 0, 52, 1)], 0, false, &[0]),
    (&[(1, 1, 2, 0)], 1, true, &[1]),
    (
        &[
            (90, 90, 90, 0),
            (31, 32, 45, 2),
            (1, 1, 1, 7),
            (12, 43, 3_000_000_000_000_043, 2),
        ],
        -5,
        false,
        &[90, 31, 1, 12],
    ),
    (&[(74, 75, 122, 1)], 74, true, &[74]),
    (&[(0, 1, 1, 7), (0, 0, 70, 0)], 1, true, &[1, 0]),
    (
        &[
            (30, 724_941_808_469, 724_941_808_469, 2),
            (1, 1, 1, 1),
            (1, 1, 78, 0),
        ],
        0,
        true,
        &[30, 1, 1],
    ),
    (
        &[
            (0, 0, 1, 1_000_000),
            (0, 1, 1, 2),
            (1, 2, 2, 1),
            (1, 1, 3_000_000_000_000_001, 2),
            (577, 577, 578, 1),
            (0, 0, 1, 1),
        ],
        581,
        false,
        &[0, 1, 2, 1, 577, 0],
    ),
    (&[], 0, true, &[]),
    (
        &[
            (0, 143_639_105_222, 143_639_105_222, 1),
            (1, 1, 1, 0),
            (0, 0, 1, 1),
            (1, 1, 2, 0),
            (31, 31, 48, 7),
            (1, 21, 52, 1_000_000),
        ],
        143_639_105_323,
        false,
        &[143_639_105_222, 1, 0, 1, 31, 21],
    ),
    (
        &[(1, 1, 1, 2), (6239, 6239, 3_000_000_000_006_239, 0)],
        6278,
        false,
        &[1, 6239],
    ),
    (&[(1, 1, 3_000_000_000_000_001, 3)], -5, true, &[1]),
    (&[(48, 49, 56, 1_000_000)], -5, true, &[48]),
    (&[(0, 0, 0, 1), (0, 0, 0, 0)], -5, true, &[0, 0]),
    (&[], 30, true, &[]),
    (
        &[
            (0, 0, 3_000_000_000_000_000, 0),
            (799_207_126_409, 799_207_126_426, 799_207_126_426, 7),
            (0, 1, 2, 1_000_000),
            (0, 0, 3_000_000_000_000_000, 3),
            (1, 2, 2, 3),
            (1, 50, 78, 0),
        ],
        0,
        true,
        &[0, 799_207_126_409, 0, 0, 1, 1],
    ),
    (
        &[
            (0, 0, 3_000_000_000_000_000, 1),
            (49, 49, 3_000_000_000_000_049, 2),
        ],
        81,
        true,
        &[11, 70],
    ),
    (
        &[
            (28, 28, 28, 3),
            (0, 1, 1, 1_000_000),
            (374_954_178_210, 374_954_178_213, 374_954_178_213, 1),
        ],
        1,
        false,
        &[28, 0, 374_954_178_210],
    ),
    (
        &[
            (15, 780_985_939_598, 3_000_780_985_939_598, 1),
            (125_640_078_922, 125_640_078_923, 125_640_078_923, 7),
            (30, 31, 66, 0),
        ],
        -5,
        false,
        &[15, 125_640_078_922, 30],
    ),
    (
        &[
            (0, 31, 32, 2),
            (943_439_438_471, 943_439_438_471, 3_000_943_439_438_471, 0),
            (0, 554_606_821_714, 554_606_821_715, 0),
            (0, 0, 1, 1_000_000),
        ],
        0,
        false,
        &[0, 943_439_438_471, 0, 0],
    ),
    (
        &[
            (0, 1, 23, 7),
            (0, 0, 3_000_000_000_000_000, 7),
            (2, 2, 3_000_000_000_000_002, 1),
        ],
        3,
        true,
        &[1, 0, 2],
    ),
    (
        &[
            (1, 1, 2, 0),
            (790_949_733_616, 790_949_733_616, 790_949_733_616, 1),
            (1, 23, 23, 7),
            (0, 0, 1, 2),
            (16, 16, 3_000_000_000_000_016, 3),
            (1, 523_912_589_995, 523_912_590_032, 1),
        ],
        261_389_242_156,
        true,
        &[1, 790_949_733_616, 1, 0, 16, 1],
    ),
    (&[(0, 1, 3_000_000_000_000_001, 1)], 0, true, &[0]),
    (
        &[
            (1, 1, 3_000_000_000_000_001, 1),
            (9, 98, 3_000_000_000_000_098, 1),
        ],
        10,
        true,
        &[1, 9],
    ),
];

#[test]
fn rooms_are_shared(rt: HostRuntime) -> Result<(), Memory> {
    for (numbers, room, grow, wanted) in BOXES {
        let items = items_of(rt.alloc(), numbers)?;
        assert!(rt; are_items(&items));
        assert!(rt; is_within(&room));
        let mut out = vec![in rt.alloc(); 0; items.len()]?;
        solve_box(&items, room, grow, &mut out);
        assert_eq!(rt; out.as_slice(), wanted, "{numbers:?} in {room}");
    }
    Ok(())
}

/// An alignment, sizes of items, the room, the spacing, and the offsets.
static PLACES: [(Align, &[i64], i64, i64, &[i64]); 40] = [
    (Align::Center, &[32], 34, 0, &[1]),
    (Align::SpaceBetween, &[30, 59, 20], 102, 8, &[0, 38, 105]),
    (Align::Center, &[58], 60, 8, &[1]),
    (Align::Stretch, &[7], 151, 0, &[0]),
    (Align::Center, &[13, 25, 37], 76, 0, &[0, 13, 38]),
    (Align::SpaceBetween, &[], 0, 8, &[]),
    (Align::Start, &[12, 14, 23], 49, 1, &[0, 13, 28]),
    (Align::SpaceBetween, &[11, 8, 20], 39, 8, &[0, 19, 35]),
    (Align::Start, &[25, 44, 41, 59], 170, 8, &[0, 33, 85, 134]),
    (Align::End, &[1, 41], 47, 8, &[5, 14]),
    (Align::Center, &[45, 31, 8], 86, 0, &[1, 46, 77]),
    (Align::Center, &[30, 4], 198, 0, &[82, 112]),
    (Align::Stretch, &[47], 49, 0, &[0]),
    (Align::SpaceBetween, &[39, 42, 4], 87, 0, &[0, 40, 83]),
    (Align::SpaceAround, &[59, 60, 2], 126, 1, &[0, 60, 121]),
    (Align::Center, &[22, 46, 8, 25], 106, 0, &[2, 24, 70, 78]),
    (Align::SpaceAround, &[28], 29, 0, &[0]),
    (Align::End, &[36], 41, 1, &[5]),
    (Align::Stretch, &[19, 48, 15], 85, 1, &[0, 20, 69]),
    (Align::SpaceBetween, &[57], 50, 0, &[0]),
    (Align::Stretch, &[17, 58], 189, 8, &[0, 25]),
    (Align::Center, &[35, 41], 223, 8, &[73, 116]),
    (
        Align::Stretch,
        &[26, 38, 2, 34, 52, 13, 24],
        194,
        0,
        &[0, 26, 64, 66, 100, 152, 165],
    ),
    (Align::Stretch, &[26, 15, 4], 45, 0, &[0, 26, 41]),
    (
        Align::SpaceBetween,
        &[23, 7, 32, 10, 1, 37, 7],
        225,
        0,
        &[0, 41, 66, 116, 144, 163, 218],
    ),
    (Align::End, &[56, 6, 28, 27], 122, 8, &[5, 69, 83, 119]),
    (Align::SpaceAround, &[55, 26, 2], 130, 0, &[7, 76, 116]),
    (Align::Center, &[23, 24, 47], 173, 0, &[39, 62, 86]),
    (Align::Stretch, &[], 5, 0, &[]),
    (Align::Stretch, &[29], 30, 8, &[0]),
    (Align::Center, &[5, 36], 34, 0, &[0, 5]),
    (Align::SpaceBetween, &[52, 32, 37], 207, 8, &[0, 103, 186]),
    (Align::End, &[], 5, 0, &[]),
    (
        Align::SpaceBetween,
        &[3, 35, 16, 35],
        89,
        0,
        &[0, 3, 38, 54],
    ),
    (Align::SpaceBetween, &[0, 60], 53, 0, &[0, 0]),
    (Align::SpaceBetween, &[24, 13], 42, 0, &[0, 29]),
    (Align::Stretch, &[36], 38, 0, &[0]),
    (
        Align::SpaceBetween,
        &[58, 20, 11, 3, 43, 37, 24],
        201,
        8,
        &[0, 67, 96, 116, 128, 180, 225],
    ),
    (Align::Center, &[], -7, 8, &[]),
    (Align::Center, &[34, 23], 59, 0, &[1, 35]),
];

#[test]
fn items_stand_in_their_places(rt: HostRuntime) -> Result<(), Memory> {
    for (align, sizes, room, spacing, wanted) in PLACES {
        assert!(rt; are_within(sizes));
        assert!(rt; is_within(&room));
        assert!(rt; is_within(&spacing));
        let mut out = vec![in rt.alloc(); 0; sizes.len()]?;
        place(align, sizes, room, spacing, &mut out);
        assert_eq!(rt; out.as_slice(), wanted, "{align:?} of {sizes:?} in {room}");
    }
    Ok(())
}
