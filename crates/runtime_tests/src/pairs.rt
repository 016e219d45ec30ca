ghost use Rattle.std.specs.Prelude.{◌≡◌, ◌+◌, ◌<◌, ◌≤◌, length};

use dep_list::Deps;
use slint_base::Memory;
use std::alloc::Global;

const READERS: usize = 5;

const POINTS: usize = 7;

const ROOM: u64 = 12;

/// The readers of a point, in order.
fn readers_of(alloc: Global, deps: &Deps, point: usize) -> Result<Vec<usize>, Memory> {
    let mut all = Vec::new(alloc);
    let mut readers = deps.readers(point);
    for _ in 0..=deps.pairs().min(1000) {
        let Some(reader) = readers.next() else {
            break;
        };
        all.push(reader)?;
    }
    Ok(all)
}

#[test]
fn readers_stand_in_order_of_linking(rt: HostRuntime) -> Result<(), Memory> {
    let mut deps = Deps::new(rt.alloc());
    deps.reserve(2)?;
    deps.reserve_ends(2, 6)?;
    deps.link(0, 5);
    deps.link(1, 5);
    assert_eq!(rt;
        readers_of(rt.alloc(), &deps, 5)?.as_slice(),
        [0, 1].as_slice()
    );
    deps.unlink_reader(0);
    assert_eq!(rt;
        readers_of(rt.alloc(), &deps, 5)?.as_slice(),
        [1].as_slice()
    );
    assert_eq!(rt; deps.points(1).next(), Some(5));
    assert_eq!(rt; deps.pairs(), 1);
    Ok(())
}

/// Does one call, and the same to the plain list.
fn step(
    deps: &mut Deps,
    plain: &mut Vec<(usize, usize)>,
    kind: u64,
    reader: usize,
    point: usize,
) -> Result<(), Memory>
    requires readers { READERS ≤ deps.old.readers }
    requires points { POINTS ≤ deps.old.points }
    requires room { ROOM ≤ deps.old.spare + length deps.old.pairs }
    requires reader { reader < READERS }
    requires point { point < POINTS }
    ensures readers { READERS ≤ deps.new.readers }
    ensures points { POINTS ≤ deps.new.points }
    ensures room { ROOM ≤ deps.new.spare + length deps.new.pairs }
{
    if kind == 0 {
        deps.unlink_reader(reader);
        plain.retain(|pair| pair.0 != reader);
        return Ok(());
    }
    if kind == 1 {
        deps.unlink_point(point);
        plain.retain(|pair| pair.1 != point);
        return Ok(());
    }
    if deps.pairs() < ROOM && !deps.has(reader, point) {
        deps.link(reader, point);
        plain.push((reader, point))?;
    }
    Ok(())
}

/// Whether both have the same pairs, and the same readers of each point in the same order.
fn agree(alloc: Global, deps: &Deps, plain: &[(usize, usize)]) -> Result<bool, Memory> {
    for point in 0..POINTS {
        let wanted = plain
            .iter()
            .filter(|pair| pair.1 == point)
            .map(|pair| pair.0)
            .collect::<Vec<usize>>(alloc)?;
        if readers_of(alloc, deps, point)?.as_slice() != wanted.as_slice() {
            return Ok(false);
        }
        for reader in 0..READERS {
            if deps.has(reader, point) != plain.contains(&(reader, point)) {
                return Ok(false);
            }
        }
    }
    Ok(deps.pairs() as usize == plain.len())
}

/// The next number of a walk that looks random.
fn after(seed: u64) -> u64 {
    seed.wrapping_mul(6_364_136_223_846_793_005)
        .wrapping_add(1_442_695_040_888_963_407)
}

#[test]
fn a_random_walk_agrees_with_a_plain_list(rt: HostRuntime) -> Result<(), Memory> {
    let mut deps = Deps::new(rt.alloc());
    deps.reserve(ROOM as usize)?;
    deps.reserve_ends(READERS, POINTS)?;
    let mut plain = Vec::new(rt.alloc());
    let mut seed = 20_261_201;
    for turn in 0..40 {
        seed = after(seed);
        let kind = (seed >> 33) % 6;
        let reader = ((seed >> 40) % 5) as usize;
        let point = ((seed >> 50) % 7) as usize;
        step(&mut deps, &mut plain, kind, reader, point)?;
        assert!(rt;
            agree(rt.alloc(), &deps, plain.as_slice())?,
            "turn {turn}, seed {seed}"
        );
    }
    Ok(())
}
