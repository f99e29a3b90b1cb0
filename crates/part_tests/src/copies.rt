ghost use Rattle.std.specs.Prelude.{◌≡◌, true, false};
ghost use Rattle.phi_copies.specs.Parallel.{no_two_write_one, uses};

use phi_copies::{Copies, Moves, Pair, sequence};
use puya_base::List;
use std::alloc::Global;
use std::test::Fail;

/// What the places 0 to 9 hold before.
const BEFORE: [u32; 10] = [100, 101, 102, 103, 104, 105, 106, 107, 108, 109];

const CHAIN: [Pair; 2] = [Pair { to: 1, from: 2 }, Pair { to: 2, from: 3 }];

const SWAP: [Pair; 2] = [Pair { to: 1, from: 2 }, Pair { to: 2, from: 1 }];

const FAN: [Pair; 2] = [Pair { to: 1, from: 3 }, Pair { to: 2, from: 3 }];

const SELF_COPY: [Pair; 1] = [Pair { to: 4, from: 4 }];

const TWO_SWAPS: [Pair; 4] = [
    Pair { to: 1, from: 2 },
    Pair { to: 2, from: 1 },
    Pair { to: 3, from: 4 },
    Pair { to: 4, from: 3 },
];

const TAIL_OF_A_CYCLE: [Pair; 4] = [
    Pair { to: 5, from: 1 },
    Pair { to: 1, from: 2 },
    Pair { to: 2, from: 3 },
    Pair { to: 3, from: 1 },
];

/// What the places but the spare one, 9, hold after moves, one after another.
fn after(moves: &[Pair]) -> Option<[u32; 10]> {
    let mut places = BEFORE;
    for m in moves {
        let value = *places.get(m.from as usize)?;
        *places.get_mut(m.to as usize)? = value;
    }
    *places.get_mut(9)? = 0;
    Some(places)
}

/// What they hold after pairs at once.
fn at_once(pairs: &[Pair]) -> Option<[u32; 10]> {
    let mut places = BEFORE;
    for p in pairs {
        *places.get_mut(p.to as usize)? = *BEFORE.get(p.from as usize)?;
    }
    *places.get_mut(9)? = 0;
    Some(places)
}

/// The moves of pairs, which must leave what the pairs leave at once.
fn sequenced(alloc: Global, pairs: &[Pair]) -> Result<Moves, Fail>
    requires single { no_two_write_one pairs.now ≡ true }
    requires apart { uses 9 pairs.now ≡ false }
{
    let copies = Copies {
        pairs: List::from_slice(alloc, pairs)?,
        spare: 9,
    };
    let moves = sequence(alloc, &copies)?;
    let places = after(moves.as_slice()).ok_or("a move past the places")?;
    let wanted = at_once(pairs).ok_or("a pair past the places")?;
    if places.as_slice() == wanted.as_slice() {
        Ok(moves)
    } else {
        Err("the moves leave something else")?
    }
}

#[test]
fn a_place_is_read_before_it_is_written(rt: HostRuntime) -> Result<(), Fail> {
    let moves = sequenced(rt.alloc(), &CHAIN)?;
    assert_eq!(rt; moves.as_slice(), CHAIN.as_slice());
    Ok(())
}

#[test]
fn a_cycle_costs_one_move_more(rt: HostRuntime) -> Result<(), Fail> {
    assert_eq!(rt; sequenced(rt.alloc(), &SWAP)?.len(), 3);
    assert_eq!(rt; sequenced(rt.alloc(), &TWO_SWAPS)?.len(), 6);
    assert_eq!(rt; sequenced(rt.alloc(), &TAIL_OF_A_CYCLE)?.len(), 5);
    Ok(())
}

#[test]
fn one_source_of_two_places_costs_nothing_more(rt: HostRuntime) -> Result<(), Fail> {
    assert_eq!(rt; sequenced(rt.alloc(), &FAN)?.len(), 2);
    Ok(())
}

#[test]
fn a_self_copy_makes_no_move(rt: HostRuntime) -> Result<(), Fail> {
    assert_eq!(rt; sequenced(rt.alloc(), &SELF_COPY)?.len(), 0);
    assert_eq!(rt; sequenced(rt.alloc(), &[])?.len(), 0);
    Ok(())
}
