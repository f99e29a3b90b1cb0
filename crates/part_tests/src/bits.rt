//! Rows of lengths around lanes and groups of lanes.
ghost use Rattle.std.specs.Prelude.{◌≡◌, length, IfOk};

use bit_lanes::BitRow;
use puya_base::Memory;
use std::alloc::Global;
use std::test::Fail;

/// What the calls answer: whether the union grew and its count, whether the intersection shrank and its count, and the
/// count of the difference.
type Answers = (bool, usize, bool, usize, usize);

/// The row of the multiples of three and the row of the first and the last number, of so many bits.
const LENGTHS: [(usize, Answers); 10] = [
    (0, (false, 0, false, 0, 0)),
    (1, (false, 1, false, 1, 0)),
    (63, (true, 22, true, 1, 20)),
    (64, (false, 22, true, 2, 20)),
    (65, (true, 23, true, 1, 21)),
    (255, (true, 86, true, 1, 84)),
    (256, (false, 86, true, 2, 84)),
    (257, (true, 87, true, 1, 85)),
    (320, (true, 108, true, 1, 106)),
    (513, (true, 172, true, 1, 170)),
];

fn multiples_of_three(alloc: Global, bits: usize) -> Result<BitRow, Memory>
    ensures { IfOk result (λ r. length r ≡ bits) }
{
    let mut row = BitRow::new(alloc, bits)?;
    for i in 0..bits {
        if i % 3 == 0 {
            row.set(i);
        }
    }
    Ok(row)
}

fn first_and_last(alloc: Global, bits: usize) -> Result<BitRow, Memory>
    ensures { IfOk result (λ r. length r ≡ bits) }
{
    let mut row = BitRow::new(alloc, bits)?;
    if bits > 0 {
        row.set(0);
        row.set(bits - 1);
    }
    Ok(row)
}

fn answers(alloc: Global, bits: usize) -> Result<Answers, Memory> {
    let ends = first_and_last(alloc, bits)?;
    let mut either = multiples_of_three(alloc, bits)?;
    let mut both = multiples_of_three(alloc, bits)?;
    let mut others = multiples_of_three(alloc, bits)?;
    let grew = either.or_with(&ends);
    let shrank = both.and_with(&ends);
    others.and_not(&ends);
    Ok((grew, either.count(), shrank, both.count(), others.count()))
}

#[test]
fn rows_of_each_length_are_combined(rt: HostRuntime) -> Result<(), Fail> {
    for (bits, want) in LENGTHS {
        let given = answers(rt.alloc(), bits)?;
        assert_eq!(rt; given, want, "{bits} bits");
    }
    Ok(())
}

#[test]
fn the_last_of_65_bits_stands_alone(rt: HostRuntime) -> Result<(), Fail> {
    let mut row = BitRow::new(rt.alloc(), 65)?;
    row.set(64);
    assert!(rt; row.has(64));
    assert!(rt; !row.has(63));
    assert_eq!(rt; row.count(), 1);
    row.set(63);
    row.clear(64);
    assert!(rt; row.has(63));
    assert!(rt; !row.has(64));
    Ok(())
}

/// The numbers 0, 64 and 129 of 130.
fn three_of_130(alloc: Global) -> Result<BitRow, Memory>
    ensures { IfOk result (λ r. length r ≡ 130) }
{
    let mut row = BitRow::new(alloc, 130)?;
    row.set(0);
    row.set(64);
    row.set(129);
    Ok(row)
}

#[test]
fn a_union_grows_once(rt: HostRuntime) -> Result<(), Fail> {
    let three = three_of_130(rt.alloc())?;
    let mut row = BitRow::new(rt.alloc(), 130)?;
    assert!(rt; !row.same(&three));
    assert!(rt; row.or_with(&three));
    assert!(rt; !row.or_with(&three));
    assert!(rt; row.same(&three));
    assert_eq!(rt; row.count(), 3);
    Ok(())
}

#[test]
fn a_difference_and_an_intersection_take_out_once(rt: HostRuntime) -> Result<(), Fail> {
    let mut one = BitRow::new(rt.alloc(), 130)?;
    one.set(64);
    let mut row = three_of_130(rt.alloc())?;
    row.and_not(&one);
    assert_eq!(rt; row.count(), 2);
    assert!(rt; !row.has(64));
    let three = three_of_130(rt.alloc())?;
    assert!(rt; !row.and_with(&three));
    assert!(rt; row.and_with(&one));
    assert_eq!(rt; row.count(), 0);
    Ok(())
}
