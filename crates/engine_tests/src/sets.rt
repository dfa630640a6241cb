//! Sets of numbers at the ends of a word, at the greatest number, and after the last word is gone.

use std::alloc::Global;
use std::test::Fail;
use tableau_rules::Bits;

// The set of these numbers.
fn bits_of(alloc: Global, numbers: &[u16]) -> Result<Bits, Fail> {
    let mut bits = Bits::new(alloc);
    for number in numbers {
        bits.add(*number)?;
    }
    Ok(bits)
}

#[test]
fn least_numbers(rt: HostRuntime) -> Result<(), Fail> {
    let bits = bits_of(rt.alloc(), &[64, 65_535, 0, 63])?;
    for (from, least) in [
        (0, Some(0)),
        (1, Some(63)),
        (63, Some(63)),
        (64, Some(64)),
        (65, Some(65_535)),
        (65_535, Some(65_535)),
    ] {
        assert_eq!(rt; bits.least_from(from), least, "from {from}");
    }
    assert_eq!(rt; Bits::new(rt.alloc()).least_from(0), None);
    Ok(())
}

#[test]
fn numbers_that_come_and_go(rt: HostRuntime) -> Result<(), Fail> {
    let mut bits = bits_of(rt.alloc(), &[7])?;
    let before = bits.clone(rt.alloc())?;
    for number in [0, 63, 64, 65_535] {
        assert!(rt; !bits.has(number), "before {number}");
        bits.add(number)?;
        assert!(rt; bits.has(number), "with {number}");
        assert!(rt; !bits.same(&before), "with {number}");
        bits.remove(number);
        assert!(rt; !bits.has(number), "after {number}");
        assert!(rt; bits.same(&before), "after {number}");
    }
    Ok(())
}

#[test]
fn changes(rt: HostRuntime) -> Result<(), Fail> {
    let old = bits_of(rt.alloc(), &[3, 200])?;
    let new = bits_of(rt.alloc(), &[3, 5, 64])?;
    for (gone, first, second, follows) in [
        (Some(200), Some(64), Some(5), true),
        (Some(200), Some(5), Some(64), true),
        (Some(3), Some(64), Some(5), false),
        (Some(200), Some(64), None, false),
        (None, Some(64), Some(5), false),
    ] {
        assert_eq!(rt;
            new.follows(&old, gone, first, second),
            follows,
            "without {gone:?}"
        );
    }
    Ok(())
}
