//! Each public call on its happy path, by words and pairs of the examples.
use std::test::Fail;
use tmmbr_tuple::*;

#[test]
fn largest_word(rt: HostRuntime) {
    let tuple = Tuple::from_word(0xffff_ffff);
    let parts = (tuple.exp, tuple.mantissa, tuple.overhead()) == (63, 131_071, 511);
    let rate = tuple.rate() == 1_208_916_596_242_592_319_930_368;
    let beyond = [
        Tuple::new(64, 0, 0),
        Tuple::new(0, 131_072, 0),
        Tuple::new(0, 0, 512),
    ];
    assert!(rt; parts && rate && tuple.to_word() == 0xffff_ffff && beyond == [None; 3]);
}

/// In example 3 owner 18 asks for 60,000 bits per second with 20 bytes per packet, and owner 17 for 64,000 with 40. Each forbids the pair
/// of its own kept line, and permits the other's.
#[test]
fn pairs_of_example_3(rt: HostRuntime) -> Result<(), Fail> {
    let first = Tuple::new(0, 60_000, 20).ok_or("in range")?;
    let second = Tuple::new(0, 64_000, 40).ok_or("in range")?;
    let at_first = Pair::new(4_000, 9_020_001, 161).ok_or("in range")?;
    let at_second = Pair::new(68_000, 8_960_001, 480).ok_or("in range")?;
    let permitted = [
        permits(&first, &at_first),
        permits(&second, &at_first),
        permits(&first, &at_second),
        permits(&second, &at_second),
    ];
    assert!(rt; permitted == [false, true, true, false]);
    Ok(())
}
