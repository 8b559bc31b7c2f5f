//! Packets in, numbers out.
use rewrite::*;
use std::process::Abort;

/// A turn and a sequence number, and what the leg answers.
type Step = (u64, u16, Result<u64, Skip>);

/// The leg answers each step so.
fn plays(rt: &impl Abort, leg: &mut Leg, steps: &[Step]) {
    for (turn, seq, answer) in steps {
        assert_eq!(rt; leg.next(*turn, *seq), *answer);
    }
}

const EXAMPLE_14: [Step; 9] = [
    (1, 65534, Ok(100)),
    (1, 65535, Ok(101)),
    (2, 3, Ok(102)),
    // Two before its turn's first packet, across the wrap.
    (2, 65534, Err(Skip::Old)),
    (2, 5, Ok(104)),
    (2, 4, Ok(103)),
    (2, 5, Ok(104)),
    (1, 65535, Err(Skip::Old)),
    (3, 9, Ok(105)),
];

#[test]
fn numbers_of_example_14(rt: HostRuntime) {
    plays(&rt, &mut Leg::new(100), &EXAMPLE_14);
}
