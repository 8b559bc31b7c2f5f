//! Bodies of feedback built by hand from RFC 4585, sections 6.1, 6.2.1 and 6.3.1, and RFC 5104, sections 4.2.1 and 4.2.2.

use rtcp_feedback::*;

/// An entry of a NACK, and what it says was lost.
const LOST: [(Nack, &[u16]); 4] = [
    (Nack { pid: 65534, blp: 3 }, &[65534, 65535, 0]),
    (Nack { pid: 7, blp: 0 }, &[7]),
    (
        Nack {
            pid: 100,
            blp: 0x8000,
        },
        &[100, 116],
    ),
    (
        Nack {
            pid: 65530,
            blp: 0xffff,
        },
        &[
            65530, 65531, 65532, 65533, 65534, 65535, 0, 1, 2, 3, 4, 5, 6, 7, 8, 9, 10,
        ],
    ),
];

#[test]
fn lost_of_example_15(rt: HostRuntime) {
    for (nack, numbers) in &LOST {
        assert_eq!(rt; lost(*nack).as_slice(), *numbers);
    }
}
