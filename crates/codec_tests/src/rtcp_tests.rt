//! Datagrams of the examples, and what `split` makes of them.

use crate::packet_text::{bytes_of, packets_text};
use std::alloc::Global;
use std::process::Abort;
use std::test::Fail;

/// A datagram, and what its packets say, a line each, or the number of its fault.
const SPLIT: [(&str, &str); 9] = [
    // Short: no header.
    ("", "fault 1"),
    // Version 0.
    ("00c9000100000011", "fault 2"),
    // Padding of a packet that isn't the last.
    ("a0c900010000001180c9000100000011", "fault 4"),
    // Padding of 17 bytes, more than the body has.
    ("a0c9000100000011", "fault 5"),
    // One block is counted, and none there.
    ("81c9000100000011", "fault 6"),
    // The padding takes the whole body, the sender's source, too.
    ("a0c900020000001100000008", "fault 6"),
    // One chunk is counted, which has no end.
    ("81ca000100000009", "fault 7"),
    // A receiver report of 17 without blocks, and a word of padding.
    ("a0c900020000001100000004", "rr 17\n"),
    // A receiver report of 9, its CNAME `sfu`, and a PLI about 17.
    (
        "80c900010000000981ca000300000009010373667500000081ce00020000000900000011",
        "rr 9\n\
            sdes 1 000000090103736675000000\n\
            feedback 1 206 0000000900000011 pli 9 17\n",
    ),
];

/// The packets of this datagram say this.
fn says(rt: &impl Abort, alloc: Global, digits: &str, wanted: &str) -> Result<(), Fail> {
    let datagram = bytes_of(alloc, digits)?;
    let text = packets_text(alloc, datagram.as_slice())?;
    assert_eq!(rt; text.as_str(), wanted, "{digits}");
    Ok(())
}

#[test]
fn split_as_in_the_examples(rt: HostRuntime) -> Result<(), Fail> {
    for (digits, wanted) in &SPLIT {
        says(&rt, rt.alloc(), digits, wanted)?;
    }
    Ok(())
}
