//! `sfu bound --sender 1` for many owners, by the worked examples 34 and 36 of docs/EXAMPLES.md.
use crate::bound_tests::bound;
use crate::row::Ended;
use crate::stream::Stream;
use std::alloc::{AllocError, Global};
use std::fmt::Write;
use std::process::Abort;
use std::test::Fail;

/// Owners from 1 on, of whom owner i asks for so many bits per second and i * i more, with i bytes per packet.
#[derive(Clone, Copy)]
struct Crowd {
    owners: u32,
    rate: u32,
}

const FEW: Crowd = Crowd {
    owners: 64,
    rate: 5_000,
};

/// As many as may be live.
const ALL: Crowd = Crowd {
    owners: 256,
    rate: 65_500,
};

impl Crowd {
    /// Writes the line of this owner.
    fn write_line(&self, lines: &mut String, owner: u32) -> Result<(), AllocError> {
        let mantissa = self.rate.wrapping_add(owner.wrapping_mul(owner));
        let word = mantissa.wrapping_mul(512).wrapping_add(owner);
        write!(lines, "83cd0004{owner:08x}0000000000000001{word:08x}\n")
    }

    /// The lines of all, and then another one of this owner, if one is named.
    fn lines(&self, alloc: Global, again: Option<u32>) -> Result<String, AllocError> {
        let mut lines = String::new(alloc);
        for owner in 1..=self.owners {
            self.write_line(&mut lines, owner)?;
        }
        if let Some(owner) = again {
            self.write_line(&mut lines, owner)?;
        }
        Ok(lines)
    }
}

/// A crowd, who of them asks twice, how the first line begins that is printed, and the lines of the first and the last kept request.
struct Kept {
    crowd: Crowd,
    again: Option<u32>,
    begins: &'static str,
    first: &'static str,
    last: &'static str,
}

const KEPT: [Kept; 4] = [
    // Example 34.
    Kept {
        crowd: FEW,
        again: None,
        begins: "84cd0082",
        first: "kept 1 00271201 pair 3 44986 9",
        last: "kept 64 00471040 pair 9223 7745 520",
    },
    // One owner more, the 65th: it takes over from the 64th at 129 / 8 packets per second, and ends at 9225 / 520.
    Kept {
        crowd: Crowd { owners: 65, ..FEW },
        again: None,
        begins: "84cd0084",
        first: "kept 1 00271201 pair 3 44986 9",
        last: "kept 65 00481241 pair 9354 6721 528",
    },
    // Example 36.
    Kept {
        crowd: ALL,
        again: None,
        begins: "84cd0202",
        first: "kept 1 01ffba01 pair 3 589486 9",
        last: "kept 256 03ffb900 pair 131547 1761 2056",
    },
    // Its line 257 is of an owner that is live.
    Kept {
        crowd: ALL,
        again: Some(256),
        begins: "84cd0202",
        first: "kept 1 01ffba01 pair 3 589486 9",
        last: "kept 256 03ffb900 pair 131547 1761 2056",
    },
];

/// Whether behind its first line a text has a kept line of each owner, from 1 to this one, and no other.
fn keeps_all(alloc: Global, printed: &str, owners: u32) -> Result<bool, AllocError> {
    let mut owner: u32 = 0;
    for line in printed.lines().skip(1) {
        owner = owner.wrapping_add(1);
        let begins = format!(in alloc; "kept {owner} ")?;
        if !line.starts_with(begins.as_str()) {
            return Ok(false);
        }
    }
    Ok(owner == owners)
}

/// All owners are kept, as the row has it.
fn assert_kept(rt: &impl Abort, alloc: Global, kept: &Kept, ended: &Ended) -> Result<(), Fail> {
    let printed = ended.printed.as_str();
    let are_all = keeps_all(alloc, printed, kept.crowd.owners)?;
    let (first, last) = (printed.lines().nth(1), printed.lines().last());
    assert_eq!(rt; ended.why(), ("", 0));
    assert!(rt; are_all && printed.starts_with(kept.begins), "{printed}");
    assert_eq!(rt; (first, last), (Some(kept.first), Some(kept.last)));
    Ok(())
}

#[test]
fn crowds_of_bound(rt: HostRuntime) -> Result<(), Fail> {
    let alloc = rt.alloc();
    for kept in KEPT.iter() {
        let lines = kept.crowd.lines(alloc, kept.again)?;
        let lines = Stream::new(alloc, lines.as_str());
        let ended = bound(&rt, lines, Stream::new(alloc, ""))?;
        assert_kept(&rt, alloc, kept, &ended)?;
    }
    Ok(())
}

/// One owner more than may be live.
#[test]
fn one_owner_more_of_bound(rt: HostRuntime) -> Result<(), Fail> {
    let alloc = rt.alloc();
    let lines = ALL.lines(alloc, Some(257))?;
    let lines = Stream::new(alloc, lines.as_str());
    let ended = bound(&rt, lines, Stream::new(alloc, ""))?;
    assert_eq!(rt; ended.printed.as_str(), "");
    assert_eq!(rt; ended.why(), ("line 257: full\n", 4));
    Ok(())
}
