//! A desk beside one that keeps every call and goes over all of them: random calls from a fixed seed.

use crate::random_calls::{Draws, Plan, draw, has_stay, plan_of};
use crate::whole_list::{Walk, announced_for, bits_for, is_sent, live_of, refusal_after};
use arrayvec::ArrayVec;
use rate_cert::{MAX_REQUESTS, Request};
use rate_desk::*;
use std::alloc::{AllocError, Global};
use std::process::Abort;
use std::test::Fail;

/// How often each desk is called.
const CALLS: u32 = 2500;

/// The answer is the one that is owed to a call after calls that come to this, but for the rows that are
/// announced.
fn assert_owed(rt: &impl Abort, gap: u64, before: &Base, call: &Call, answer: &Answer) {
    match refusal_after(before, call) {
        Some(refusal) => assert_eq!(rt; *answer, refusal),
        None => {
            let Answer::Done { pli, .. } = *answer else {
                assert!(rt; false, "{call:?} is refused: {answer:?}");
                return;
            };
            assert_eq!(rt; pli, is_sent(gap, before, call), "{call:?}");
        },
    }
}

fn assert_base(rt: &impl Abort, base: &Base, want: &Base) {
    assert_eq!(rt; base.present.as_slice(), want.present.as_slice());
    assert_eq!(rt;
        (
            base.wanted,
            base.greatest,
            base.last_up,
            base.calls,
            base.words
        ),
        (
            want.wanted,
            want.greatest,
            want.last_up,
            want.calls,
            want.words
        )
    );
}

/// What came to pass on all desks.
#[derive(Clone, Copy, Default)]
struct Seen {
    full: usize,
    sent: usize,
    /// The requests that an expire took.
    taken: usize,
    most_live: usize,
    most_announced: usize,
}

impl Seen {
    fn note(&mut self, answer: &Answer, live: usize, announced: usize) {
        match answer {
            Answer::Done { pli: true, .. } => self.sent = self.sent.saturating_add(1),
            Answer::Full => self.full = self.full.saturating_add(1),
            _ => {},
        }
        self.most_live = self.most_live.max(live);
        self.most_announced = self.most_announced.max(announced);
    }
}

/// All calls of a desk, and what they come to.
#[derive(Drop)]
struct Past {
    request_ms: u64,
    owners: usize,
    entries: Vec<Entry>,
    base: Base,
    live: ArrayVec<Request, MAX_REQUESTS>,
    announced: ArrayVec<Request, MAX_REQUESTS>,
    bits: [u64; KEPT_WORDS],
}

impl Past {
    /// No calls yet.
    fn new(alloc: Global, plan: &Plan) -> Result<Past, AllocError> {
        Ok(Past {
            request_ms: plan.request_ms,
            owners: plan.shape.owners() as usize,
            entries: Vec::new(alloc),
            base: Walk::new(alloc, 0)?.come_to(plan.request_ms),
            live: ArrayVec::new(),
            announced: ArrayVec::new(),
            bits: [0; KEPT_WORDS],
        })
    }

    /// Takes a call in, and gives what the calls come to that are listed no more: the list is gone over from
    /// its beginning, with a stop there.
    fn take_in(&mut self, alloc: Global, entry: Entry) -> Result<Base, AllocError> {
        self.entries.push(entry)?;
        let entries = self.entries.as_slice();
        let folded = entries.len().saturating_sub(1024);
        let mut walk = Walk::new(alloc, self.owners)?;
        walk.go_over(&entries[..folded]);
        let base = walk.come_to(self.request_ms);
        walk.go_over(&entries[folded..]);
        self.base = walk.come_to(self.request_ms);
        Ok(base)
    }

    /// What is announced for the live requests, of which it is a function. How many requests went, of the
    /// number that were live.
    fn announce(&mut self) -> usize {
        let live = live_of(&self.base);
        if live.as_slice() == self.live.as_slice() {
            return 0;
        }
        let gone = self.live.len().saturating_sub(live.len());
        self.announced = announced_for(&live);
        self.bits = bits_for(live.as_slice(), self.announced.as_slice());
        self.live = live;
        gone
    }
}

/// The desk is as the past says.
fn assert_desk(
    rt: &impl Abort,
    desk: &Desk,
    past: &Past,
    base: &Base,
    entry: &Entry,
    effect: &Effect,
) {
    assert_base(rt, desk.base(), base);
    assert_eq!(rt; desk.history().len(), past.entries.len().min(1024));
    assert_eq!(rt; desk.live(), past.live.as_slice());
    assert_eq!(rt;
        effect.set.as_slice(),
        past.announced.as_slice(),
        "{entry:?}"
    );
    if let Answer::Done { kept, .. } = entry.answer {
        assert_eq!(rt; kept, past.bits);
    }
}

/// Makes a call, and looks at all that the desk says then.
fn call_once(
    rt: &impl Abort,
    alloc: Global,
    desk: &mut Desk,
    past: &mut Past,
    call: Call,
    gap: u64,
    seen: &mut Seen,
) -> Result<(), Fail> {
    if !has_stay(&call) {
        return Ok(());
    }
    let mut effect = Effect::new();
    let Recorded { number, answer } = desk.call(&call, &mut effect)?;
    assert_eq!(rt; number, past.entries.len() as u64);
    assert_owed(rt, gap, &past.base, &call, &answer);
    let entry = Entry { call, answer };
    let base = past.take_in(alloc, entry)?;
    let gone = past.announce();
    if matches!(call, Call::Time { .. }) {
        seen.taken = seen.taken.saturating_add(gone);
    }
    assert_desk(rt, desk, past, &base, &entry, &effect);
    seen.note(&answer, past.live.len(), past.announced.len());
    Ok(())
}

/// Calls this desk, whose past this is, by the plan.
fn call_often(
    rt: &impl Abort,
    alloc: Global,
    desk: &mut Desk,
    past: &mut Past,
    plan: &Plan,
    draws: &mut Draws,
    seen: &mut Seen,
) -> Result<(), Fail> {
    let mut moment: u64 = 0;
    for number in 0..CALLS {
        moment = moment.wrapping_add((draws.next() % 8) as u64);
        let call = draw(plan.shape, draws, number, moment);
        call_once(rt, alloc, desk, past, call, plan.gap, seen)?;
    }
    Ok(())
}

/// Calls a new desk by this plan.
fn call_in_turn(
    rt: &impl Abort,
    alloc: Global,
    plan: &Plan,
    draws: &mut Draws,
    seen: &mut Seen,
) -> Result<(), Fail> {
    let mut past = Past::new(alloc, plan)?;
    let mut desk = Desk::new(alloc, plan.gap, plan.request_ms)?;
    call_often(rt, alloc, &mut desk, &mut past, plan, draws, seen)
}

/// Five desks, as `plan_of` has them: 12,500 calls.
#[test]
fn whole_lists_from_0(rt: HostRuntime) -> Result<(), Fail> {
    let mut draws = Draws(1);
    let mut seen = Seen::default();
    for number in 0..5_usize {
        call_in_turn(&rt, rt.alloc(), &plan_of(number), &mut draws, &mut seen)?;
    }
    assert!(rt; seen.full > 60, "Full {} times", seen.full);
    assert!(rt; seen.sent > 100, "{} PLIs", seen.sent);
    assert!(rt; seen.taken > 100, "{} requests taken", seen.taken);
    assert_eq!(rt; seen.most_live, 256);
    assert!(rt;
        seen.most_announced > 100,
        "{} announced",
        seen.most_announced
    );
    Ok(())
}
