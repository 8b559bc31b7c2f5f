//! What is given out is handed to a sink, and counted.

ghost use Rattle.std.specs.Prelude.{◌≡◌, ◌+◌, ◌-◌, ◌^◌, ◌<◌, ◌≤◌, ◌∷◌, []};
ghost use Rattle.events.specs.declared.output.Out.TheVariants.{Send};
ghost use Rattle.forwarding.specs.Sending.{Adds, Sends, total_of};

use crate::done::Forwarded;
use events::Out;
use ports::Sink;

/// Hands a datagram to the sink, and counts it.
fn hand_over<S: Sink>(sink: &mut S, endpoint: u16, bytes: &[u8], done: &mut Forwarded)
    requires room { total_of done.old < 2 ^ 64 - 1 }
    ensures adds { Adds (Send endpoint bytes.now ∷ []) (S.shown sink.old)
        (S.shown sink.new) done.old done.new }
    ensures one { total_of done.new ≡ total_of done.old + 1 }
{
    match sink.send(endpoint, bytes) {
        Ok(()) => done.sent += 1,
        Err(_) => done.failed += 1,
    }
}

/// Does one thing that is given out; what is no datagram is counted alone.
#[tactic(auto, using(ports::proofs::GrowsLemmas::grows_nothing))]
fn give<S: Sink>(out: &Out, sink: &mut S, done: &mut Forwarded)
    requires room { total_of done.old < 2 ^ 64 - 1 }
    ensures adds { Adds (out.now ∷ []) (S.shown sink.old) (S.shown sink.new) done.old done.new }
    ensures few { total_of done.new ≤ total_of done.old + 1 }
{
    match out {
        Out::Send { endpoint, bytes } => hand_over(sink, *endpoint, bytes.as_slice(), done),
        Out::Skip(leg, _) => {
            sink.skipped(*leg);
            done.skipped += 1;
        }
        Out::Miss(leg, _) => {
            sink.missed(*leg);
            done.missed += 1;
        }
        Out::Refused(refusal) => sink.refused(None, *refusal),
        Out::Busy | Out::Lost(_) | Out::Idle => {}
    }
}

/// Hands the datagrams among what is given out to the sink, in order, and counts the rest.
pub fn send_all<S: Sink>(outs: &[Out], sink: &mut S) -> Forwarded
    ensures { Sends outs.now (S.shown sink.old) (S.shown sink.new) result }
{
    let mut done = Forwarded::default();
    // Each has a place, so that they are no more than fit a u64, nor is what is counted.
    for (_place, out) in outs.iter().enumerate() {
        give(out, sink, &mut done);
    }
    done
}
