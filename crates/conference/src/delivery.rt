//! What waits to be sent, among what the machine gave out.

ghost use Rattle.std.specs.Prelude.{◌≡◌, ◌≤◌, ◌<◌, [], true, length, drop, slice_get, slice_index_or, option_map};
ghost use Rattle.events.specs.declared.output.Out.{Out as OutValue};
ghost use Rattle.ports.specs.Outside.{datagram_in, datagrams_of};
ghost use Rattle.conference.specs.Conference.{datagram_of, is_datagram};

use events::Out;

/// A datagram to be sent to an endpoint, which is named by its number.
#[derive(Clone, Copy)]
pub struct Delivery<'a> {
    pub endpoint: u16,
    pub bytes: &'a [u8],
}

/// Whether this is a datagram.
fn is_datagram(out: &Out) -> bool
    ensures { result ≡ is_datagram out.now }
{
    match out {
        Out::Send { .. } => true,
        Out::Refused(_) | Out::Busy | Out::Lost(_) | Out::Skip(..) | Out::Miss(..) | Out::Idle =>
            false,
    }
}

/// The datagram, if this is one.
fn delivery_in(out: &Out) -> Option<Delivery<'_>>
    ensures { option_map datagram_of result ≡ slice_get (datagram_in out.now) 0 }
{
    match out {
        Out::Send { endpoint, bytes } => Some(Delivery {
            endpoint: *endpoint,
            bytes: bytes.as_slice(),
        }),
        Out::Refused(_) | Out::Busy | Out::Lost(_) | Out::Skip(..) | Out::Miss(..) | Out::Idle =>
            None,
    }
}

/// The place of the first datagram from this place on; else how many there are.
pub(crate) fn next_place(outs: &[Out], from: usize) -> usize
    requires { from ≤ length outs.now }
    ensures within { result ≤ length outs.now }
    ensures same { datagrams_of (drop result outs.now) ≡ datagrams_of (drop from outs.now) }
    ensures there { (d : OutValue) → result < length outs.now
        → is_datagram (slice_index_or outs.now result d) ≡ true }
{
    let mut at = from;
    while at < outs.len() && !is_datagram(&outs[at]) {
        at += 1;
    }
    at
}

/// The first datagram from this place on.
#[tactic(auto, using(crate::proofs::DeliveryLemmas::first_there, crate::proofs::DeliveryLemmas::none_there))]
pub(crate) fn next_delivery(outs: &[Out], from: usize) -> Option<Delivery<'_>>
    requires { from ≤ length outs.now }
    ensures { option_map datagram_of result ≡ slice_get (datagrams_of (drop from outs.now)) 0 }
{
    let at = next_place(outs, from);
    match outs.get(at) {
        Some(out) => delivery_in(out),
        None => None,
    }
}

/// The place after the first datagram from this place on.
#[tactic(auto, using(crate::proofs::DeliveryLemmas::after_first, crate::proofs::DeliveryLemmas::after_none))]
pub(crate) fn place_after(outs: &[Out], from: usize) -> usize
    requires { from ≤ length outs.now }
    ensures within { result ≤ length outs.now }
    ensures after { datagrams_of (drop result outs.now) ≡ drop 1 (datagrams_of (drop from outs.now)) }
{
    let at = next_place(outs, from);
    if at < outs.len() { at + 1 } else { at }
}

/// Lets go of what was given out, once no datagram from this place on is left in it. Answers the place from then on.
#[tactic(auto, using(crate::proofs::DeliveryLemmas::all_done, crate::proofs::DeliveryLemmas::some_left))]
pub(crate) fn let_go(outs: &mut Vec<Out>, from: usize) -> usize
    requires { from ≤ length outs.old.items }
    ensures within { result ≤ length outs.new.items }
    ensures same { datagrams_of (drop result outs.new.items)
        ≡ datagrams_of (drop from outs.old.items) }
    ensures gone { datagrams_of (drop from outs.old.items) ≡ [] → outs.new.items ≡ [] }
{
    let next = next_place(outs.as_slice(), from);
    if next == outs.len() {
        outs.clear();
        return 0;
    }
    next
}
