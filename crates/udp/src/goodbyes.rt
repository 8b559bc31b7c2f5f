//! The BYEs of a unit that is stopped.

ghost use Rattle.std.specs.Prelude.{◌≡◌, ◌++◌, [], IfOk, OnOk};
ghost use Rattle.std.specs.List.{flat_map};
ghost use Rattle.desk_calls.specs.Head.{report_head};
ghost use Rattle.udp.specs.Goodbyes.{LeavesEndpoint, LeavesPresent, goodbye_bytes, goodbye_packet, leg_goodbye};

use ports::Sink;
use rtcp_compound::{write_bye, write_rr, write_sdes_cname};
use settings::{LegSettings, Settings};
use std::alloc::{AllocError, Global};
use tmmbr_tuple::Ssrc;

/// The datagram by which the unit leaves the endpoint with this number. After the head of each of its compounds come BYEs of the SSRCs of the
/// legs to the endpoint, then one of the unit's own (RFC 3550, section 6.6). Refused for want of memory alone.
pub fn goodbye_of(alloc: Global, settings: &Settings, endpoint: u16) -> Result<Vec<u8>, AllocError>
    ensures { IfOk result (λ bytes. bytes.items ≡ goodbye_bytes settings.now endpoint) }
{
    let mut bytes = head_of(alloc, settings)?;
    push_legs(&mut bytes, settings.legs(), endpoint)?;
    push_goodbye(&mut bytes, settings.unit_ssrc())?;
    Ok(bytes)
}

/// What each compound of the unit begins with.
fn head_of(alloc: Global, settings: &Settings) -> Result<Vec<u8>, AllocError>
    ensures { IfOk result (λ bytes. bytes.items
        ≡ report_head (record { ssrc = settings.now.unit_ssrc.0; cname = settings.now.cname })) }
{
    let mut bytes = Vec::new(alloc);
    write_rr(&mut bytes, settings.unit_ssrc(), &[])?;
    write_sdes_cname(&mut bytes, settings.unit_ssrc(), settings.cname())?;
    Ok(bytes)
}

/// A BYE of the source of each of these legs that leads to the endpoint.
fn push_legs(bytes: &mut Vec<u8>, legs: &[LegSettings], endpoint: u16) -> Result<(), AllocError>
    ensures { OnOk result
        (bytes.new.items ≡ bytes.old.items ++ flat_map (leg_goodbye endpoint) legs.now) }
{
    for leg in legs {
        push_leg(bytes, leg, endpoint)?;
    }
    Ok(())
}

/// A BYE of the source of this leg, if it leads to the endpoint.
fn push_leg(bytes: &mut Vec<u8>, leg: &LegSettings, endpoint: u16) -> Result<(), AllocError>
    ensures { OnOk result (bytes.new.items ≡ bytes.old.items ++ leg_goodbye endpoint leg.now) }
{
    if leg.subscriber != endpoint {
        return Ok(());
    }
    push_goodbye(bytes, leg.out_ssrc)
}

/// A BYE of this source.
fn push_goodbye(bytes: &mut Vec<u8>, source: Ssrc) -> Result<(), AllocError>
    ensures { OnOk result (bytes.new.items ≡ bytes.old.items ++ goodbye_packet source.0) }
{
    write_bye(bytes, &[source])
}

/// Sends each endpoint that is present its BYE, and nobody else anything. One that can't be sent, or for which there is no memory,
/// is left out.
#[tactic(auto, using(crate::proofs::GoodbyeLemmas::says_on, crate::proofs::GoodbyeLemmas::says_nothing))]
pub fn say_goodbyes<S: Sink>(alloc: Global, settings: &Settings, present: &[bool], sink: &mut S)
    ensures { LeavesPresent settings.now present.now (S.shown sink.old).handed
        (S.shown sink.new).handed }
{
    for endpoint in 0..present.len() {
        say_if_present(alloc, settings, present, endpoint, sink);
    }
}

/// Sends the endpoint with this number its BYE if it is present.
#[tactic(auto, using(crate::proofs::GoodbyeLemmas::says_one, crate::proofs::GoodbyeLemmas::says_nothing))]
fn say_if_present<S: Sink>(
    alloc: Global,
    settings: &Settings,
    present: &[bool],
    endpoint: usize,
    sink: &mut S,
)
    ensures { LeavesPresent settings.now present.now (S.shown sink.old).handed
        (S.shown sink.new).handed }
{
    if let Some(true) = present.get(endpoint).copied() {
        say_goodbye(alloc, settings, endpoint, sink);
    }
}

/// Sends the endpoint with this number its BYE.
#[tactic(auto, using(crate::proofs::GoodbyeLemmas::tells_one, crate::proofs::GoodbyeLemmas::tells_nothing))]
fn say_goodbye<S: Sink>(alloc: Global, settings: &Settings, endpoint: usize, sink: &mut S)
    ensures { LeavesEndpoint settings.now endpoint (S.shown sink.old).handed (S.shown sink.new).handed }
{
    let Ok(endpoint) = u16::try_from(endpoint) else {
        return;
    };
    if let Ok(bytes) = goodbye_of(alloc, settings, endpoint) {
        let _ = sink.send(endpoint, bytes.as_slice());
    }
}
