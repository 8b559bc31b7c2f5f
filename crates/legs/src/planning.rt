//! What a leg does for a job.

ghost use Rattle.std.specs.Prelude.{◌≡◌, ◌++◌, [], IfOk, OnOk};
ghost use Rattle.rewrite.specs.Leg.{answer_to};
ghost use Rattle.resend_ring.specs.Kept.{last_kept_with};
ghost use Rattle.legs.specs.Legs.{leg_goodbye_bytes, leg_report_bytes};
ghost use Rattle.legs.specs.Planning.{packet_planned, resend_planned, resends, sent_alone};
ghost use Rattle.shared_packet.specs.Rtp.{IsReadAs, sequence_number};

use crate::leg::LegState;
use crate::plan::{Change, Plan, Planned};
use events::{Bytes, Out};
use rewrite::SEQ_CYCLE;
use rtcp_compound::{write_bye, write_rr, write_sdes_cname, write_sr};
use shared_packet::{PacketParts, Readdressed, SharedPacket};
use std::alloc::{AllocError, Global};

/// The bytes of a packet that goes out.
fn bytes_of(packet: &Readdressed, alloc: Global, plan: &mut Plan) -> Result<Bytes, AllocError>
    ensures ok { IfOk result (λ bytes. bytes ≡ packet.now) }
    ensures plan { plan.new ≡ plan.old }
{
    let mut bytes = plan.buffer(alloc, packet.len())?;
    packet.copy_to(bytes.as_mut_slice());
    Ok(Bytes::new(bytes))
}

/// What the leg at this place does with a packet of its publisher that comes on this turn, and was read so.
pub fn plan_packet(
    leg: &LegState,
    alloc: Global,
    place: u16,
    turn: u64,
    packet: &SharedPacket,
    reading: PacketParts,
    plan: &mut Plan,
) -> Result<Planned, AllocError>
    requires read { IsReadAs packet.now reading }
    ensures ok { IfOk result (λ planned. planned
        ≡ packet_planned place leg.now turn packet.now
        (answer_to leg.now.numbers turn (sequence_number packet.now))) }
    ensures plan { plan.new ≡ plan.old }
{
    let mut numbers = leg.numbers;
    match numbers.next(turn, reading.sequence_number) {
        Ok(number) => {
            let (ssrc, seq) = (leg.link.out_ssrc, (number % SEQ_CYCLE) as u16);
            let kept = Readdressed::new(packet.share()?, ssrc, seq);
            let bytes = bytes_of(&kept, alloc, plan)?;
            Ok(Planned {
                out: Out::Send {
                    endpoint: leg.link.subscriber,
                    bytes,
                },
                change: Change::Keep {
                    place,
                    numbers,
                    number,
                    octets: reading.octets,
                    packet: kept,
                },
            })
        }
        Err(skip) => Ok(Planned {
            out: Out::Skip(leg.number, skip),
            change: Change::Nothing,
        }),
    }
}

/// What the leg at this place does if a packet with this sequence number is wanted again.
fn plan_again(
    leg: &LegState,
    alloc: Global,
    place: u16,
    seq: u16,
    plan: &mut Plan,
) -> Result<Planned, AllocError>
    ensures ok { IfOk result (λ planned. planned
        ≡ resend_planned place leg.now seq (last_kept_with leg.now.kept.items seq)) }
    ensures plan { plan.new ≡ plan.old }
{
    match leg.kept.latest(seq) {
        Some(packet) => {
            let bytes = bytes_of(packet, alloc, plan)?;
            Ok(Planned {
                out: Out::Send {
                    endpoint: leg.link.subscriber,
                    bytes,
                },
                change: Change::Count {
                    place,
                    octets: packet.octets(),
                },
            })
        }
        None => Ok(Planned {
            out: Out::Miss(leg.number, seq),
            change: Change::Nothing,
        }),
    }
}

/// Plans what the leg at this place does if packets with these sequence numbers are wanted again.
pub fn plan_resends(
    leg: &LegState,
    alloc: Global,
    place: u16,
    numbers: &[u16],
    plan: &mut Plan,
) -> Result<(), AllocError>
    ensures { OnOk result (plan.new ≡ plan.old ++ resends place leg.now numbers.now) }
{
    for seq in numbers {
        let planned = plan_again(leg, alloc, place, *seq, plan)?;
        plan.push(planned)?;
    }
    Ok(())
}

/// These bytes go to the leg's subscriber, and no leg changes.
fn sent_alone(leg: &LegState, bytes: Vec<u8>) -> Planned
    ensures { result ≡ sent_alone leg.now.link.subscriber bytes.items }
{
    Planned {
        out: Out::Send {
            endpoint: leg.link.subscriber,
            bytes: Bytes::new(bytes),
        },
        change: Change::Nothing,
    }
}

/// The bytes of the report of the leg's source, with its name, by the NTP and RTP timestamps of a sender report of its publisher.
fn report_bytes(
    leg: &LegState,
    alloc: Global,
    sr: Option<(u64, u32)>,
) -> Result<Vec<u8>, AllocError>
    ensures { IfOk result (λ bytes. bytes.items ≡ leg_report_bytes leg.now sr) }
{
    let source = leg.link.out_ssrc;
    let mut bytes = Vec::new(alloc);
    match sr {
        Some((ntp, rtp)) => write_sr(&mut bytes, source, ntp, rtp, leg.packets, leg.octets, &[])?,
        None => write_rr(&mut bytes, source, &[])?,
    }
    write_sdes_cname(&mut bytes, source, leg.cname.as_bytes())?;
    Ok(bytes)
}

/// The report of the leg's source, by the NTP and RTP timestamps of a sender report of its publisher.
pub fn plan_report(
    leg: &LegState,
    alloc: Global,
    sr: Option<(u64, u32)>,
) -> Result<Planned, AllocError>
    ensures { IfOk result (λ planned. planned
        ≡ sent_alone leg.now.link.subscriber (leg_report_bytes leg.now sr)) }
{
    let bytes = report_bytes(leg, alloc, sr)?;
    Ok(sent_alone(leg, bytes))
}

/// The goodbye of the leg's source.
pub fn plan_goodbye(leg: &LegState, alloc: Global) -> Result<Planned, AllocError>
    ensures { IfOk result (λ planned. planned
        ≡ sent_alone leg.now.link.subscriber (leg_goodbye_bytes leg.now)) }
{
    let mut bytes = report_bytes(leg, alloc, None)?;
    write_bye(&mut bytes, &[leg.link.out_ssrc])?;
    Ok(sent_alone(leg, bytes))
}
