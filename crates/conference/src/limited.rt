//! A datagram of whose feedback no more than so many entries are heard.

ghost use Rattle.std.specs.Prelude.{◌≡◌, length, IfErr, OnErr, OnOk};
ghost use Rattle.desk_calls.specs.DeskCalls.{source_of};
ghost use Rattle.datagram.specs.Reads.{IsPacketRead};
ghost use Rattle.core_steps.specs.Run.{Stays};
ghost use Rattle.one_thread.specs.Driving.{IsIdle};
ghost use Rattle.conference.specs.Conference.{DrivesLimited, StopsLimited};
ghost use Rattle.conference.specs.Limited.{IsTakenFor, RunsLimited, TakesLimited, admitted, limit_of, most_by};

use crate::conference::finish;
use crate::fault::EventFault;
use core_steps::{World, take};
use datagram::{Reading, is_sayable, read};
use entrance::own_source;
use events::Out;
use std::alloc::{AllocError, Global};
use tmmbr_tuple::Ssrc;

/// How many entries of one datagram's feedback are heard, and how many were passed over.
#[derive(Drop)]
pub(crate) struct Limit {
    /// All, if it is `None`.
    most: Option<usize>,
    /// Where a datagram is read.
    reading: Reading,
    /// Stays at `u64::MAX` once there.
    pub(crate) beyond: u64,
}

/// How many are heard by this key of the settings: all, if it is 0.
fn most_by(entry_limit: u32) -> Option<usize>
    ensures { result ≡ most_by entry_limit }
{
    if entry_limit == 0 {
        None
    } else {
        Some(entry_limit as usize)
    }
}

impl Limit {
    ghost use Rattle.std.specs.Prelude.{◌≡◌, OnOk};
    ghost use Rattle.datagram.specs.Reads.{IsPacketRead, IsReadUpTo};
    ghost use Rattle.conference.specs.Limited.{IsTakenFor, admitted, limit_by, limit_of, passing};

    /// By this key of the settings.
    pub(crate) fn by(alloc: Global, entry_limit: u32) -> Limit
        ensures { limit_of result ≡ limit_by entry_limit }
    {
        Limit {
            most: most_by(entry_limit),
            reading: Reading::new(alloc),
            beyond: 0,
        }
    }

    /// Reads so much of a datagram of the endpoint with this source as is heard.
    fn read(&mut self, own: Ssrc, bytes: &[u8]) -> Result<(), AllocError>
        ensures read { OnOk result (IsReadUpTo own.0 bytes.now self.new.most self.new.reading) }
        ensures packet { OnOk result (IsPacketRead bytes.now self.new.reading.what) }
        ensures stays { limit_of self.new ≡ limit_of self.old }
    {
        read(bytes, own, self.most, &mut self.reading)
    }

    /// What was read is said by what is heard for the datagram. This compiles to nothing.
    #[tactic(auto, using(crate::proofs::LimitedLemmas::taken_for, datagram::proofs::SpellingLemmas::read_up_to))]
    fn is_said(&self, own: Ssrc, endpoint: u16, bytes: &[u8])
        requires { IsReadUpTo own.0 bytes.now self.now.most self.now.reading }
        ensures { IsTakenFor self.now.most own.0 bytes.now
            (admitted endpoint self.now.reading bytes.now) self.now.reading.beyond }
    {
        is_sayable(own, self.reading.what, self.reading.asks.as_slice(), bytes);
    }

    /// The entries that were passed over are counted.
    fn count(&mut self)
        ensures { limit_of self.new ≡ passing (limit_of self.old) self.old.reading.beyond }
    {
        self.beyond = self.beyond.saturating_add(self.reading.beyond);
    }
}

/// What was read of a datagram is taken in: what is heard for it.
fn take_read(
    world: &mut World,
    moment: u64,
    endpoint: u16,
    bytes: &[u8],
    limit: &Limit,
    outs: &mut Vec<Out>,
) -> Result<(), AllocError>
    requires taken { IsTakenFor limit.now.most (source_of world.old.setup.table endpoint).0
        bytes.now (admitted endpoint limit.now.reading bytes.now) limit.now.reading.beyond }
    requires packet { IsPacketRead bytes.now limit.now.reading.what }
    ensures ok { OnOk result (RunsLimited moment endpoint bytes.now limit.now.most
        limit.now.reading.beyond world.old outs.old.items world.new outs.new.items) }
    ensures err { OnErr result (Stays world.old outs.old.items world.new outs.new.items) }
{
    take(world, moment, limit.reading.taking(endpoint, bytes), outs)
}

/// A datagram is read up to the limit and taken in, and the entries that are passed over are counted.
#[tactic(auto, using(crate::proofs::LimitedLemmas::takes_limited))]
fn take_counted(
    world: &mut World,
    moment: u64,
    endpoint: u16,
    bytes: &[u8],
    limit: &mut Limit,
    outs: &mut Vec<Out>,
) -> Result<(), AllocError>
    ensures ok { OnOk result (TakesLimited moment endpoint bytes.now (limit_of limit.old)
        (limit_of limit.new) world.old outs.old.items world.new outs.new.items) }
    ensures err { OnErr result (Stays world.old outs.old.items world.new outs.new.items
        × (limit_of limit.new ≡ limit_of limit.old)) }
{
    let own = own_source(world.view().links, endpoint);
    limit.read(own, bytes)?;
    limit.is_said(own, endpoint, bytes);
    take_read(world, moment, endpoint, bytes, limit, outs)?;
    limit.count();
    Ok(())
}

/// A datagram of this endpoint is heard up to the limit, which finds nothing waiting, and all that follows from it is done.
#[tactic(auto, using(crate::proofs::LimitedLemmas::drives_limited, crate::proofs::LimitedLemmas::limited_count))]
pub(crate) fn do_limited(
    world: &mut World,
    moment: u64,
    endpoint: u16,
    bytes: &[u8],
    limit: &mut Limit,
    outs: &mut Vec<Out>,
) -> Result<(), EventFault>
    requires one { length world.old.workers ≡ 1 }
    requires idle { IsIdle world.old }
    ensures ok { OnOk result (DrivesLimited moment endpoint bytes.now (limit_of limit.old)
        (limit_of limit.new) world.old outs.old.items world.new outs.new.items) }
    ensures idle { OnOk result (IsIdle world.new) }
    ensures one { length world.new.workers ≡ 1 }
    ensures err { IfErr result (StopsLimited moment endpoint bytes.now (limit_of limit.old)
        (limit_of limit.new) world.old outs.old.items world.new outs.new.items) }
{
    if take_counted(world, moment, endpoint, bytes, limit, outs).is_err() {
        return Err(EventFault::NoMemory);
    }
    finish(world, outs)
}
