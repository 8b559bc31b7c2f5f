//! What waits for the ingress.

use crate::seed::Seed;
use events::SharedPacket;
use legs::Plan;
use members::Order;
use shared_packet::PacketParts;
use std::alloc::{AllocError, Global};
use std::mem;

/// What waits for the ingress, oldest first: orders of the room; then what follows from the datagram or the moment that was
/// taken in. Nothing is taken in while anything waits, so the orders are of one call of the room, and packets to be
/// pushed are of one datagram.
#[derive(Drop)]
pub(crate) struct Tasks {
    pub(crate) orders: Vec<Order>,
    /// How many of the orders are done.
    pub(crate) orders_done: usize,
    pub(crate) follow_ups: Vec<FollowUp>,
    /// How many of the follow-ups are done.
    pub(crate) follow_ups_done: usize,
    /// The datagram that a packet to be pushed is of.
    pub(crate) datagram: SharedPacket,
}

/// What follows from a datagram or a moment.
#[derive(Clone, Copy, PartialEq, Eq)]
pub(crate) enum FollowUp {
    /// The worker gets the job of this seed.
    Push { worker: u16, seed: Seed },
    /// The desk of this publisher is told the moment, for its PLIs.
    Pulse(u16),
    /// The desk of this publisher is told the moment, for requests that are too old.
    Expire(u16),
    /// This publisher is sent a report.
    Report(u16),
}

/// The oldest task.
#[derive(Clone, Copy, PartialEq, Eq)]
pub(crate) enum NextTask {
    Order(Order),
    FollowUp(FollowUp),
}

impl Tasks {
    ghost use Rattle.std.specs.Prelude.{◌≡◌, ◌+◌, ◌^◌, ◌<◌, ◌≤◌, [], ◌∷◌, length, drop, MatchOption, OnOk, vec_len, vec_capacity};
    ghost use Rattle.core_steps.specs.Machine.{tasks_of, task_in};
    ghost use Rattle.core_steps.specs.Rule.{is_empty};
    ghost use Rattle.shared_packet.specs.Rtp.{IsReadAs};

    /// Nothing waits.
    pub(crate) fn new(alloc: Global) -> Tasks
        ensures { tasks_of result ≡ [] }
    {
        Tasks {
            orders: Vec::new(alloc),
            orders_done: 0,
            follow_ups: Vec::new(alloc),
            follow_ups_done: 0,
            datagram: SharedPacket::none(),
        }
    }

    /// Makes room for so many follow-ups, while nothing waits.
    pub(crate) fn prepare(&mut self, follow_ups: usize) -> Result<(), AllocError>
        ensures orders { self.new.orders.items ≡ [] }
        ensures orders_done { self.new.orders_done ≡ 0 }
        ensures follow_ups { self.new.follow_ups.items ≡ [] }
        ensures follow_ups_done { self.new.follow_ups_done ≡ 0 }
        ensures len { vec_len self.new.follow_ups ≡ 0 }
        ensures room { OnOk result (follow_ups ≤ vec_capacity self.new.follow_ups) }
    {
        self.orders.clear();
        self.orders_done = 0;
        self.follow_ups.clear();
        self.follow_ups_done = 0;
        self.follow_ups.reserve(follow_ups)
    }

    /// Keeps a copy of the datagram that packets to be pushed are of, which was read so, while nothing waits; the plan lends memory for it.
    pub(crate) fn copy_datagram(
        &mut self,
        alloc: Global,
        bytes: &[u8],
        reading: PacketParts,
        plan: &mut Plan,
    ) -> Result<(), AllocError>
        requires read { IsReadAs bytes.now reading }
        ensures datagram { OnOk result (self.new.datagram ≡ bytes.now) }
        ensures orders { self.new.orders ≡ self.old.orders }
        ensures orders_done { self.new.orders_done ≡ self.old.orders_done }
        ensures follow_ups { self.new.follow_ups ≡ self.old.follow_ups }
        ensures follow_ups_done { self.new.follow_ups_done ≡ self.old.follow_ups_done }
    {
        let former = mem::replace(&mut self.datagram, SharedPacket::none());
        let copy = plan.copy_packet(alloc, bytes, former.into_bytes())?;
        self.datagram = SharedPacket::new(copy, reading);
        Ok(())
    }

    /// How many wait.
    pub(crate) fn count(&self) -> usize
        ensures value { result ≡ length (tasks_of self.now) }
        ensures less { result + 1 < 2 ^ 64 }
    {
        let orders = self.orders.len().saturating_sub(self.orders_done);
        orders + self.follow_ups.len().saturating_sub(self.follow_ups_done)
    }

    /// Whether nothing waits.
    pub(crate) fn is_empty(&self) -> bool
        ensures { result ≡ is_empty (tasks_of self.now) }
    {
        self.oldest().is_none()
    }

    /// The oldest that waits.
    pub(crate) fn oldest(&self) -> Option<NextTask>
        ensures { MatchOption result (tasks_of self.now ≡ [])
            (λ next. tasks_of self.now
            ≡ task_in self.now.datagram next ∷ drop 1 (tasks_of self.now)) }
    {
        if self.orders_done < self.orders.len() {
            return Some(NextTask::Order(self.orders[self.orders_done]));
        }
        if self.follow_ups_done < self.follow_ups.len() {
            return Some(NextTask::FollowUp(self.follow_ups[self.follow_ups_done]));
        }
        None
    }

    /// The oldest is done.
    pub(crate) fn finish(&mut self)
        ensures tasks { tasks_of self.new ≡ drop 1 (tasks_of self.old) }
        ensures datagram { self.new.datagram ≡ self.old.datagram }
    {
        if self.orders_done < self.orders.len() {
            self.orders_done += 1;
        } else if self.follow_ups_done < self.follow_ups.len() {
            self.follow_ups_done += 1;
        }
    }
}
