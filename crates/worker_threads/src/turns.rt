//! The turns of the ingress: one receive and one tick each.

use crate::fault::UnitFault;
use crate::faults::Faults;
use crate::ingress::Ingress;
use entrance::{Admitted, Came, Entrance};
use ports::{Sink, Watch};
use rate_desk::{DeskCalls, SeatCalls};
use routes::Naming;
use std::sync::Wait;

/// What the turns take from outside.
#[derive(Drop)]
pub struct Inlet<E: Drop, W: Drop> {
    entrance: E,
    watch: W,
    faults: Faults,
}

impl<E: Entrance + Drop, W: Watch + Drop> Inlet<E, W> {
    /// The entrance and the watch of a run.
    pub fn new(entrance: E, watch: W) -> Inlet<E, W> {
        Inlet {
            entrance,
            watch,
            faults: Faults::new(),
        }
    }

    /// Makes so many turns, if all workers were started.
    pub(crate) fn run_started<D: DeskCalls, C: SeatCalls, J: Naming, S: Sink + Drop, R: Wait>(
        &mut self,
        rt: &R,
        ingress: &mut Ingress<'_, D, C, J, S>,
        started: Result<(), UnitFault>,
        turns: u64,
    ) -> Result<(), UnitFault> {
        match started {
            Ok(()) => self.run(rt, ingress, turns),
            Err(fault) => Err(fault),
        }
    }

    /// Makes so many turns, fewer if a stop comes: then that turn is the last. Ends early if memory is wanting or too many
    /// receives in a row fail.
    fn run<D: DeskCalls, C: SeatCalls, J: Naming, S: Sink + Drop, R: Wait>(
        &mut self,
        rt: &R,
        ingress: &mut Ingress<'_, D, C, J, S>,
        turns: u64,
    ) -> Result<(), UnitFault> {
        for _turn in 0..turns {
            if self.turn(rt, ingress)? {
                return Ok(());
            }
        }
        Ok(())
    }

    /// Takes in what the entrance lets in, then ticks if a tick is due, and tells the entrance of it. Says whether a stop came.
    fn turn<D: DeskCalls, C: SeatCalls, J: Naming, S: Sink + Drop, R: Wait>(
        &mut self,
        rt: &R,
        ingress: &mut Ingress<'_, D, C, J, S>,
    ) -> Result<bool, UnitFault> {
        let Came { moment, admitted } = self.entrance.receive(ingress.core.view())?;
        self.faults.note(&admitted);
        match admitted {
            Ok(Admitted::Taking) => ingress.take(rt, moment, self.entrance.taking())?,
            Ok(Admitted::Select { leg, on }) => ingress.select(rt, moment, leg, on)?,
            Ok(Admitted::Nothing | Admitted::Stop) | Err(_) => {}
        }
        if ingress.tick(rt, moment)? {
            self.entrance.ticked(moment);
        }
        if self.watch.is_due(moment) {
            self.watch.show(moment, &ingress.counts.status());
        }
        ingress.show_room(rt, &mut self.watch);
        if self.faults.are_too_many() {
            return Err(UnitFault::Receive);
        }
        Ok(matches!(admitted, Ok(Admitted::Stop)))
    }
}
