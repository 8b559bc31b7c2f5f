//! What the machine and a driver of its own both hold: the room, and what waits for the ingress.

ghost use Rattle.std.specs.Prelude.{◌≡◌, ◌<◌, ◌^◌, IfOk};
ghost use Rattle.core_steps.specs.Duties.{new_ingress};
ghost use Rattle.core_steps.specs.Machine.{setup_of};
ghost use Rattle.core_steps.specs.Opening.{setup_by};

use crate::rounds::{Pace, Round};
use crate::tasks::Tasks;
use desk_calls::Head;
use legs::Plan;
use members::Room;
use settings::{LegRules, Links, Settings};
use std::alloc::{AllocError, Global};

/// What takes in datagrams, moments and selections, and reports upstream. The machine holds one beside its desks, rows and
/// workers; a driver that has these in threads holds one alone. Contracts see it so (`alone`), or with whatever stands beside it
/// (`whole`).
#[derive(Drop)]
pub(crate) struct Front {
    pub(crate) alloc: Global,
    pub(crate) setup: Setup,
    pub(crate) room: Room,
    pub(crate) tasks: Tasks,
    pub(crate) round: Round,
    /// TMMBNs heard.
    pub(crate) tmmbns: u64,
    /// Where a job is planned; empty between events.
    pub(crate) plan: Plan,
}

/// What the settings say once and for all.
#[derive(Drop)]
pub(crate) struct Setup {
    pub(crate) links: Links,
    pub(crate) head: Head,
    /// 0 if requests never grow too old.
    pub(crate) request_ms: u64,
    pub(crate) pace: Pace,
    pub(crate) rules: LegRules,
}

/// How reports go out by these settings.
fn pace_of(settings: &Settings) -> Pace
    ensures period { result.period_ms ≡ settings.now.report_ms }
    ensures slots { result.slots ≡ settings.now.report_slots }
{
    Pace {
        period_ms: settings.report_ms(),
        slots: settings.report_slots(),
    }
}

impl Setup {
    /// What these settings say.
    fn new(alloc: Global, settings: &Settings) -> Result<Setup, AllocError>
        ensures { IfOk result (λ setup. setup_of setup ≡ setup_by settings.now) }
    {
        Ok(Setup {
            links: Links::new(alloc, settings)?,
            head: Head::new(alloc, settings.unit_ssrc(), settings.cname())?,
            request_ms: settings.request_ms(),
            pace: pace_of(settings),
            rules: settings.rules(),
        })
    }
}

impl Front {
    ghost use Rattle.core_steps.specs.Machine.{alone};
    ghost use Rattle.core_steps.specs.Rule.{is_busy};

    /// Nobody is present, and nothing waits.
    pub(crate) fn new(alloc: Global, settings: &Settings) -> Result<Front, AllocError>
        ensures { IfOk result (λ front. alone front ≡ new_ingress settings.now) }
    {
        let setup = Setup::new(alloc, settings)?;
        let room = Room::new(alloc, settings)?;
        Ok(Front {
            alloc,
            setup,
            room,
            tasks: Tasks::new(alloc),
            round: Round { began: 0, done: 0 },
            tmmbns: 0,
            plan: Plan::new(alloc),
        })
    }

    /// The count fits its type, which a contract that spells a count's limit wants to know.
    pub(crate) fn knows_count(&self)
        ensures { self.now.tmmbns < 2 ^ 64 }
    {
        let _tmmbns = self.tmmbns;
    }

    /// Whether a task waits.
    pub(crate) fn is_busy(&self) -> bool
        ensures { result ≡ is_busy (alone self.now) }
    {
        !self.tasks.is_empty()
    }
}
