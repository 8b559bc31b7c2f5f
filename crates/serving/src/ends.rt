//! What a run stands between: where datagrams come from and go to, and who looks at it.

use crate::repeated::RepeatingWatch;
use crate::serve_fault::ServeFault;
use addresses::{Client, Directory};
use operations::{RunStatus, SteeredWatch};
use policy::{AnnouncedSets, Rules};
use settings::Settings;
use stats::Traffic;
use std::alloc::{AllocError, Global};
use std::cell::RefCell;
use std::time;
use udp::{Door, Outlook, SocketSink, Sockets};
use workers::Watch;

/// What all threads of a run look at: where endpoints are, and what came and went.
#[derive(Drop)]
pub(crate) struct Common {
    pub(crate) directory: Directory,
    pub(crate) traffic: Traffic,
    /// What publishers are asked for again.
    pub(crate) sets: RefCell<AnnouncedSets>,
}

impl Common {
    /// Those of a run that begins.
    pub(crate) fn new(
        alloc: Global,
        settings: &Settings,
        clients: &[Client],
        rules: Rules,
    ) -> Result<Common, AllocError> {
        let sets = AnnouncedSets::new(alloc, settings.endpoints().len(), rules.repeat_ms)?;
        Ok(Common {
            directory: Directory::new(alloc, settings.endpoints(), clients)?,
            traffic: Traffic::new(alloc, settings)?,
            sets: RefCell::new(sets),
        })
    }
}

/// What a run stands between: sockets, and the clients there; and by which rules what comes is looked at.
#[derive(Clone, Copy)]
pub(crate) struct Ends<'a> {
    pub(crate) sockets: Sockets<'a>,
    pub(crate) clients: &'a [Client],
    pub(crate) rules: Rules,
    pub(crate) common: &'a Common,
}

/// Where what comes to the sockets is let in, by these rules.
pub(crate) fn door_on<'a, R: AllocGlobal + time::Clock>(
    rt: &'a R,
    ends: Ends<'a>,
    settings: &'a Settings,
    run_status: &'a RunStatus,
) -> Result<Door<'a, R>, ServeFault> {
    let Ends {
        sockets,
        clients,
        rules,
        common,
    } = ends;
    let Ok(listening) = sockets.listening() else {
        return Err(ServeFault::Socket);
    };
    let Common {
        directory,
        traffic,
        sets,
    } = common;
    let outlook = Outlook {
        directory,
        run_status,
        traffic,
        sets,
    };
    let door = Door::new(
        rt.alloc(),
        rt,
        sockets,
        listening,
        settings,
        clients,
        rules,
        outlook,
    )?;
    Ok(door)
}

/// Who looks at the run: this watch, what peers are shown beside, and who looks at desks so that publishers are asked again.
pub(crate) fn watch_on<'a, W: Watch + Drop>(
    alloc: Global,
    ends: Ends<'a>,
    settings: &Settings,
    run_status: &'a RunStatus,
    watch: W,
) -> Result<RepeatingWatch<'a, SteeredWatch<'a, W>>, AllocError> {
    let Common {
        directory,
        traffic,
        sets,
        ..
    } = ends.common;
    let watch = SteeredWatch {
        watch,
        run_status,
        traffic,
        directory,
    };
    let sink = SocketSink::new(alloc, ends.sockets, directory, traffic);
    RepeatingWatch::new(alloc, settings, sink, sets, &run_status.moment_ms, watch)
}
