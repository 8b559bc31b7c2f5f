//! Settings, clients and runs of a unit on sockets of the loopback interface, for tests.
use serving::{Client, Pace, Rules, RunStatus, Sockets, run_on};
use settings::Settings;
use settings_toml::read_settings;
use std::alloc::Global;
use std::net::UdpSocket;
use std::sync::Wait;
use std::test::Fail;
use std::thread::Threads;
use std::time::Clock;
use workers::{Report, Watch};

/// What a port of nobody's choice is bound by.
pub(crate) const ANY_PORT: &str = "127.0.0.1:0";

/// The settings that a text has.
pub(crate) fn settings_in(alloc: Global, text: &str) -> Result<Settings, Fail> {
    match read_settings(alloc, text.as_bytes()) {
        Ok(file) => Ok(file.settings),
        Err(_) => Err(Fail::from("settings")),
    }
}

/// A client at this socket, for RTCP too.
pub(crate) fn client_at(socket: &UdpSocket) -> Result<Client, Fail> {
    Ok(Client::at(socket.local_addr()?))
}

/// What a run of the unit on these sockets comes to, while this looks on.
pub(crate) fn ran<W: Watch + Drop>(
    rt: &(impl AllocGlobal + Threads + Wait + Sync + Clock),
    sockets: Sockets<'_>,
    settings: &Settings,
    clients: &[Client],
    pace: Pace,
    run_status: &RunStatus,
    watch: W,
) -> Result<Report, Fail> {
    match run_on(
        rt,
        sockets,
        settings,
        clients,
        Rules::none(),
        pace,
        run_status,
        watch,
    ) {
        Ok(report) => Ok(report),
        Err(_) => Err(Fail::from("served")),
    }
}
