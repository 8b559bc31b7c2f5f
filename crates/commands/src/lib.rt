//! The commands of `sfu`: the words that ask for them, and what each does with which file.
//!
//! Read `command` first, `run_command`, which the program calls as `run_metered`. Then `ask` and `ask_record`, which are `sfu ask` (over a
//! `connection`), `description`, `sfu sdp`, and `plan`, `sfu settings`, by the settings that `served` reads. `numbers` are those with which legs begin after a start. `explaining` says to people what was wrong. The words, the
//! commands that need no unit, and how a command ends are `cli`; `sfu replay` is `replay`, `sfu serve` `serving`, `sfu page` `web`. What callers
//! need of these is handed on.
#![tactic(auto)]

mod ask;
mod ask_record;
mod command;
mod connection;
mod description;
mod explaining;
mod numbers;
mod plan;
mod served;

pub use ask::run_ask;
pub use cli::{
    Cleared, Failure, Status, check_lines, report, report_settings, report_words, run_version,
};
pub use command::{run_command, run_metered};
pub use description::run_sdp;
pub use explaining::explain;
pub use plan::run_settings;
pub use replay::replay_lines;
pub use request_text::{LineFault, Meter};
pub use serving::{
    AddressKey, Addresses, Client, ClientFault, ErrorOutput, Listening, Location, Pace, Rules,
    RunStatus, ServeFault, ServedSettings, Sockets, read_clients, read_served, run_on, serve_on,
    serve_socket, serve_watched,
};
pub use settings_toml::{ClientText, FileSettings, SettingsProblem, problem_line, read_settings};
