//! The unit on UDP sockets (`sfu serve`).
//!
//! Read `serve` first: the sockets are bound, the unit runs, and what it came to is printed. `running` is the run itself, in one thread or with
//! a thread for each worker, and `ends` what it stands between. `repeated` is what publishers are sent again, and `report_text` what is printed
//! of a run.
#![tactic(auto)]

mod ends;
mod repeated;
mod report_text;
mod running;
mod serve;
mod serve_fault;

pub use addresses::{
    AddressKey, Addresses, Client, ClientFault, Listening, Location, Rules, ServedSettings,
    read_clients, read_served,
};
pub use operations::{
    ControlFault, EndpointInfo, ErrorOutput, NumberKeeper, NumbersFault, RECORD_LIMIT, RecordFault,
    Recorder, RunStatus, Steering, UnitInfo, close_control, close_record, open_control,
    open_next_record, open_numbers, open_record,
};
pub use running::run_on;
pub use serve::{Term, serve_file, serve_on, serve_socket, serve_watched};
pub use serve_fault::ServeFault;
pub use udp::Sockets;
pub use workers::Pace;
