//! Who looks at a unit that runs, steers it and records it.
//!
//! Read `run_status` first, what a run shows, and what peers want of it. `control_socket` is where a unit is steered, `steering` who does that,
//! `steered` how they see the room, `report_answers` texts of answers, `metrics_text` the unit's metrics. `unit_info` is what endpoints are
//! called, with the clocks of what they send (`clock_rate`). `following` is who is told what happens, `diagnosing` what is known of why nothing
//! comes on a leg (`diagnosis`), `changes` what is said of that unasked. `record_file` opens what a record of the unit goes to (`recording`).
//! `number_keeper` notes with which numbers legs begin after the next start (`leg_numbers`). `status_lines` are the lines of counts and those
//! beside them, and `lines` are written by a thread for which nobody waits, after the time of day (`wall_time`).
#![tactic(auto)]

mod changes;
mod clock_rate;
mod control_socket;
mod diagnosing;
mod following;
mod lines;
mod metrics_text;
mod number_keeper;
mod record_file;
mod replaced_file;
mod report_answers;
mod run_status;
mod status_lines;
mod steered;
mod steering;
mod unit_info;
mod wall_time;

pub use control_socket::{close_control, open_control};
pub use leg_numbers::NumbersFault;
pub use lines::{ErrorOutput, Lines, TimedLines};
pub use number_keeper::{NumberKeeper, open_numbers};
pub use record_file::{close_record, open_next_record, open_record};
pub use recording::{
    ControlFault, Origin, RECORD_LIMIT, RecordFault, Recorder, Taken, WriterFault,
};
pub use replaced_file::ReplacedFile;
pub use run_status::RunStatus;
pub use status_lines::{ControlLines, StatusLines};
pub use steered::SteeredWatch;
pub use steering::{EndpointInfo, Steering};
pub use unit_info::UnitInfo;
pub use wall_time::time_text;
