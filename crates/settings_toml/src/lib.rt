//! The settings of a room as TOML text: which settings a text gives, or its first fault, and what is said of one, to scripts and to people.
//!
//! Read `settings_file` first, then `advice`. `settings_keys` has the keys and the order of faults, `bound_keys` those of bounds, `tick_key` that of the
//! unit's pace, `name_key` that of an endpoint's name, `seat_names` names the seats of clients whose SSRCs are learned, and `values` takes values out of a table; `begun` reads settings whose legs begin with other numbers; `formats` looks at payload types, and
//! `problem_text` is the line that scripts read. Of the line for people `wanted` says what may stand
//! at each key, `finding` where a key stands in the file, `noticed` what else its document has there, `misspelt` (over `distance`) which key is meant
//! by one that there isn't, and `reaching` why a unit can't send to an address; `lines` has the forms of a line. `laws` says that the keys
//! people are told of are those that settings are read with.
#![tactic(auto)]

mod advice;
mod begun;
mod bound_keys;
mod distance;
mod finding;
mod formats;
mod laws;
mod lines;
mod misspelt;
mod name_key;
mod noticed;
mod problem_text;
mod reaching;
mod seat_names;
mod settings_file;
mod settings_keys;
mod tick_key;
mod values;
mod wanted;

pub use advice::{bind_advice, file_advice, settings_advice};
pub use begun::read_begun;
pub use bound_keys::{
    BoundKeys, ENTRIES, FLOODS, GAPS_MS, LEAST_REPEAT_MS, LEAST_STALL_MS, REPEATS_MS, SHARES,
    STALLS_MS,
};
pub use formats::{has_stray, payload_type};
pub use laws::keys_are_those_of_settings;
pub use name_key::MOST_NAME;
pub use problem_text::problem_line;
pub use seat_names::learns_ssrc;
pub use settings_file::{ClientText, FileSettings, SettingsProblem, problem_at, read_settings};
pub use settings_keys::{Place, items_at};
pub use tick_key::{MOST_TICK_MS, TICK_MS};
