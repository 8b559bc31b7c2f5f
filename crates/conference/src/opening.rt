//! A conference of a settings text.

ghost use Rattle.std.specs.Prelude.{IfErr, IfOk};
ghost use Rattle.conference.specs.Conference.{OpensBy, RefusesToOpen};

use crate::conference::Conference;
use crate::fault::OpenFault;
use settings_toml::{SettingsProblem, read_settings};
use std::alloc::Global;

impl Conference {
    /// The conference of the settings that a text spells, as `sfu replay` reads them. By the key `entry_limit` `hear_limited` hears so many entries
    /// of one datagram's feedback, as `sfu serve` does.
    ///
    /// Refused as `NoMemory`; as `Settings`, if the text isn't settings, with its first fault; as `Workers`, if they have more
    /// workers than one.
    pub fn open(alloc: Global, text: &[u8]) -> Result<Conference, OpenFault>
        ensures ok { IfOk result (OpensBy text.now) }
        ensures err { IfErr result (RefusesToOpen text.now) }
    {
        let file = match read_settings(alloc, text) {
            Ok(file) => file,
            Err(SettingsProblem::NoMemory) => return Err(OpenFault::NoMemory),
            Err(problem) => return Err(OpenFault::Settings(problem)),
        };
        let workers = file.settings.workers();
        if workers != 1 {
            return Err(OpenFault::Workers(workers));
        }
        match Conference::with_entry_limit(alloc, &file.settings, file.bounds.entry_limit) {
            Ok(conference) => Ok(conference),
            Err(_) => Err(OpenFault::NoMemory),
        }
    }
}
