//! The settings of a unit, with all addresses, and what its record says of them.

ghost use Rattle.std.specs.Prelude.{◌≡◌, IfOk, OnOk};
ghost use Rattle.commands.specs.Planned.{AreOfText};
ghost use Rattle.settings_toml.specs.Begun.{BeginsWith};

use replay::unreadable_settings;
use serving::{ServedSettings, read_served};
use settings_toml::{SettingsProblem, read_begun};
use sha2::{Digest, Sha256};
use std::alloc::Global;
use std::fs;
use std::io::Read;
use std::rt::Files;

/// The settings of a file, its bytes and their SHA-256.
#[derive(Drop)]
pub(crate) struct ServedFile {
    pub(crate) settings: ServedSettings,
    pub(crate) digest: [u8; 32],
    /// With which number each leg begins, by the leg's own number, if not as the file says; else none.
    pub(crate) first: Vec<u16>,
    text: Vec<u8>,
}

impl ServedFile {
    /// Has the legs begin with these numbers, by the legs' own numbers. A refusal, for want of memory, leaves the settings as they are.
    pub(crate) fn begin_with(
        &mut self,
        alloc: Global,
        first: Vec<u16>,
    ) -> Result<(), SettingsProblem>
        ensures begins { OnOk result
            (BeginsWith self.old.text.items first.items self.new.settings.settings) }
        ensures first { OnOk result (self.new.first ≡ first) }
    {
        let settings = read_begun(alloc, self.text.as_slice(), first.as_slice())?;
        self.settings.settings = settings;
        self.first = first;
        Ok(())
    }
}

/// The settings that a file holds, with all addresses.
pub(crate) fn served_in<R: AllocGlobal + Files>(
    rt: &R,
    file: &str,
) -> Result<ServedFile, SettingsProblem>
    ensures { IfOk result (λ file. AreOfText file.settings.settings) }
{
    match fs::open(rt, file) {
        Ok(mut file) => served_from(rt.alloc(), &mut file),
        Err(error) => Err(unreadable_settings(&error)),
    }
}

/// The settings that a reader holds, with all addresses.
fn served_from<I: Read>(alloc: Global, file: &mut I) -> Result<ServedFile, SettingsProblem>
    ensures { IfOk result (λ file. AreOfText file.settings.settings) }
{
    let mut text = Vec::new(alloc);
    match file.read_to_end(&mut text) {
        Ok(_) => Ok(ServedFile {
            settings: read_served(alloc, text.as_slice())?,
            digest: Sha256::digest(text.as_slice()),
            first: Vec::new(alloc),
            text,
        }),
        Err(error) => Err(unreadable_settings(&error)),
    }
}
