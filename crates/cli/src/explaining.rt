//! What is said to people beside the line that scripts read, if a replay had no settings.

use crate::status::Status;
use settings_toml::{SettingsProblem, file_advice, read_settings, settings_advice};
use std::alloc::{AllocError, Global};
use std::fs;
use std::io::{ErrorKind, Read, Write};
use std::rt::Files;

/// If a replay ended for its settings, says on the error output which line of the file is wrong, and what may stand there. The file is read
/// again: if all is well by now, nothing is said.
pub fn explain_replay<R: AllocGlobal + Files, E: Write>(
    rt: &R,
    file: &str,
    status: Status,
    errors: &mut E,
) {
    if status != Status::Settings {
        return;
    }
    if let Ok(line) = settings_line(rt, file, read_problem) {
        let _ = errors.write_all(line.as_bytes());
    }
}

/// Which line of a settings file is wrong, by what this finds wrong with the file's bytes, and what may stand there.
pub fn settings_line<R: AllocGlobal + Files, F: FnOnce(Global, &[u8]) -> Option<SettingsProblem>>(
    rt: &R,
    file: &str,
    problem_in: F,
) -> Result<String, AllocError>
    requires { F.IsAlwaysCallable problem_in }
{
    let alloc = rt.alloc();
    let bytes = match bytes_in(rt, file) {
        Ok(bytes) => bytes,
        Err(kind) => return file_advice(alloc, file, kind),
    };
    let Ok(text) = str::from_utf8(bytes.as_slice()) else {
        return file_advice(alloc, file, ErrorKind::InvalidData);
    };
    match problem_in(alloc, bytes.as_slice()) {
        Some(problem) => settings_advice(alloc, text, &problem),
        None => Ok(String::new(alloc)),
    }
}

/// What is wrong with the settings that these bytes spell.
fn read_problem(alloc: Global, bytes: &[u8]) -> Option<SettingsProblem> {
    read_settings(alloc, bytes).err()
}

/// What a file holds.
pub fn bytes_in<R: AllocGlobal + Files>(rt: &R, file: &str) -> Result<Vec<u8>, ErrorKind> {
    let mut file = match fs::open(rt, file) {
        Ok(file) => file,
        Err(error) => return Err(error.kind()),
    };
    let mut bytes = Vec::new(rt.alloc());
    match file.read_to_end(&mut bytes) {
        Ok(_) => Ok(bytes),
        Err(error) => Err(error.kind()),
    }
}
