//! What is said to people beside the line that scripts read, if a command had no settings or no socket.

use addresses::{ServedSettings, read_served};
use cli::{Action, Status, bytes_in, explain_replay, read_words, settings_line};
use settings_toml::{SettingsProblem, bind_advice};
use std::alloc::{AllocError, Global};
use std::convert::AsStr;
use std::io::{ErrorKind, Write};
use std::net::{Net, SocketAddr, UdpSocket};
use std::rt::Files;

/// After a command with these words ended so, says on the error output which line of the settings file is wrong and what may stand there. Or
/// which socket can't be had, and why. The file is read again, and the sockets are tried again: if all is well by now, nothing is said.
pub fn explain<R: AllocGlobal + Files + Net, S: AsStr, E: Write>(
    rt: &R,
    words: &[S],
    status: Status,
    errors: &mut E,
) {
    if status != Status::Settings && status != Status::Socket {
        return;
    }
    match read_words(rt.alloc(), words) {
        Ok(Action::Replay { file, .. }) => explain_replay(rt, file, status, errors),
        Ok(Action::Serve { file, .. } | Action::Sdp { file, .. } | Action::Settings { file }) => {
            explain_unit(rt, file, status, errors);
        }
        _ => {}
    }
}

/// The same of a unit with the settings of this file.
fn explain_unit<R: AllocGlobal + Files + Net, E: Write>(
    rt: &R,
    file: &str,
    status: Status,
    errors: &mut E,
) {
    let line = if status == Status::Settings {
        settings_line(rt, file, served_problem)
    } else {
        explain_sockets(rt, file)
    };
    if let Ok(line) = line {
        let _ = errors.write_all(line.as_bytes());
    }
}

/// What is wrong with the settings of a unit that these bytes spell.
fn served_problem(alloc: Global, bytes: &[u8]) -> Option<SettingsProblem> {
    read_served(alloc, bytes).err()
}

/// Which socket of a unit can't be had.
fn explain_sockets<R: AllocGlobal + Files + Net>(rt: &R, file: &str) -> Result<String, AllocError> {
    let alloc = rt.alloc();
    match served_again(rt, file) {
        Some(served) => match unbound(rt, &served) {
            Some((address, kind)) => bind_advice(alloc, address, kind),
            None => Ok(String::new(alloc)),
        },
        None => Ok(String::new(alloc)),
    }
}

/// The settings of the file, if it has any.
fn served_again<R: AllocGlobal + Files>(rt: &R, file: &str) -> Option<ServedSettings> {
    let bytes = bytes_in(rt, file).ok()?;
    read_served(rt.alloc(), bytes.as_slice()).ok()
}

/// The first address of a unit that can't be bound, and why.
fn unbound<R: Net>(rt: &R, served: &ServedSettings) -> Option<(SocketAddr, ErrorKind)> {
    let media = served.listen.media;
    let _held = match UdpSocket::bind(rt, media) {
        Ok(socket) => socket,
        Err(error) => return Some((media, error.kind())),
    };
    let rtcp = served.listen.rtcp?;
    match UdpSocket::bind(rt, rtcp) {
        Ok(_) => None,
        Err(error) => Some((rtcp, error.kind())),
    }
}
