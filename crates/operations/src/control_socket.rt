//! The Unix socket of a unit's control.

ghost use Rattle.std.specs.Prelude.{IfOk, IsSome};

use crate::record_file::{idle_record, unix_ms};
use crate::run_status::RunStatus;
use crate::steering::{EndpointInfo, Steering};
use crate::unit_info::unit_info;
use addresses::{Location, ServedSettings};
use recording::ControlFault;
use settings::Settings;
use stats::LegLine;
use std::alloc::{AllocError, Global};
use std::fs::{self, Permissions};
use std::io::ErrorKind;
use std::net::{IpAddr, Ipv4Addr, Ipv6Addr, Net, SocketAddr};
use std::os::unix::fs::{FileTypeExt, PermissionsExt};
use std::os::unix::net::{UnixListener, UnixStream};
use std::rt::Files;
use std::thread::Threads;
use std::time;

/// Only its owner may connect to the socket.
const MODE: u32 = 0o600;

/// Listens at the path, if there is one, for a unit of these settings, which come from a file with this SHA-256, but for these first numbers of
/// its legs, if there are any. A socket file that a dead unit left is replaced.
pub fn open_control<R: AllocGlobal + Files + Net + Threads + time::Clock>(
    rt: &R,
    path: Option<&str>,
    file: &ServedSettings,
    digest: &[u8],
    first: &[u16],
) -> Result<RunStatus, ControlFault>
    ensures steered { IfOk result (λ run_status. IsSome run_status.steering) }
    ensures recorder { IfOk result (λ run_status. IsSome run_status.recorder) }
{
    let Ok(endpoints) = listed(rt.alloc(), file) else {
        return Err(ControlFault::NoMemory);
    };
    let listener = listener_at(rt, path)?;
    let Ok(legs) = legs_of(rt.alloc(), &file.settings) else {
        return Err(ControlFault::NoMemory);
    };
    let (texts, began_ms) = (file.texts.as_slice(), unix_ms(rt));
    let Ok(unit) = unit_info(rt.alloc(), texts, legs.as_slice(), began_ms) else {
        return Err(ControlFault::NoMemory);
    };
    let recorder = idle_record(rt, digest, first)?;
    match Steering::new(rt.alloc(), listener, legs, endpoints, unit) {
        Ok(steering) => Ok(RunStatus::steered(steering, recorder)),
        Err(_) => Err(ControlFault::NoMemory),
    }
}

/// Takes the socket's file away, once the unit has ended.
pub fn close_control<R: Files>(rt: &R, path: &str) {
    let _ = fs::remove_file(rt, path);
}

/// The endpoints as peers are told of them.
fn listed(alloc: Global, file: &ServedSettings) -> Result<Vec<EndpointInfo>, AllocError> {
    let mut all = Vec::new(alloc);
    for (source, client) in file.settings.endpoints().iter().zip(file.clients.iter()) {
        all.push(EndpointInfo {
            source: *source,
            address: address_at_first(client.location, file.listen.media),
            only_listens: client.receive_only,
        })?;
    }
    Ok(all)
}

/// The legs as peers are told of them, as they are selected at the start.
fn legs_of(alloc: Global, settings: &Settings) -> Result<Vec<LegLine>, AllocError> {
    let mut all = Vec::new(alloc);
    for (number, leg) in settings.legs().iter().enumerate() {
        all.push(LegLine {
            leg: u16::try_from(number).unwrap_or(u16::MAX),
            publisher: leg.publisher,
            subscriber: leg.subscriber,
            on: leg.on,
        })?;
    }
    Ok(all)
}

/// Where a client is before anything came: if its address is learned, no host's of the version that the unit listens with.
fn address_at_first(location: Location, listen: SocketAddr) -> SocketAddr {
    match location {
        Location::Fixed(addresses) => addresses.media,
        Location::Learned(_) => {
            let nobody = if listen.is_ipv4() {
                IpAddr::V4(Ipv4Addr::UNSPECIFIED)
            } else {
                IpAddr::V6(Ipv6Addr::UNSPECIFIED)
            };
            SocketAddr::new(nobody, 0)
        }
    }
}

/// A listener at the path, if there is one.
fn listener_at<R: Files + Net>(
    rt: &R,
    path: Option<&str>,
) -> Result<Option<UnixListener>, ControlFault> {
    match path {
        Some(path) => Ok(Some(listen(rt, path)?)),
        None => Ok(None),
    }
}

/// A listener at the path that waits for nobody, for its owner alone.
fn listen<R: Files + Net>(rt: &R, path: &str) -> Result<UnixListener, ControlFault> {
    let listener = bind(rt, path)?;
    let mode = Permissions::from_mode(MODE);
    if fs::set_permissions(rt, path, mode).is_err() || listener.set_nonblocking(true).is_err() {
        return Err(ControlFault::Failed);
    }
    Ok(listener)
}

/// A listener at the path.
fn bind<R: Files + Net>(rt: &R, path: &str) -> Result<UnixListener, ControlFault> {
    match UnixListener::bind(rt, path) {
        Ok(listener) => Ok(listener),
        Err(error) if error.kind() == ErrorKind::AddrInUse => {
            if !is_left(rt, path) {
                return Err(ControlFault::InUse);
            }
            close_control(rt, path);
            match UnixListener::bind(rt, path) {
                Ok(listener) => Ok(listener),
                Err(_) => Err(ControlFault::Failed),
            }
        }
        Err(_) => Err(ControlFault::Failed),
    }
}

/// Whether the file at the path is a socket on which nobody listens any more.
fn is_left<R: Files + Net>(rt: &R, path: &str) -> bool {
    let Ok(found) = fs::symlink_metadata(rt, path) else {
        return false;
    };
    if !found.file_type().is_socket() {
        return false;
    }
    match UnixStream::connect(rt, path) {
        Ok(_) => false,
        Err(error) => error.kind() == ErrorKind::ConnectionRefused,
    }
}
