//! Why a unit can't send to an address.

ghost use Rattle.std.specs.Prelude.{◌≡◌, None, IfSome};
ghost use Rattle.settings_toml.specs.Saying.{CanSendTo, CantSendTo};

use std::net::SocketAddr;

/// Why a unit that listens there can't send to an address.
pub(crate) fn why_unreachable(
    listen: SocketAddr,
    rtcp: Option<SocketAddr>,
    address: SocketAddr,
) -> Option<&'static str>
    ensures reason { IfSome result (λ why.
        CantSendTo ⟦<SocketAddr as PartialEq>⟧.eq listen rtcp address why.now) }
    ensures none { result ≡ None
        → CanSendTo ⟦<SocketAddr as PartialEq>⟧.eq listen rtcp address }
{
    if address.is_ipv4() != listen.is_ipv4() {
        Some("it isn't of the version of IP that listen has")
    } else if address.port() == 0 {
        Some("its port is 0")
    } else if address.ip().is_unspecified() {
        Some("it is no host's")
    } else if address == listen {
        Some("the unit listens there itself")
    } else if rtcp == Some(address) {
        Some("the unit listens there itself, for RTCP")
    } else {
        None
    }
}
