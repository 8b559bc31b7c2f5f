//! A socket's address as the rows of the system's table name it.

ghost use Rattle.std.specs.Prelude.{◌≡◌, IfOk};
ghost use Rattle.std.specs.String.{string_bytes};
ghost use Rattle.std.specs.Net.Addr.{ipv4_octets, ipv6_octets};
ghost use Rattle.hex.specs.Hex.{encode_upper};
ghost use Rattle.udp.specs.Address.{four_turned, host_octets, turned_four, word_of_address};

use std::alloc::{AllocError, Global};
use std::net::{IpAddr, Ipv4Addr, Ipv6Addr, SocketAddr};

/// The word that names this address in the rows of its socket, as `0100007F:138C` for 127.0.0.1:5004. It has the host in upper hexadecimal
/// digits, each four octets from the last to the first, a colon, and four digits of the port. Refused for want of memory alone.
pub(crate) fn address_word(alloc: Global, address: SocketAddr) -> Result<String, AllocError>
    ensures { IfOk result (λ text. string_bytes text ≡ word_of_address address) }
{
    let port = hex::encode_upper(alloc, address.port().to_be_bytes())?;
    let mut text = host_digits(alloc, address.ip())?;
    text.push_str(":")?;
    text.push_str(port.as_str())?;
    Ok(text)
}

/// The digits of the host.
fn host_digits(alloc: Global, ip: IpAddr) -> Result<String, AllocError>
    ensures { IfOk result (λ text. string_bytes text ≡ encode_upper (host_octets ip)) }
{
    match ip {
        IpAddr::V4(ip) => hex::encode_upper(alloc, turned(ip)),
        IpAddr::V6(ip) => hex::encode_upper(alloc, four_turned(ip)),
    }
}

/// The octets of the host, from the last to the first.
fn turned(ip: Ipv4Addr) -> [u8; 4]
    ensures { result ≡ turned_four (ipv4_octets ip) 0 }
{
    let o = ip.octets();
    [o[3], o[2], o[1], o[0]]
}

/// The octets of the host, each four from the last to the first.
fn four_turned(ip: Ipv6Addr) -> [u8; 16]
    ensures { result ≡ four_turned (ipv6_octets ip) }
{
    let o = ip.octets();
    [
        o[3], o[2], o[1], o[0], o[7], o[6], o[5], o[4], o[11], o[10], o[9], o[8], o[15], o[14],
        o[13], o[12],
    ]
}
