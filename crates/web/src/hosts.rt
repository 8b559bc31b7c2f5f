//! Under which names a page is looked at.

ghost use Rattle.std.specs.Prelude.{◌≡◌, ◌≤◌, ◌==◌, length, not};
ghost use Rattle.std.specs.List.{list_all, prefix_len};
ghost use Rattle.web.specs.Hosts.{host_name, is_bracketed, is_known_host, is_quad, is_quad_byte};

use request_text::is_word;

/// Whether a client may have the page that calls it by this value of the `Host` field: an address, `localhost` or the given name, each with or
/// without a port. Any other name may be one that somebody else lets lead here (DNS rebinding).
pub fn is_known_host(given: &[u8], host: &[u8]) -> bool
    ensures { result ≡ is_known_host given.now host.now }
{
    let name = host_name(host);
    is_bracketed(host) || is_quad(name) || is_word(name, b"localhost") || is_word(name, given)
}

/// What stands before the port.
fn host_name(host: &[u8]) -> &[u8]
    ensures { result.now ≡ host_name host.now }
{
    &host[..name_len(host)]
}

fn name_len(host: &[u8]) -> usize
    ensures value { result ≡ prefix_len (λ b. not (b == 58)) host.now }
    ensures within { result ≤ length host.now }
{
    host.iter().take_while(|byte| **byte != b':').count()
}

/// Whether it is an IPv6 address, if it is the value of a `Host` field.
fn is_bracketed(host: &[u8]) -> bool
    ensures { result ≡ is_bracketed host.now }
{
    match host.first() {
        Some(first) => *first == b'[',
        None => false,
    }
}

/// Whether it is an IPv4 address, if it is such a value without its port.
fn is_quad(name: &[u8]) -> bool
    ensures { result ≡ is_quad name.now }
{
    !name.is_empty() && are_quad_bytes(name)
}

fn are_quad_bytes(name: &[u8]) -> bool
    ensures { result ≡ list_all is_quad_byte name.now }
{
    name.iter().all(|byte| is_quad_byte(*byte))
}

fn is_quad_byte(byte: u8) -> bool
    ensures { result ≡ is_quad_byte byte }
{
    (byte >= b'0' && byte <= b'9') || byte == b'.'
}
