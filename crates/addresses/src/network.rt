//! Networks of IP addresses.

ghost use Rattle.std.specs.Prelude.{◌≡◌, MatchOption};
ghost use Rattle.addresses.specs.Network.{HasNoSlash, HasSlash, SpellsNetwork, SpellsNoNetwork, SpellsNoPair, SpellsPair, SpellsPairWithin, after_slash, before_slash, has_same_front, width};

use std::net::IpAddr;

/// How many bits an IPv4 address has, and an IPv6 address.
const V4_BITS: u8 = 32;

const V6_BITS: u8 = 128;

/// The addresses that begin with the same bits as this one (RFC 4632, section 3.1).
#[derive(Clone, Copy, Debug, PartialEq, Eq)]
pub struct Network {
    pub address: IpAddr,
    /// How many bits they have in common; with 0 it is each address of the version.
    pub bits: u8,
}

impl Network {
    ghost use Rattle.std.specs.Prelude.{◌≡◌};
    ghost use Rattle.addresses.specs.Network.{is_within};

    /// Whether the address is one of the network: of the same version, and with the same first bits.
    pub fn contains(self, address: IpAddr) -> bool
        ensures { result ≡ is_within self address }
    {
        match (self.address, address) {
            (IpAddr::V4(ours), IpAddr::V4(theirs)) => has_same_front(
                u128::from(ours.to_bits()),
                u128::from(theirs.to_bits()),
                V4_BITS.saturating_sub(self.bits),
            ),
            (IpAddr::V6(ours), IpAddr::V6(theirs)) => has_same_front(
                ours.to_bits(),
                theirs.to_bits(),
                V6_BITS.saturating_sub(self.bits),
            ),
            (IpAddr::V4(_), IpAddr::V6(_)) => false,
            (IpAddr::V6(_), IpAddr::V4(_)) => false,
        }
    }
}

/// Whether two numbers are the same but for so many bits at their end.
fn has_same_front(ours: u128, theirs: u128, rest: u8) -> bool
    ensures { result ≡ has_same_front ours theirs rest }
{
    if rest >= V6_BITS {
        return true;
    }
    ours >> rest == theirs >> rest
}

/// The network that a text spells: an IP address, a slash and how many bits its addresses have in common, 0 to 32 or to 128, as
/// `192.0.2.0/24`.
pub fn read_network(text: &str) -> Option<Network>
    ensures { MatchOption result (SpellsNoNetwork text.now) (SpellsNetwork text.now) }
{
    match parts(text) {
        Some((address, bits)) => network_in(address, bits),
        None => None,
    }
}

/// What stands before the first slash of a text, and what after it.
fn parts(text: &str) -> Option<(&str, &str)>
    ensures { MatchOption result (HasNoSlash text.now)
        (λ x. (x.0.now ≡ before_slash text.now) × (x.1.now ≡ after_slash text.now)
        × HasSlash text.now) }
{
    text.split_once('/')
}

/// The network of an address, and of how many bits its addresses have in common, as texts.
fn network_in(address: &str, bits: &str) -> Option<Network>
    ensures { MatchOption result (SpellsNoPair address.now bits.now)
        (SpellsPairWithin address.now bits.now) }
{
    match pair_in(address, bits) {
        Some(network) => {
            if network.bits <= width(network.address) {
                Some(network)
            } else {
                None
            }
        }
        None => None,
    }
}

/// The same, however many bits.
fn pair_in(address: &str, bits: &str) -> Option<Network>
    ensures { MatchOption result ((network : _) → ¬ (SpellsPair address.now bits.now network))
        (SpellsPair address.now bits.now) }
{
    let Ok(address) = address.parse::<IpAddr>() else {
        return None;
    };
    let Ok(bits) = bits.parse::<u8>() else {
        return None;
    };
    Some(Network { address, bits })
}

/// How many bits the address has.
fn width(address: IpAddr) -> u8
    ensures { result ≡ width address }
{
    match address {
        IpAddr::V4(_) => V4_BITS,
        IpAddr::V6(_) => V6_BITS,
    }
}
