//! What is announced for a publisher, with what shows it.

ghost use Rattle.conference.specs.Certified.{Shows};

use desk::Desk;
use rate_cert::{Cert, Request};

/// The live requests to a publisher, and the certificate of the set that is announced for them.
#[derive(Clone, Copy)]
pub struct Certified<'a> {
    /// By rising owner, each owner once.
    pub live: &'a [Request],
    /// Its places count the live requests, from 0.
    pub cert: &'a Cert,
}

/// What the desk holds of these.
pub fn certified_by(desk: &Desk) -> Certified<'_>
    ensures { Shows desk.now.bounds result }
{
    Certified {
        live: desk.live(),
        cert: desk.cert(),
    }
}
