//! A canonical name.

use rtcp_compound::CNAME_LIMIT;
use std::alloc::{AllocError, Global};
use std::marker::Model;

/// A canonical name (RFC 3550, section 6.5.1), as long as a source description can say one: at most 255 bytes.
#[derive(Debug, Drop)]
pub struct Cname {
    text: String,
}

impl Model for Cname {
    ghost use Rattle.std.specs.Prelude.{List, ℕ, ◌≤◌, length, string_bytes};
    ghost use Rattle.rtcp_compound.specs.declared.writer.TheConstants.{CNAME_LIMIT as LIMIT};

    ghost Value = { List ℕ };

    ghost view = { λ c. string_bytes c.text };

    ghost invariant = { λ c. length (string_bytes c.text) ≤ LIMIT };
}

impl Cname {
    ghost use Rattle.std.specs.Prelude.{◌≡◌, ◌≤◌, length, IfOk};

    /// A copy of this name.
    pub fn new(alloc: Global, name: &str) -> Result<Cname, AllocError>
        requires { length name.now ≤ CNAME_LIMIT }
        ensures { IfOk result (λ cname. cname ≡ name.now) }
    {
        Ok(Cname {
            text: String::from_str(alloc, name)?,
        })
    }

    /// The name as text.
    pub fn as_str(&self) -> &str
        ensures value { result.now ≡ self.now }
        ensures limit { length result.now ≤ CNAME_LIMIT }
    {
        self.text.as_str()
    }

    /// The name as bytes.
    pub fn as_bytes(&self) -> &[u8]
        ensures value { result.now ≡ self.now }
        ensures limit { length result.now ≤ CNAME_LIMIT }
    {
        self.text.as_bytes()
    }
}
