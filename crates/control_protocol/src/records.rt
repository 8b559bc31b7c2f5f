//! Which records there are of a unit, and which of them somebody means.

ghost use Rattle.std.specs.Prelude.{◌≡◌};
ghost use Rattle.control_protocol.specs.Records.{record_made, record_meant};

/// A record of a unit, by who has it.
#[derive(Clone, Copy, Debug, PartialEq, Eq)]
pub enum RecordKind {
    /// It goes to a file from the unit's start on (`--record`).
    File,
    /// It goes to a peer, who asked for it.
    Peer,
}

/// Which records of a unit are being made.
#[derive(Clone, Copy, Debug, PartialEq, Eq)]
pub struct Records {
    pub file: bool,
    pub peer: bool,
}

impl Records {
    /// The record that is meant, if it is being made: this one, or, if none is named, a peer's rather than the file's.
    pub(crate) fn meant(self, named: Option<RecordKind>) -> Option<RecordKind>
        ensures { result ≡ record_meant self named }
    {
        match named {
            Some(kind) => self.made(kind),
            None => {
                if self.peer {
                    Some(RecordKind::Peer)
                } else {
                    self.made(RecordKind::File)
                }
            }
        }
    }

    /// This record, if it is being made.
    fn made(self, kind: RecordKind) -> Option<RecordKind>
        ensures { result ≡ record_made self kind }
    {
        let is_made = match kind {
            RecordKind::File => self.file,
            RecordKind::Peer => self.peer,
        };
        if is_made { Some(kind) } else { None }
    }
}
