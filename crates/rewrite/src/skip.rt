//! Why a packet gets no number.

use thiserror::Error;

/// Why a packet isn't sent on, by its number.
#[derive(Clone, Copy, Debug, PartialEq, Eq, Error)]
pub enum Skip {
    /// 1: it is of an earlier turn, or came before the first packet of this one.
    #[error("of an earlier turn, or from before this one's first packet")]
    Old,
    /// 2: its number would reach the limit.
    #[error("the outgoing numbers are spent")]
    Spent,
}

impl Skip {
    ghost use Rattle.std.specs.Prelude.{◌≡◌};
    ghost use Rattle.rewrite.specs.Skip.{skip_number};

    /// The refusal's number, as texts show it.
    pub fn number(self) -> u8
        ensures { result ≡ skip_number self }
    {
        match self {
            Skip::Old => 1,
            Skip::Spent => 2,
        }
    }
}
