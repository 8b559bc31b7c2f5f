//! Which of the reasons something is, whatever its numbers.

/// Which of the reasons it is, whatever its numbers.
#[derive(Clone, Copy, PartialEq, Eq)]
pub enum ReasonKind {
    Off,
    OtherSource,
    OtherPlace,
    PublisherAbsent,
    NoMedia,
    SubscriberAbsent,
    Skipped,
    Lossy,
    Reported,
    OnlyListens,
    Unreported,
}

impl ReasonKind {
    ghost use Rattle.std.specs.Prelude.{◌≡◌};
    ghost use Rattle.diagnosis.specs.Kinds.{kind_words};

    /// How the line of such a reason begins, behind the leg.
    pub(crate) fn words(self) -> &'static str
        ensures { result.now ≡ kind_words self }
    {
        match self {
            ReasonKind::Off => "off",
            ReasonKind::OtherSource => "from the publisher's address packets come under SSRC ",
            ReasonKind::OtherPlace => "under the publisher's SSRC packets come from ",
            ReasonKind::PublisherAbsent => "the publisher is absent",
            ReasonKind::NoMedia => "the publisher sends no media",
            ReasonKind::SubscriberAbsent => "the subscriber is absent",
            ReasonKind::Skipped => "packets come and are skipped: ",
            ReasonKind::Lossy => "sent; packets are lost on the way from the publisher",
            ReasonKind::Reported => "sent; the subscriber reports",
            ReasonKind::OnlyListens => "sent; the subscriber only listens",
            ReasonKind::Unreported => "sent; the subscriber doesn't report",
        }
    }
}
