//! When it is said that numbers couldn't be written.

ghost use Rattle.std.specs.Prelude.{◌≡◌};
ghost use Rattle.leg_numbers.specs.Notices.{unwritten_line};

/// The line that says it.
pub fn unwritten_text() -> &'static str
    ensures { result.now ≡ unwritten_line }
{
    "numbers: unwritten\n"
}

/// Whether it was said that numbers couldn't be written, since they could last.
#[derive(Clone, Copy, PartialEq, Eq)]
pub struct WriteNotice {
    is_said: bool,
}

impl WriteNotice {
    ghost use Rattle.std.specs.Prelude.{◌≡◌, false};
    ghost use Rattle.leg_numbers.specs.Notices.{is_notice_due};

    /// It wasn't.
    pub fn new() -> WriteNotice
        ensures { result.is_said ≡ false }
    {
        WriteNotice { is_said: false }
    }

    /// Whether it is to be said now, if the last note couldn't be written or could. It is noted that it was said then.
    pub fn take(&mut self, has_failed: bool) -> bool
        ensures due { result ≡ is_notice_due self.old.is_said has_failed }
        ensures noted { self.new.is_said ≡ has_failed }
    {
        let is_due = has_failed && !self.is_said;
        self.is_said = has_failed;
        is_due
    }
}
