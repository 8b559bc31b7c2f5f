//! Of whom samples are.

ghost use Rattle.std.specs.Prelude.{◌≡◌};
ghost use Rattle.stats.specs.Subjects.{clock_at, labels_at};

/// Of whom samples are: an endpoint, or a leg.
#[derive(Drop)]
pub struct Subject {
    /// Its labels, as they stand in braces.
    pub labels: String,
    /// The clock of what it publishes, or of what goes out on it, in hertz; `None` if that isn't known.
    pub clock_rate: Option<u32>,
}

/// Of whom the samples of a unit are: its endpoints and its legs, by their numbers.
#[derive(Clone, Copy)]
pub struct Subjects<'a> {
    pub endpoints: &'a [Subject],
    pub legs: &'a [Subject],
}

/// The labels of the one with this number; none if it isn't there.
pub(crate) fn labels_at(subjects: &[Subject], number: u16) -> &str
    ensures { result.now ≡ labels_at subjects.now number }
{
    match subjects.get(usize::from(number)) {
        Some(subject) => subject.labels.as_str(),
        None => "",
    }
}

/// The clock of the one with this number, if it is known.
pub(crate) fn clock_at(subjects: &[Subject], number: u16) -> Option<u32>
    ensures { result ≡ clock_at subjects.now number }
{
    match subjects.get(usize::from(number)) {
        Some(subject) => subject.clock_rate,
        None => None,
    }
}
