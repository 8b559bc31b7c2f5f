//! A unit as its peers are told of it: what its endpoints are called, and of whom its metrics are.

ghost use Rattle.std.specs.Prelude.{◌≡◌, ◌∷◌, ◌++◌, [], IfOk, OnOk, map};
ghost use Rattle.std.specs.String.{string_bytes};
ghost use Rattle.addresses.specs.Names.{endpoint_names};
ghost use Rattle.operations.specs.UnitInfo.{clock_of, endpoint_subject, endpoint_subjects, leg_subject, called_at, subject_says};

use crate::clock_rate::first_clock;
use addresses::{endpoint_at, endpoint_names};
use settings_toml::ClientText;
use stats::{LegLine, LegNames, Subject, Subjects, endpoint_labels, leg_labels};
use std::alloc::{AllocError, Global};

/// A unit as its peers are told of it.
#[derive(Drop)]
pub struct UnitInfo {
    /// What each endpoint is called, by its number.
    pub names: Vec<String>,
    /// Of whom the samples of each endpoint are, by its number.
    pub endpoints: Vec<Subject>,
    /// The same of each leg.
    pub legs: Vec<Subject>,
    /// When it began, in milliseconds since 1970 (UTC).
    pub began_ms: u64,
}

impl UnitInfo {
    ghost use Rattle.std.specs.Prelude.{◌≡◌};
    ghost use Rattle.operations.specs.UnitInfo.{called_at};

    /// What this endpoint is called.
    pub(crate) fn name(&self, endpoint: u16) -> &str
        ensures { result.now ≡ called_at self.now.names.items endpoint }
    {
        called_at(self.names.as_slice(), endpoint)
    }

    /// What the ends of a leg are called.
    pub(crate) fn ends(&self, line: LegLine) -> LegNames<'_>
        ensures publisher { result.publisher.now ≡ called_at self.now.names.items line.publisher }
        ensures subscriber { result.subscriber.now ≡ called_at self.now.names.items line.subscriber }
    {
        LegNames {
            publisher: self.name(line.publisher),
            subscriber: self.name(line.subscriber),
        }
    }

    /// Of whom its metrics are.
    pub(crate) fn subjects(&self) -> Subjects<'_>
        ensures endpoints { result.endpoints.now ≡ self.now.endpoints.items }
        ensures legs { result.legs.now ≡ self.now.legs.items }
    {
        Subjects {
            endpoints: self.endpoints.as_slice(),
            legs: self.legs.as_slice(),
        }
    }
}

/// A unit that began then, with what its file says of its endpoints, and with these legs. Refused for want of memory alone.
pub(crate) fn unit_info(
    alloc: Global,
    texts: &[ClientText],
    legs: &[LegLine],
    began_ms: u64,
) -> Result<UnitInfo, AllocError>
    ensures names { IfOk result
        (λ unit. map string_bytes unit.names.items ≡ endpoint_names texts.now) }
    ensures endpoints { IfOk result (λ unit. map subject_says unit.endpoints.items
        ≡ endpoint_subjects unit.names.items texts.now) }
    ensures legs { IfOk result (λ unit. map subject_says unit.legs.items
        ≡ map (leg_subject unit.names.items texts.now) legs.now) }
    ensures began { IfOk result (λ unit. unit.began_ms ≡ began_ms) }
{
    let names = endpoint_names(alloc, texts)?;
    let endpoints = subjects_of(alloc, names.as_slice(), texts)?;
    let legs = leg_subjects(alloc, names.as_slice(), texts, legs)?;
    Ok(UnitInfo {
        names,
        endpoints,
        legs,
        began_ms,
    })
}

/// Of whom the samples of each endpoint are.
fn subjects_of(
    alloc: Global,
    names: &[String],
    texts: &[ClientText],
) -> Result<Vec<Subject>, AllocError>
    ensures { IfOk result (λ subjects. map subject_says subjects.items
        ≡ endpoint_subjects names.now texts.now) }
{
    let mut subjects = Vec::new(alloc);
    for (number, text) in texts.iter().enumerate() {
        push_subject(alloc, &mut subjects, names, endpoint_at(number), text)?;
    }
    Ok(subjects)
}

/// Puts of whom the samples of an endpoint are after others.
fn push_subject(
    alloc: Global,
    subjects: &mut Vec<Subject>,
    names: &[String],
    endpoint: u16,
    text: &ClientText,
) -> Result<(), AllocError>
    ensures { OnOk result (map subject_says subjects.new.items
        ≡ map subject_says subjects.old.items ++ endpoint_subject names.now endpoint text.now ∷ []) }
{
    subjects.push(Subject {
        labels: endpoint_labels(alloc, endpoint, called_at(names, endpoint))?,
        clock_rate: first_clock(text.rtpmap.as_slice()),
    })?;
    Ok(())
}

/// Of whom the samples of each leg are.
fn leg_subjects(
    alloc: Global,
    names: &[String],
    texts: &[ClientText],
    legs: &[LegLine],
) -> Result<Vec<Subject>, AllocError>
    ensures { IfOk result (λ subjects. map subject_says subjects.items
        ≡ map (leg_subject names.now texts.now) legs.now) }
{
    let mut subjects = Vec::new(alloc);
    for line in legs {
        subjects.push(leg_subject(alloc, names, texts, *line)?)?;
    }
    Ok(subjects)
}

/// Of whom the samples of a leg are; its clock is its publisher's.
fn leg_subject(
    alloc: Global,
    names: &[String],
    texts: &[ClientText],
    line: LegLine,
) -> Result<Subject, AllocError>
    ensures { IfOk result (λ subject. subject_says subject
        ≡ leg_subject names.now texts.now line) }
{
    let (publisher, subscriber) = (
        called_at(names, line.publisher),
        called_at(names, line.subscriber),
    );
    Ok(Subject {
        labels: leg_labels(alloc, line.leg, publisher, subscriber)?,
        clock_rate: clock_of(texts, line.publisher),
    })
}

/// What this endpoint is called; nothing if there is no such endpoint.
fn called_at(names: &[String], endpoint: u16) -> &str
    ensures { result.now ≡ called_at names.now endpoint }
{
    match names.get(usize::from(endpoint)) {
        Some(name) => name.as_str(),
        None => "",
    }
}

/// The clock of what this endpoint publishes, if that is known.
fn clock_of(texts: &[ClientText], endpoint: u16) -> Option<u32>
    ensures { result ≡ clock_of texts.now endpoint }
{
    match texts.get(usize::from(endpoint)) {
        Some(text) => first_clock(text.rtpmap.as_slice()),
        None => None,
    }
}
