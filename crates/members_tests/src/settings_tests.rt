//! Settings in, what they show out. What is refused of settings are cases of `cases/`.
use members::*;
use std::alloc::{AllocError, Global};
use std::fmt::Write;
use std::test::Fail;

/// A leg with what may be absent left out.
pub(crate) fn leg(subscriber: i64, publisher: i64, out_ssrc: i64) -> LegParts {
    LegParts {
        subscriber: Some(subscriber),
        publisher: Some(publisher),
        out_ssrc: Some(out_ssrc),
        first_seq: None,
        on: None,
    }
}

/// The settings of the examples.
pub(crate) fn found_parts(alloc: Global) -> Result<Parts, AllocError> {
    let mut first = leg(1, 0, 257);
    first.first_seq = Some(100);
    let mut parts = Parts::example(alloc)?;
    parts.endpoints = vec![in alloc; Some(16), Some(17)]?;
    parts.legs = vec![in alloc; first]?;
    Ok(parts)
}

/// Writes the numbers of settings.
fn write_numbers(text: &mut String, settings: &Settings) -> Result<(), AllocError> {
    write!(text, "{} {}", settings.workers(), settings.ring())?;
    write!(text, " {} {}", settings.history(), settings.timeout_ms())?;
    write!(text, " {} {}", settings.report_ms(), settings.request_ms())?;
    write!(
        text,
        " {} {}",
        settings.pli_gap_ms(),
        settings.unit_ssrc().0
    )
}

/// Writes the names of settings: the unit's, and after each endpoint's source the one that is said of it.
fn write_names(text: &mut String, settings: &Settings) -> Result<(), AllocError> {
    if settings.cname() == b"sfu".as_slice() {
        text.push_str(" sfu")?;
    }
    for (ssrc, cname) in settings.endpoints().iter().zip(settings.cnames()) {
        write!(text, " {} {}", ssrc.0, cname.as_str())?;
    }
    Ok(())
}

/// Writes the legs of settings.
fn write_legs(text: &mut String, settings: &Settings) -> Result<(), AllocError> {
    for leg in settings.legs() {
        write!(text, " from {} to {}", leg.publisher, leg.subscriber)?;
        write!(text, " as {} {}", leg.out_ssrc.0, leg.first_seq)?;
        text.push_str(if leg.on { " on" } else { " off" })?;
    }
    Ok(())
}

/// What settings of these parts show.
fn shown(alloc: Global, parts: &Parts) -> Result<String, Fail> {
    let mut text = String::new(alloc);
    let settings = Settings::new(alloc, parts)?;
    write_numbers(&mut text, &settings)?;
    write_names(&mut text, &settings)?;
    write_legs(&mut text, &settings)?;
    Ok(text)
}

#[test]
fn settings_of_the_examples(rt: HostRuntime) -> Result<(), Fail> {
    let parts = found_parts(rt.alloc())?;
    let shown = shown(rt.alloc(), &parts)?;
    assert_eq!(rt;
        shown.as_str(),
        "2 8 128 1000 60000 0 500 9 sfu 16 sfu 17 sfu from 0 to 1 as 257 100 on"
    );
    Ok(())
}
