//! The labels of samples, as the text format of Prometheus has them.

ghost use Rattle.std.specs.Prelude.{◌≡◌, ◌<◌, ◌++◌, IfOk, OnOk};
ghost use Rattle.std.specs.String.{string_bytes};
ghost use Rattle.stats.specs.Labels.{endpoint_labels, escaped, escaped_byte, label_text, leg_labels, number_label, or_underscore};

use std::alloc::{AllocError, Global};

/// The labels of the samples of an endpoint: its number, and what it is called. Refused for want of memory alone.
pub fn endpoint_labels(alloc: Global, endpoint: u16, name: &str) -> Result<String, AllocError>
    ensures { IfOk result (λ labels. string_bytes labels ≡ endpoint_labels endpoint name.now) }
{
    let mut labels = number_label(alloc, "endpoint", endpoint)?;
    push_label(&mut labels, ",name=\"", name)?;
    Ok(labels)
}

/// The labels of the samples of a leg: its number, and what its ends are called. Refused for want of memory alone.
pub fn leg_labels(
    alloc: Global,
    leg: u16,
    publisher: &str,
    subscriber: &str,
) -> Result<String, AllocError>
    ensures { IfOk result (λ labels. string_bytes labels
        ≡ leg_labels leg publisher.now subscriber.now) }
{
    let mut labels = number_label(alloc, "leg", leg)?;
    push_label(&mut labels, ",publisher=\"", publisher)?;
    push_label(&mut labels, ",subscriber=\"", subscriber)?;
    Ok(labels)
}

/// A label that is a number.
fn number_label(alloc: Global, label: &str, number: u16) -> Result<String, AllocError>
    ensures { IfOk result (λ text. string_bytes text ≡ number_label label.now number) }
{
    format!(in alloc; "{label}=\"{number}\"")
}

/// One more label, which begins so, with this value.
fn push_label(labels: &mut String, start: &str, value: &str) -> Result<(), AllocError>
    ensures { OnOk result (string_bytes labels.new
        ≡ string_bytes labels.old ++ label_text start.now value.now) }
{
    labels.push_str(start)?;
    push_value(labels, value.as_bytes())?;
    labels.push_str("\"")
}

/// The value of a label.
fn push_value(labels: &mut String, value: &[u8]) -> Result<(), AllocError>
    ensures { OnOk result (string_bytes labels.new ≡ string_bytes labels.old ++ escaped value.now) }
{
    for byte in value {
        push_escaped(labels, *byte)?;
    }
    Ok(())
}

/// A byte of it. Backslashes, quotation marks and ends of lines stand behind a backslash.
fn push_escaped(labels: &mut String, byte: u8) -> Result<(), AllocError>
    ensures { OnOk result (string_bytes labels.new ≡ string_bytes labels.old ++ escaped_byte byte) }
{
    if byte == b'\\' {
        labels.push_str("\\\\")
    } else if byte == b'"' {
        labels.push_str("\\\"")
    } else if byte == b'\n' {
        labels.push_str("\\n")
    } else {
        labels.push(or_underscore(byte))
    }
}

/// The character that a byte is, or an underscore if it is beyond ASCII.
fn or_underscore(byte: u8) -> char
    ensures value { result ≡ or_underscore byte }
    ensures ascii { result < 128 }
{
    if byte.is_ascii() {
        char::from(byte)
    } else {
        '_'
    }
}
