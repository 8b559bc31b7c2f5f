//! Where a key stands in a settings file, as it is laid out mostly: a table a header, a key a line.

use crate::settings_keys::Place;

/// A line of a file, by its number from 1.
#[derive(Clone, Copy, PartialEq, Eq)]
pub(crate) struct Spotted<'a> {
    pub(crate) line: usize,
    /// What stands there, without blanks around it and without a comment after it.
    pub(crate) text: &'a str,
}

/// What was found of a place.
#[derive(Clone, Copy, PartialEq, Eq)]
pub(crate) enum Found<'a> {
    /// The line of its key.
    Key(Spotted<'a>),
    /// Its key isn't there, but the line that its table begins with.
    Table(usize),
    Nothing,
}

/// The tables whose keys a line may have.
#[derive(Clone, Copy, PartialEq, Eq)]
enum Section {
    Top,
    Endpoint(usize),
    Leg(usize),
    Other,
}

/// How far the lines were read: in which table, and how many there were of each kind.
#[derive(Clone, Copy)]
struct Cursor {
    section: Section,
    endpoints: usize,
    legs: usize,
}

impl Cursor {
    /// After one more line.
    fn past(self, line: &str) -> Cursor {
        if line.starts_with("[[endpoint]]") {
            return Cursor {
                section: Section::Endpoint(self.endpoints),
                endpoints: self.endpoints.saturating_add(1),
                legs: self.legs,
            };
        }
        if line.starts_with("[[leg]]") {
            return Cursor {
                section: Section::Leg(self.legs),
                endpoints: self.endpoints,
                legs: self.legs.saturating_add(1),
            };
        }
        if line.starts_with('[') {
            return Cursor {
                section: Section::Other,
                endpoints: self.endpoints,
                legs: self.legs,
            };
        }
        self
    }
}

/// Where this place is in the text.
pub(crate) fn find<'a>(text: &'a str, place: Place<'_>) -> Found<'a> {
    let (wanted, key) = match place {
        Place::Top(key) => (Section::Top, key),
        Place::Endpoint(number, key) => (Section::Endpoint(number), key),
        Place::Leg(number, key) => (Section::Leg(number), key),
        Place::Sources => return Found::Nothing,
    };
    let mut cursor = Cursor {
        section: Section::Top,
        endpoints: 0,
        legs: 0,
    };
    let mut found = Found::Nothing;
    for (number, line) in text.lines().enumerate() {
        let line = uncommented(line.trim());
        cursor = cursor.past(line);
        if wanted == Section::Top && header_of(line) == Some(key) {
            return Found::Key(Spotted {
                line: number.saturating_add(1),
                text: line,
            });
        }
        if cursor.section == wanted {
            if has_key(line, key) {
                return Found::Key(Spotted {
                    line: number.saturating_add(1),
                    text: line,
                });
            }
            if found == Found::Nothing && line.starts_with('[') {
                found = Found::Table(number.saturating_add(1));
            }
        }
    }
    found
}

/// The second line that gives a source which an earlier one gives, too.
pub(crate) fn repeated(text: &str) -> Option<Spotted<'_>> {
    for (number, line) in text.lines().enumerate() {
        let line = uncommented(line.trim());
        if let Some(source) = source_in(line) {
            for earlier in text.lines().take(number) {
                if source_in(uncommented(earlier.trim())) == Some(source) {
                    return Some(Spotted {
                        line: number.saturating_add(1),
                        text: line,
                    });
                }
            }
        }
    }
    None
}

/// The source that a line gives, if it gives one.
fn source_in(line: &str) -> Option<u32> {
    let (key, value) = line.split_once('=')?;
    match key.trim() {
        "ssrc" | "out_ssrc" | "unit_ssrc" => value.trim().parse::<u32>().ok(),
        _ => None,
    }
}

/// What a line says at its key.
pub(crate) fn value_in(line: &str) -> &str {
    match line.split_once('=') {
        Some((_, value)) => value.trim(),
        None => "",
    }
}

/// The text in quotation marks, if a value is one.
pub(crate) fn quoted(value: &str) -> Option<&str> {
    value.strip_prefix('"')?.strip_suffix('"')
}

/// The name of the table, or of the list of tables, whose header the line is.
fn header_of(line: &str) -> Option<&str> {
    let name = line.strip_prefix('[')?.strip_suffix(']')?;
    match name.strip_prefix('[') {
        Some(name) => Some(name.strip_suffix(']')?.trim()),
        None => Some(name.trim()),
    }
}

/// Whether the line has a value at this key.
fn has_key(line: &str, key: &str) -> bool {
    match line.split_once('=') {
        Some((name, _)) => name.trim() == key,
        None => false,
    }
}

/// The line without a comment; one that may stand in a text is left.
fn uncommented(line: &str) -> &str {
    match line.split_once('#') {
        Some((front, behind)) if !behind.contains('"') => front.trim(),
        _ => line,
    }
}
