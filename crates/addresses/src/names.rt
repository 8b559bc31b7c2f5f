//! What endpoints are called.

ghost use Rattle.std.specs.Prelude.{◌≡◌, ◌<◌, ◌∷◌, ◌++◌, [], IfOk, OnOk, map, option_map};
ghost use Rattle.std.specs.String.{string_bytes};
ghost use Rattle.addresses.specs.Names.{called_in, name_of_endpoint, endpoint_names, word_byte};

use settings_toml::ClientText;
use std::alloc::{AllocError, Global};

/// What each endpoint is called, by its number: by its `name`, else by the `cname` that it has of its own, else by its number. A name is one
/// word of a line. Refused for want of memory alone.
pub fn endpoint_names(alloc: Global, texts: &[ClientText]) -> Result<Vec<String>, AllocError>
    ensures { IfOk result (λ names. map string_bytes names.items ≡ endpoint_names texts.now) }
{
    let mut names = Vec::new(alloc);
    for (number, text) in texts.iter().enumerate() {
        push_name(alloc, &mut names, number, text)?;
    }
    Ok(names)
}

/// Puts what the endpoint with this number is called after others.
fn push_name(
    alloc: Global,
    names: &mut Vec<String>,
    number: usize,
    text: &ClientText,
) -> Result<(), AllocError>
    ensures { OnOk result (map string_bytes names.new.items
        ≡ map string_bytes names.old.items ++ name_of_endpoint number text.now ∷ []) }
{
    names.push(name_of_endpoint(alloc, number, text)?)?;
    Ok(())
}

/// What the endpoint with this number is called.
fn name_of_endpoint(alloc: Global, number: usize, text: &ClientText) -> Result<String, AllocError>
    ensures { IfOk result (λ name. string_bytes name ≡ name_of_endpoint number text.now) }
{
    match called_in(text) {
        Some(name) => word_of(alloc, name.as_bytes()),
        None => format!(in alloc; "{number}"),
    }
}

/// What the file calls the endpoint.
fn called_in(text: &ClientText) -> Option<&str>
    ensures { option_map (λ name. name.now) result ≡ called_in text.now }
{
    match &text.name {
        Some(name) => Some(name.as_str()),
        None => match &text.cname {
            Some(cname) => Some(cname.as_str()),
            None => None,
        },
    }
}

/// The text as one word: what isn't printed in it, and each space, is an underscore.
fn word_of(alloc: Global, text: &[u8]) -> Result<String, AllocError>
    ensures { IfOk result (λ word. string_bytes word ≡ map word_byte text.now) }
{
    let mut word = String::new(alloc);
    for byte in text {
        push_ascii(&mut word, word_byte(*byte))?;
    }
    Ok(word)
}

/// A byte of the text, as it stands in a word.
fn word_byte(byte: u8) -> u8
    ensures value { result ≡ word_byte byte }
    ensures ascii { result < 128 }
{
    if byte.is_ascii_graphic() { byte } else { b'_' }
}

/// Appends a character of ASCII.
fn push_ascii(word: &mut String, byte: u8) -> Result<(), AllocError>
    requires { byte < 128 }
    ensures { OnOk result (string_bytes word.new ≡ string_bytes word.old ++ byte ∷ []) }
{
    word.push(char::from(byte))
}
