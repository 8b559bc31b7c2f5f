//! The sets that a unit announces, by its lines for `show`, and their pictures.

ghost use Rattle.std.specs.Prelude.{◌≡◌, ◌++◌, IfOk, OnOk, flat_map, map, option_map};
ghost use Rattle.request_text.specs.CheckFile.{asked_of, line_of, said_by};
ghost use Rattle.web.specs.Sets.{AreRequestsOf, IsDrawn, IsPicture, ask_of, asked_in, line_asks, line_media, media_in, media_lines, set_in, ssrc_of, words_media};

use bounding_set::{Bounds, RowsFault};
use drawing::set_picture;
use rate_cert::Request;
use request_text::{
    Entry, Reading, is_word, lines, number_u16, number_u64, read_line, word_at, words_of,
};
use std::alloc::{AllocError, Global};
use tmmbr_tuple::Ssrc;

/// The set that a unit announces to a publisher.
#[derive(Drop)]
pub struct AnnouncedSet {
    /// The number of the publisher's endpoint.
    pub publisher: u16,
    /// The unit's lines for `show`.
    pub text: Vec<u8>,
}

/// What the unit said of the set of this publisher, if it did.
pub(crate) fn set_for(sets: &[AnnouncedSet], publisher: u16) -> Option<&[u8]>
    ensures { option_map (λ x. x.now) result ≡ set_in sets.now publisher }
{
    for set in sets {
        if set.publisher == publisher {
            return Some(set.text.as_slice());
        }
    }
    None
}

/// The SSRC of the endpoint with this number, by an answer to `present`.
pub(crate) fn media_of(
    alloc: Global,
    present: &[u8],
    publisher: u16,
) -> Result<Option<u32>, AllocError>
    ensures { IfOk result (λ media. media ≡ media_in present.now publisher) }
{
    let found = medias_of(alloc, present, publisher)?;
    Ok(found.first().copied())
}

fn medias_of(alloc: Global, present: &[u8], publisher: u16) -> Result<Vec<u32>, AllocError>
    ensures { IfOk result (λ found. found.items ≡ media_lines present.now publisher) }
{
    let lines = lines(alloc, present)?;
    medias_in(alloc, lines.as_slice(), publisher)
}

fn medias_in(alloc: Global, lines: &[&[u8]], publisher: u16) -> Result<Vec<u32>, AllocError>
    ensures { IfOk result
        (λ found. found.items ≡ flat_map (λ x. line_media publisher x.now) lines.now) }
{
    let mut found = Vec::new(alloc);
    for line in lines {
        push_media(alloc, &mut found, line, publisher)?;
    }
    Ok(found)
}

fn push_media(
    alloc: Global,
    found: &mut Vec<u32>,
    line: &[u8],
    publisher: u16,
) -> Result<(), AllocError>
    ensures { OnOk result (found.new.items ≡ found.old.items ++ line_media publisher line.now) }
{
    let words = words_of(alloc, line)?;
    match words_media(words.as_slice(), publisher) {
        Some(media) => Ok(found.push(media)?),
        None => Ok(()),
    }
}

/// The SSRC that these words tell of, if they are those of the endpoint with this number.
fn words_media(words: &[&[u8]], publisher: u16) -> Option<u32>
    ensures { result ≡ words_media publisher (map (λ x. x.now) words.now) }
{
    if is_word(word_at(words, 1), b"ssrc") && number_u16(word_at(words, 0)) == Some(publisher) {
        ssrc_of(word_at(words, 2))
    } else {
        None
    }
}

fn ssrc_of(word: &[u8]) -> Option<u32>
    ensures { result ≡ ssrc_of word.now }
{
    let number = number_u64(word)?;
    u32::try_from(number).ok()
}

/// The picture of the set that lines for `show` tell of, whose media sender has this SSRC. None if they tell of more requests than may be
/// live, or of two of one owner: then they are of no set.
pub(crate) fn picture_in(
    alloc: Global,
    media: u32,
    text: &[u8],
) -> Result<Option<Vec<u8>>, AllocError>
    ensures { IfOk result (λ picture. IsDrawn media text.now (option_map (λ p. p.items) picture)) }
{
    let rows = rows_in(alloc, text)?;
    picture_of(alloc, Ssrc(media), rows.as_slice())
}

/// The requests that lines tell of, by rising owner.
fn rows_in(alloc: Global, text: &[u8]) -> Result<Vec<Request>, AllocError>
    ensures { IfOk result (λ rows. AreRequestsOf text.now rows.items) }
{
    let mut rows = requests_in(alloc, text)?;
    rows.sort_unstable_by_key(|it| it.owner.0);
    Ok(rows)
}

/// The picture of live requests, unless they are none that can be live together.
fn picture_of(alloc: Global, media: Ssrc, rows: &[Request]) -> Result<Option<Vec<u8>>, AllocError>
    ensures { IfOk result (λ picture. IsPicture media.0 rows.now (option_map (λ p. p.items) picture)) }
{
    let mut bounds = Bounds::new();
    match bounds.set_all(rows) {
        Ok(()) => Ok(Some(set_picture(alloc, media, &bounds)?.into_bytes())),
        Err(RowsFault::TooMany) => Ok(None),
        Err(RowsFault::NotRising) => Ok(None),
    }
}

/// The requests that lines tell of, in their order. A line that tells of none is passed over.
fn requests_in(alloc: Global, text: &[u8]) -> Result<Vec<Request>, AllocError>
    ensures { IfOk result (λ requests. map asked_of requests.items ≡ asked_in text.now) }
{
    let lines = lines(alloc, text)?;
    requests_of(alloc, lines.as_slice())
}

fn requests_of(alloc: Global, lines: &[&[u8]]) -> Result<Vec<Request>, AllocError>
    ensures { IfOk result (λ requests.
        map asked_of requests.items ≡ flat_map (λ x. line_asks x.now) lines.now) }
{
    let mut requests = Vec::new(alloc);
    for line in lines {
        push_request(alloc, &mut requests, line)?;
    }
    Ok(requests)
}

fn push_request(alloc: Global, requests: &mut Vec<Request>, line: &[u8]) -> Result<(), AllocError>
    ensures { OnOk result (map asked_of requests.new.items
        ≡ map asked_of requests.old.items ++ line_asks line.now) }
{
    match request_in(alloc, line)? {
        Some(request) => Ok(requests.push(request)?),
        None => Ok(()),
    }
}

/// The request that a line tells of.
fn request_in(alloc: Global, line: &[u8]) -> Result<Option<Request>, AllocError>
    ensures { IfOk result (λ request. option_map asked_of request ≡ ask_of (line_of line.now)) }
{
    let reading = read_line(alloc, line)?;
    Ok(request_of(reading))
}

fn request_of(reading: Reading) -> Option<Request>
    ensures { option_map asked_of result ≡ ask_of (said_by reading) }
{
    match reading {
        Reading::Entry(Entry::Live(request)) => Some(request),
        Reading::Entry(Entry::Kept(request, _)) => Some(request),
        Reading::Entry(Entry::Implied(request, _)) => Some(request),
        Reading::Skipped => None,
        Reading::Unreadable => None,
    }
}
