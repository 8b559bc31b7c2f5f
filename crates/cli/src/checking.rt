//! `sfu check`: whether the lines of a file certify that their kept requests are a smallest choice.

ghost use Rattle.std.specs.Prelude.{◌≡◌, ◌≤◌, ◌<◌, ◌++◌, List, [], ◌∷◌, Ok, IfErr, IfOk, OnOk, IfSome, MatchResult, length, map, vec_len};
ghost use Rattle.std.specs.Io.KnownBytes.{Appends};
ghost use Rattle.request_text.specs.BoundText.{answer_text};
ghost use Rattle.request_text.specs.CheckFile.{FileSpells, IsCheckAnswer, TextAnswers, implied_by, place_for, entries_after};
ghost use Rattle.cli.specs.Ends.{EndsCertificate};
ghost use Rattle.cli.specs.Sheet.{AnswersFile, FailsFile, IsSheetOf, RefusesSheet, Takes, TakesLine};

use crate::saying::report;
use crate::status::{Failure, Status, unreadable};
use arrayvec::ArrayVec;
use rate_cert::{Cert, CertFault, Implied, Kept, MAX_REQUESTS, Request, check};
use request_text::{
    Claim, Entry, LineFault, MAX_LINES, Meter, Reading, Refusal, answer_text, line_count, lines,
    read_line,
};
use std::alloc::{AllocError, Global};
use std::io::{Read, Write};
use tmmbr_tuple::{Pair, Ssrc};

/// The requests of a file in order, and what its lines say of them.
#[derive(Drop)]
struct Sheet {
    requests: Vec<Request>,
    /// The kept ones, with their owners.
    kept: ArrayVec<(Ssrc, Kept), MAX_REQUESTS>,
    /// The places of the implied ones, and what is said of them.
    claims: ArrayVec<(u16, Claim), MAX_REQUESTS>,
    ghost within: { vec_len requests ≤ 65535 },
}

/// Checks the certificate that the file's lines spell. Prints `yes`, or `no` with the number of the first condition that fails and its least
/// place, if it has one.
///
/// A line that can't be read is said on the error output, and so is a file that can't, as line 0.
pub fn check_lines<I: Read, O: Write, E: Write>(
    alloc: Global,
    file: &mut I,
    writer: &mut O,
    errors: &mut E,
) -> Status
    ensures { EndsCertificate (I.remaining file.old) (O.contents writer.old) (O.contents writer.new)
        (E.contents errors.old) (E.contents errors.new) result }
{
    check_metered(alloc, &Meter::hidden(), file, writer, errors)
}

/// The same; the meter is shown each line.
pub(crate) fn check_metered<I: Read, O: Write, E: Write>(
    alloc: Global,
    meter: &Meter,
    file: &mut I,
    writer: &mut O,
    errors: &mut E,
) -> Status
    ensures { EndsCertificate (I.remaining file.old) (O.contents writer.old) (O.contents writer.new)
        (E.contents errors.old) (E.contents errors.new) result }
{
    match answer_lines(alloc, meter, file, writer) {
        Ok(Ok(())) => Status::Done,
        Ok(Err(_)) => Status::Refused,
        Err(failure) => report(alloc, errors, failure),
    }
}

/// Prints what `check` answers for the file's lines, and answers it.
fn answer_lines<I: Read, O: Write>(
    alloc: Global,
    meter: &Meter,
    file: &mut I,
    writer: &mut O,
) -> Result<Result<(), CertFault>, Failure>
    ensures printed { IfOk result (λ answer. Appends (O.contents writer.old) (O.contents writer.new)
        (answer_text answer)) }
    ensures answered { IfOk result (λ answer. IfSome (I.remaining file.old)
        (λ text. AnswersFile text (O.contents writer.old) (O.contents writer.new) answer)) }
    ensures refused { IfErr result
        (FailsFile (I.remaining file.old) (O.contents writer.old) (O.contents writer.new)) }
{
    let mut text = Vec::new(alloc);
    if let Err(error) = file.read_to_end(&mut text) {
        return Err(unreadable(&error));
    }
    let answer = answer_for(alloc, meter, text.as_slice())?;
    let line = answer_text(alloc, answer)?;
    writer.write_all(line.as_bytes())?;
    Ok(answer)
}

/// What `check` answers for the certificate that a text's lines spell.
fn answer_for(alloc: Global, meter: &Meter, text: &[u8]) -> Result<Result<(), CertFault>, Refusal>
    ensures { MatchResult result (TextAnswers text.now) (RefusesSheet text.now) }
{
    let sheet = read_sheet(alloc, meter, text)?;
    Ok(check_sheet(&sheet))
}

/// The requests and claims of a text's lines.
fn read_sheet(alloc: Global, meter: &Meter, text: &[u8]) -> Result<Sheet, Refusal>
    ensures { MatchResult result (λ s. (entries : List Entry) × FileSpells text.now (Ok entries)
        × IsSheetOf entries s.requests.items s.kept.items s.claims.items) (RefusesSheet text.now) }
{
    let mut sheet = Sheet {
        requests: Vec::new(alloc),
        kept: ArrayVec::new(),
        claims: ArrayVec::new(),
    };
    let lines = lines(alloc, text)?;
    let count = line_count(lines.as_slice());
    let mut number = 0;
    for line in lines.iter() {
        number += 1;
        meter.show(number, count);
        take_line(alloc, &mut sheet, line, number)?;
    }
    Ok(sheet)
}

/// Takes the line with this number in, unless it can't be read or there is no room for it.
fn take_line(alloc: Global, sheet: &mut Sheet, line: &[u8], number: u64) -> Result<(), Refusal>
    ensures { (entries : List Entry)
        → IsSheetOf entries sheet.old.requests.items sheet.old.kept.items sheet.old.claims.items
        → TakesLine line.now entries number sheet.new.requests.items sheet.new.kept.items
        sheet.new.claims.items result }
{
    match read_line(alloc, line)? {
        Reading::Skipped => Ok(()),
        Reading::Unreadable => Err(refused(number)),
        Reading::Entry(entry) => take_entry(sheet, entry, number),
    }
}

/// How the line with this number is refused.
fn refused(line: u64) -> Refusal
    ensures { result ≡ Refusal.Line line LineFault.Text }
{
    Refusal::Line {
        line,
        fault: LineFault::Text,
    }
}

/// Takes an entry in, unless there is no room for it.
fn take_entry(sheet: &mut Sheet, entry: Entry, number: u64) -> Result<(), Refusal>
    ensures { (entries : List Entry)
        → IsSheetOf entries sheet.old.requests.items sheet.old.kept.items sheet.old.claims.items
        → Takes (entries_after entries (Reading.Entry entry)) number sheet.new.requests.items
        sheet.new.kept.items sheet.new.claims.items result }
{
    if sheet.requests.len() >= MAX_LINES {
        return Err(refused(number));
    }
    match entry {
        Entry::Live(request) => {
            take_request(sheet, request)?;
            Ok(())
        }
        Entry::Kept(request, pair) => take_kept(sheet, request, pair, number),
        Entry::Implied(request, claim) => take_implied(sheet, request, claim, number),
    }
}

/// Takes in a request of which nothing else is said.
fn take_request(sheet: &mut Sheet, request: Request) -> Result<(), AllocError>
    requires { vec_len sheet.old.requests < MAX_LINES }
    ensures asked { OnOk result (sheet.new.requests.items
        ≡ sheet.old.requests.items ++ request ∷ []) }
    ensures others { (sheet.new.kept.items ≡ sheet.old.kept.items)
        × (sheet.new.claims.items ≡ sheet.old.claims.items) }
{
    sheet.requests.push(request)?;
    Ok(())
}

/// Takes in a kept request, unless there is no room for it.
fn take_kept(sheet: &mut Sheet, request: Request, pair: Pair, number: u64) -> Result<(), Refusal>
    requires { vec_len sheet.old.requests < MAX_LINES }
    ensures { (entries : List Entry)
        → IsSheetOf entries sheet.old.requests.items sheet.old.kept.items sheet.old.claims.items
        → Takes (entries_after entries (Reading.Entry (Entry.Kept request pair))) number
        sheet.new.requests.items sheet.new.kept.items sheet.new.claims.items result }
{
    let place = sheet.requests.len() as u16;
    match sheet.kept.try_push((request.owner, Kept { place, pair })) {
        Ok(()) => {
            take_request(sheet, request)?;
            Ok(())
        }
        Err(_) => Err(refused(number)),
    }
}

/// Takes in an implied request, unless there is no room for it.
fn take_implied(
    sheet: &mut Sheet,
    request: Request,
    claim: Claim,
    number: u64,
) -> Result<(), Refusal>
    requires { vec_len sheet.old.requests < MAX_LINES }
    ensures { (entries : List Entry)
        → IsSheetOf entries sheet.old.requests.items sheet.old.kept.items sheet.old.claims.items
        → Takes (entries_after entries (Reading.Entry (Entry.Implied request claim))) number
        sheet.new.requests.items sheet.new.kept.items sheet.new.claims.items result }
{
    let place = sheet.requests.len() as u16;
    match sheet.claims.try_push((place, claim)) {
        Ok(()) => {
            take_request(sheet, request)?;
            Ok(())
        }
        Err(_) => Err(refused(number)),
    }
}

/// What `check` answers for the requests, with the certificate that kept lines and claims spell.
fn check_sheet(sheet: &Sheet) -> Result<(), CertFault>
    ensures { (entries : List Entry)
        → IsSheetOf entries sheet.now.requests.items sheet.now.kept.items sheet.now.claims.items
        → IsCheckAnswer entries result }
{
    let kept = sheet.kept.as_slice();
    let past = sheet.requests.len() as u16;
    let cert = Cert {
        kept: kept_entries(kept),
        implied: implied_entries(kept, past, sheet.claims.as_slice()),
    };
    check(sheet.requests.as_slice(), &cert)
}

/// The entries without their owners.
fn kept_entries(kept: &[(Ssrc, Kept)]) -> ArrayVec<Kept, MAX_REQUESTS>
    requires { length kept.now ≤ MAX_REQUESTS }
    ensures { result.items ≡ map (λ k. k.1) kept.now }
{
    let mut entries = ArrayVec::new();
    for (_, entry) in kept {
        entries.push(*entry);
    }
    entries
}

/// The entries that the claims stand for.
fn implied_entries(
    kept: &[(Ssrc, Kept)],
    past: u16,
    claims: &[(u16, Claim)],
) -> ArrayVec<Implied, MAX_REQUESTS>
    requires { length claims.now ≤ MAX_REQUESTS }
    ensures { result.items ≡ map (implied_by kept.now past) claims.now }
{
    let mut entries = ArrayVec::new();
    for (place, claim) in claims {
        entries.push(implied_entry(kept, past, *place, claim));
    }
    entries
}

/// The entry that a claim on the request at this place stands for.
fn implied_entry(kept: &[(Ssrc, Kept)], past: u16, place: u16, claim: &Claim) -> Implied
    ensures { result ≡ implied_by kept.now past (place, claim.now) }
{
    Implied {
        place,
        a: place_for(kept, past, claim.a),
        b: place_for(kept, past, claim.b),
        p: claim.p,
        q: claim.q,
        r: claim.r,
    }
}

/// The place of the owner's first kept entry; `past` if it has none.
fn place_for(kept: &[(Ssrc, Kept)], past: u16, owner: Ssrc) -> u16
    ensures { result ≡ place_for kept.now past owner }
{
    for (asker, entry) in kept {
        if *asker == owner {
            return entry.place;
        }
    }
    past
}
