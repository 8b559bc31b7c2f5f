//! Who answers a request by what the unit said last.

ghost use Rattle.std.specs.Prelude.{◌≡◌, [], ◌∷◌, ◌++◌, IsTrue, OnOk};
ghost use Rattle.http_header.specs.FieldValue.{is_visible_text};
ghost use Rattle.http_header.specs.FieldName.{is_header_name};
ghost use Rattle.http.specs.Request.{head_of};
ghost use Rattle.http_server.specs.Response.{IsBlank, fields_of};
ghost use Rattle.web.specs.Answers.{answer_seen};
ghost use Rattle.web.specs.Told.{IsSent, Tells, asked_in, host_in, fields_for, guard_fields, handling_fields, kind_fields, kind_text, policy_for, status_number};

use crate::answer::{Answer, Kind, Target, Verdict, answer_to, asked_for};
use crate::hosts::is_known_host;
use crate::said::Said;
use bytes::{BufMut, Bytes};
use http::{HeaderName, HeaderValue, Request, StatusCode};
use http_server::{Response, Service};
use std::alloc::{AllocError, Global};

/// What a browser may do with the page: it uses the page's own style and script, by their SHA-256, and loads from here alone
/// (Content Security Policy Level 3).
const PAGE_POLICY: &str = "default-src 'none'; \
    style-src 'sha256-gsLrmL/aFb/EImfVvQU5MyM/e3L1PiyBItZOgr8dxlY='; \
    script-src 'sha256-Gs58eDwky2LUXBfFSD2sprIDy9NX+d82p54HeFRbtZk='; \
    connect-src 'self'; img-src 'self'; base-uri 'none'; form-action 'none'; frame-ancestors 'none'";

/// What it may do with all else: a picture has a style of its own, and nothing runs or is loaded.
const OTHER_POLICY: &str = "default-src 'none'; style-src 'unsafe-inline'; \
    base-uri 'none'; form-action 'none'; frame-ancestors 'none'";

/// Answers requests by what a unit said last.
#[derive(Drop)]
pub struct Teller {
    alloc: Global,
    /// The name, beside addresses and `localhost`, by which it may be called.
    name: String,
    said: Option<Said>,
}

impl Teller {
    ghost use Rattle.std.specs.Prelude.{◌≡◌, None};

    /// Of a unit that said nothing yet. It answers to addresses, to `localhost` and to this name.
    pub fn new(alloc: Global, name: String) -> Teller
        ensures said { result.said ≡ None }
        ensures name { result.name ≡ name }
    {
        Teller {
            alloc,
            name,
            said: None,
        }
    }

    /// The unit said this; `None` if it says nothing any more.
    pub fn hear(&mut self, said: Option<Said>)
        ensures said { self.new.said ≡ said }
        ensures name { self.new.name ≡ self.old.name }
    {
        self.said = said;
    }
}

impl Service for Teller {
    ghost use Rattle.std.specs.Prelude.{◌≡◌};
    ghost use Rattle.std.specs.String.{string_bytes};
    ghost use Rattle.web.specs.Told.{IsTold};

    ghost answers = { λ old request response new. (new ≡ old) × IsTold (string_bytes old.name) old.said request response };

    fn call(
        &mut self,
        request: &Request<Bytes>,
        response: &mut Response,
    ) -> Result<(), AllocError> {
        let asked = asked_by(self.name.as_bytes(), request);
        answer(self.alloc, asked, &self.said, response)
    }
}

/// Fills the response with the answer to what is asked.
fn answer(
    alloc: Global,
    asked: Target,
    said: &Option<Said>,
    response: &mut Response,
) -> Result<(), AllocError>
    requires { IsBlank response.old }
    ensures { OnOk result (Tells asked said.now response.new) }
{
    let answer = answer_to(alloc, asked, said)?;
    tell(response, &answer)
}

/// What a request asks for.
fn asked_by(name: &[u8], request: &Request<Bytes>) -> Target
    ensures { result ≡ asked_in name.now (head_of request.now) }
{
    if is_known_host(name, host_of(request)) {
        let path = request.uri().path().as_bytes();
        asked_for(request.method().as_str().as_bytes(), path)
    } else {
        Target::Misdirected
    }
}

/// The value of its `Host` field; empty if it has none.
fn host_of(request: &Request<Bytes>) -> &[u8]
    ensures { result.now ≡ host_in (head_of request.now) }
{
    match request.headers().get("host") {
        Some(host) => host.as_bytes(),
        None => b"",
    }
}

/// Fills the response with an answer.
fn tell(response: &mut Response, answer: &Answer) -> Result<(), AllocError>
    requires { IsBlank response.old }
    ensures { OnOk result (IsSent (answer_seen answer.now) response.new) }
{
    response.status = status_of(answer.verdict);
    push_fields(response, answer.kind)?;
    response.body.put_slice(answer.body.as_slice())
}

/// The header fields of an answer of this kind.
fn push_fields(response: &mut Response, kind: Kind) -> Result<(), AllocError>
    ensures fields { OnOk result
        (fields_of response.new ≡ fields_of response.old ++ fields_for kind) }
    ensures status { response.new.status ≡ response.old.status }
    ensures body { response.new.body ≡ response.old.body }
{
    push_kind(response, kind_text(kind))?;
    push_handling(response)?;
    push_guards(response, policy_for(kind))
}

/// What it is, and that no other comes after it.
fn push_kind(response: &mut Response, kind: &'static str) -> Result<(), AllocError>
    requires { IsTrue (is_visible_text kind.now) }
    ensures fields { OnOk result (fields_of response.new ≡ fields_of response.old ++ kind_fields kind.now) }
    ensures status { response.new.status ≡ response.old.status }
    ensures body { response.new.body ≡ response.old.body }
{
    add(response, "content-type", kind)?;
    add(response, "connection", "close")
}

/// By which methods it is had, and that it is kept nowhere.
fn push_handling(response: &mut Response) -> Result<(), AllocError>
    ensures fields { OnOk result (fields_of response.new ≡ fields_of response.old ++ handling_fields) }
    ensures status { response.new.status ≡ response.old.status }
    ensures body { response.new.body ≡ response.old.body }
{
    add(response, "allow", "GET, HEAD")?;
    add(response, "cache-control", "no-store")
}

/// That it loads nothing from elsewhere, and is of the kind that it says.
fn push_guards(response: &mut Response, policy: &'static str) -> Result<(), AllocError>
    requires { IsTrue (is_visible_text policy.now) }
    ensures fields { OnOk result
        (fields_of response.new ≡ fields_of response.old ++ guard_fields policy.now) }
    ensures status { response.new.status ≡ response.old.status }
    ensures body { response.new.body ≡ response.old.body }
{
    add(response, "content-security-policy", policy)?;
    add(response, "x-content-type-options", "nosniff")
}

/// A header field.
fn add(response: &mut Response, name: &'static str, value: &'static str) -> Result<(), AllocError>
    requires name { IsTrue (is_header_name name.now) }
    requires value { IsTrue (is_visible_text value.now) }
    ensures fields { OnOk result
        (fields_of response.new ≡ fields_of response.old ++ (name.now, value.now) ∷ []) }
    ensures status { response.new.status ≡ response.old.status }
    ensures body { response.new.body ≡ response.old.body }
{
    response.add_header(
        HeaderName::from_static(name),
        HeaderValue::from_static(value),
    )
}

fn status_of(verdict: Verdict) -> StatusCode
    ensures { result ≡ status_number verdict }
{
    match verdict {
        Verdict::Fine => StatusCode::OK,
        Verdict::Absent => StatusCode::NOT_FOUND,
        Verdict::Unallowed => StatusCode::METHOD_NOT_ALLOWED,
        Verdict::Misdirected => StatusCode::MISDIRECTED_REQUEST,
        Verdict::Unreadable => StatusCode::BAD_GATEWAY,
        Verdict::Silent => StatusCode::SERVICE_UNAVAILABLE,
    }
}

/// What a browser may do with an answer of this kind.
fn policy_for(kind: Kind) -> &'static str
    ensures text { result.now ≡ policy_for kind }
    ensures visible { IsTrue (is_visible_text result.now) }
{
    match kind {
        Kind::Html => PAGE_POLICY,
        Kind::Metrics => OTHER_POLICY,
        Kind::Json => OTHER_POLICY,
        Kind::Svg => OTHER_POLICY,
        Kind::Plain => OTHER_POLICY,
    }
}

/// The media type of a kind.
fn kind_text(kind: Kind) -> &'static str
    ensures text { result.now ≡ kind_text kind }
    ensures visible { IsTrue (is_visible_text result.now) }
{
    match kind {
        Kind::Html => "text/html; charset=utf-8",
        Kind::Metrics => "text/plain; version=0.0.4; charset=utf-8",
        Kind::Json => "application/json",
        Kind::Svg => "image/svg+xml",
        Kind::Plain => "text/plain; charset=utf-8",
    }
}
