//! Responses (RFC 9112, 4), behind each of which the connection ends.
ghost use Rattle.std.specs.Prelude.{◌≡◌, ◌++◌, OnOk};
ghost use Rattle.site_status.specs.Response.{allow_text, body_text, head_text, media_text, response_text, status_code, status_text, type_text};

use itoa::Buffer;
use std::alloc::AllocError;

/// What a body is.
#[derive(Clone, Copy, Debug, PartialEq, Eq)]
pub enum Media {
    /// Lines of text.
    Text,
    /// JSON (RFC 8259).
    Json,
    /// A page for a browser.
    Html,
    /// How it looks.
    Css,
    /// What it does.
    Script,
}

impl Media {
    /// Its type, as a response's field has it.
    fn kind(self) -> &'static [u8]
        ensures { result.now ≡ media_text self }
    {
        match self {
            Media::Text => b"text/plain; version=0.0.4; charset=utf-8",
            Media::Json => b"application/json",
            Media::Html => b"text/html; charset=utf-8",
            Media::Css => b"text/css; charset=utf-8",
            Media::Script => b"text/javascript; charset=utf-8",
        }
    }
}

/// How a request is answered (RFC 9110, 15; RFC 6585, 5).
#[derive(Clone, Copy, Debug, PartialEq, Eq)]
pub enum Status {
    /// 200.
    Ok,
    /// 400: it is no request.
    BadRequest,
    /// 404: there is no such page.
    NotFound,
    /// 405: it is none of GET.
    MethodNotAllowed,
    /// 431: its head is too long.
    HeadTooLong,
    /// 503: the site doesn't serve yet.
    Unavailable,
}

impl Status {
    /// Its code.
    pub fn code(self) -> u32
        ensures { result ≡ status_code self }
    {
        match self {
            Status::Ok => 200,
            Status::BadRequest => 400,
            Status::NotFound => 404,
            Status::MethodNotAllowed => 405,
            Status::HeadTooLong => 431,
            Status::Unavailable => 503,
        }
    }

    /// Its code and its phrase.
    pub fn line(self) -> &'static [u8]
        ensures { result.now ≡ status_text self }
    {
        match self {
            Status::Ok => b"200 OK",
            Status::BadRequest => b"400 Bad Request",
            Status::NotFound => b"404 Not Found",
            Status::MethodNotAllowed => b"405 Method Not Allowed",
            Status::HeadTooLong => b"431 Request Header Fields Too Large",
            Status::Unavailable => b"503 Service Unavailable",
        }
    }

    /// The field that tells which methods there are, where it was another one (RFC 9110, 15.5.6).
    fn allow(self) -> &'static [u8]
        ensures { result.now ≡ allow_text self }
    {
        match self {
            Status::MethodNotAllowed => b"Allow: GET\r\n",
            _ => b"",
        }
    }
}

/// Writes the status of a response, and the field that a refused method is answered with.
#[tactic(auto, unfolding(crate::specs::Response::head_text))]
fn put_status(out: &mut Vec<u8>, status: Status) -> Result<(), AllocError>
    ensures { OnOk result (out.new.items ≡ out.old.items ++ head_text status) }
{
    out.extend_from_slice(b"HTTP/1.1 ")?;
    out.extend_from_slice(status.line())?;
    out.extend_from_slice(b"\r\n")?;
    out.extend_from_slice(status.allow())?;
    Ok(())
}

/// Writes the fields that end a response's head, and its body.
#[tactic(auto, unfolding(crate::specs::Response::body_text))]
fn put_body(out: &mut Vec<u8>, body: &[u8]) -> Result<(), AllocError>
    ensures { OnOk result (out.new.items ≡ out.old.items ++ body_text body.now) }
{
    let mut buffer = Buffer::new();
    out.extend_from_slice(b"\r\nConnection: close\r\nContent-Length: ")?;
    out.extend_from_slice(buffer.format(body.len()).as_bytes())?;
    out.extend_from_slice(b"\r\n\r\n")?;
    out.extend_from_slice(body)?;
    Ok(())
}

/// Writes the fields that tell what a response's body is, and that a browser takes it for nothing else and loads nothing from elsewhere.
#[tactic(auto, unfolding(crate::specs::Response::type_text))]
fn put_media(out: &mut Vec<u8>, media: Media) -> Result<(), AllocError>
    ensures { OnOk result (out.new.items ≡ out.old.items ++ type_text media) }
{
    out.extend_from_slice(b"Content-Security-Policy: default-src 'self'\r\n")?;
    out.extend_from_slice(b"X-Content-Type-Options: nosniff\r\n")?;
    out.extend_from_slice(b"Content-Type: ")?;
    out.extend_from_slice(media.kind())?;
    Ok(())
}

/// Writes a response, and its body.
pub fn put_response(
    out: &mut Vec<u8>,
    status: Status,
    media: Media,
    body: &[u8],
) -> Result<(), AllocError>
    ensures { OnOk result (out.new.items ≡ out.old.items ++ response_text status media body.now) }
{
    put_status(out, status)?;
    put_media(out, media)?;
    put_body(out, body)?;
    Ok(())
}
