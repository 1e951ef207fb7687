//! Responses (RFC 9112), each the last of its connection.
use crate::figures::StatusView;
use crate::json::json_of;
use crate::metrics::metrics_of;
use crate::page::page_of;
use crate::requests::{Resource, Wanted};
use sms_base::{Octets, put_decimal};
use std::alloc::{AllocError, Global};

const PLAIN: &[u8] = b"text/plain; charset=utf-8";

// What may be asked (RFC 9110, 10.2.1 and 15.5.6). No browser keeps a page, shows it in another page, or loads or runs anything from elsewhere.
const FIELDS: &[u8] =
    b"Allow: GET, HEAD\r\nCache-Control: no-store\r\nX-Content-Type-Options: nosniff\r\nX-Frame-Options: DENY\r\n\
Content-Security-Policy: default-src 'none'; style-src 'unsafe-inline'\r\nConnection: close\r\n";

fn kind_of(resource: Resource) -> &'static [u8] {
    match resource {
        Resource::Page => b"text/html; charset=utf-8",
        Resource::Metrics => b"text/plain; version=0.0.4; charset=utf-8",
        Resource::Json => b"application/json",
    }
}

fn put_response(
    out: &mut Octets,
    status: &[u8],
    kind: &[u8],
    body: &[u8],
    is_head: bool,
) -> Result<(), AllocError> {
    out.append(b"HTTP/1.1 ")?;
    out.append(status)?;
    out.append(b"\r\nContent-Type: ")?;
    out.append(kind)?;
    out.append(b"\r\nContent-Length: ")?;
    put_decimal(out, body.len() as u64)?;
    out.append(b"\r\n")?;
    out.append(FIELDS)?;
    out.append(b"\r\n")?;
    if is_head { Ok(()) } else { out.append(body) }
}

fn response(
    alloc: Global,
    status: &[u8],
    kind: &[u8],
    body: &[u8],
    is_head: bool,
) -> Result<Octets, AllocError> {
    let mut out = Octets::new(alloc);
    put_response(&mut out, status, kind, body, is_head)?;
    Ok(out)
}

// A HEAD has no body, also where it is refused (RFC 9110, 9.3.2).
fn refusal(alloc: Global, status: &[u8], is_head: bool) -> Result<Octets, AllocError> {
    let mut body = Octets::copy_of(alloc, status)?;
    body.append(b"\n")?;
    response(alloc, status, PLAIN, body.as_slice(), is_head)
}

fn given(
    alloc: Global,
    resource: Resource,
    is_head: bool,
    view: &StatusView<'_>,
) -> Result<Octets, AllocError> {
    let body = match resource {
        Resource::Page => page_of(alloc, view)?,
        Resource::Metrics => metrics_of(alloc, view)?,
        Resource::Json => json_of(alloc, view)?,
    };
    response(
        alloc,
        b"200 OK",
        kind_of(resource),
        body.as_slice(),
        is_head,
    )
}

/// The response to what a client asked, once its request is whole.
pub fn response_to(
    alloc: Global,
    wanted: Wanted,
    view: &StatusView<'_>,
) -> Result<Option<Octets>, AllocError> {
    match wanted {
        Wanted::Waiting => Ok(None),
        Wanted::Resource(resource, is_head) => Ok(Some(given(alloc, resource, is_head, view)?)),
        Wanted::NotFound(is_head) => Ok(Some(refusal(alloc, b"404 Not Found", is_head)?)),
        Wanted::NotAllowed => Ok(Some(refusal(alloc, b"405 Method Not Allowed", false)?)),
        Wanted::OtherHost(is_head) => {
            Ok(Some(refusal(alloc, b"421 Misdirected Request", is_head)?))
        }
        Wanted::Bad => Ok(Some(refusal(alloc, b"400 Bad Request", false)?)),
    }
}
