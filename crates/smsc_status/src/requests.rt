//! Requests for a page (RFC 9112).
use httparse::{EMPTY_HEADER, Header, Request, Status};

// A request has so many header fields at most.
const MOST_FIELDS: usize = 64;

/// What is asked for.
#[derive(Clone, Copy, PartialEq, Eq)]
pub enum Resource {
    /// The status page.
    Page,
    /// The figures in Prometheus' format.
    Metrics,
    /// The figures in JSON.
    Json,
}

/// What a client asked.
#[derive(Clone, Copy, PartialEq, Eq)]
pub enum Wanted {
    /// The client's request is not whole yet.
    Waiting,
    /// The client is to be given this resource, or its head alone.
    Resource(Resource, bool),
    /// There is no such resource. It asked for the head alone, or not.
    NotFound(bool),
    /// The client asks for something other than to read.
    NotAllowed,
    /// The request names another host than this machine. It asked for the head alone, or not.
    OtherHost(bool),
    /// The octets are no request.
    Bad,
}

fn resource_at(path: &str) -> Option<Resource> {
    match path {
        "" => Some(Resource::Page),
        "metrics" => Some(Resource::Metrics),
        "status.json" => Some(Resource::Json),
        _ => None,
    }
}

// What a target names: a host, where it is in absolute form (RFC 9112 3.2.2), and the path behind the first slash.
#[derive(Clone, Copy)]
struct Target<'a> {
    authority: Option<&'a str>,
    path: &'a str,
}

// The target of a text; none where it names no resource of a server.
fn target_of<'a>(text: &'a str) -> Option<Target<'a>> {
    if let Some(path) = text.strip_prefix('/') {
        return Some(Target {
            authority: None,
            path,
        });
    }
    let (scheme, rest) = text.split_once("://")?;
    if !scheme.eq_ignore_ascii_case("http") {
        return None;
    }
    let (authority, path) = rest.split_once('/').unwrap_or((rest, ""));
    Some(Target {
        authority: Some(authority),
        path,
    })
}

// The path without what a question mark begins.
fn path_of(path: &str) -> &str {
    match path.split_once('?') {
        Some((path, _)) => path,
        None => path,
    }
}

fn is_port(text: &str) -> bool {
    text.bytes().all(|octet| octet.is_ascii_digit())
}

// Whether nothing stands behind a host but a port.
fn is_port_behind(text: &str) -> bool {
    match text.strip_prefix(':') {
        Some(port) => is_port(port),
        None => text.is_empty(),
    }
}

// Whether a host, with a port or without, is this machine. A page of somebody else, whose name is made to lead here, names another.
fn is_own(authority: &str) -> bool {
    if let Some(rest) = authority.strip_prefix('[') {
        return match rest.split_once(']') {
            Some((host, behind)) => host == "::1" && is_port_behind(behind),
            None => false,
        };
    }
    let (host, port) = authority.split_once(':').unwrap_or((authority, ""));
    (host == "127.0.0.1" || host.eq_ignore_ascii_case("localhost")) && is_port(port)
}

// The values of the fields Host: how many there are, and whether each is this machine.
fn hosts_in(fields: &[Header<'_>]) -> (usize, bool) {
    let mut count: usize = 0;
    let mut are_own = true;
    for field in fields {
        if field.name.eq_ignore_ascii_case("host") {
            count = count.saturating_add(1);
            are_own = are_own && std::str::from_utf8(field.value).is_ok_and(is_own);
        }
    }
    (count, are_own)
}

// Whether a request of that version may have so many fields Host (RFC 9112 3.2): one, or in HTTP/1.0 none.
fn may_have(version: Option<u8>, hosts: usize) -> bool {
    hosts == 1 || (hosts == 0 && version == Some(0))
}

fn wanted_of_host(target: Target<'_>, is_head: bool, are_own: bool) -> Wanted {
    // A target's own host goes before the field (RFC 9112 3.2.2).
    let is_here = match target.authority {
        Some(authority) => is_own(authority),
        None => are_own,
    };
    if !is_here {
        return Wanted::OtherHost(is_head);
    }
    match resource_at(path_of(target.path)) {
        Some(resource) => Wanted::Resource(resource, is_head),
        None => Wanted::NotFound(is_head),
    }
}

fn wanted_by(method: &str, target: &str, version: Option<u8>, fields: &[Header<'_>]) -> Wanted {
    let (hosts, are_own) = hosts_in(fields);
    if !may_have(version, hosts) {
        return Wanted::Bad;
    }
    if method != "GET" && method != "HEAD" {
        return Wanted::NotAllowed;
    }
    match target_of(target) {
        Some(target) => wanted_of_host(target, method == "HEAD", are_own),
        None => Wanted::Bad,
    }
}

/// What a client asked by what it sent so far.
pub fn wanted_of(octets: &[u8]) -> Wanted {
    let mut fields = [EMPTY_HEADER; MOST_FIELDS];
    let mut request = Request::new(&mut fields);
    match request.parse(octets) {
        Ok(Status::Complete(_)) => match (request.method, request.path) {
            (Some(method), Some(target)) => {
                wanted_by(method, target, request.version, request.headers)
            }
            _ => Wanted::Bad,
        },
        Ok(Status::Partial) => Wanted::Waiting,
        Err(_) => Wanted::Bad,
    }
}
