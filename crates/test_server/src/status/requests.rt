//! Requests for a page, and their responses.
use crate::rows::holds;
use smsc_status::{Resource, Wanted, wanted_of};
use std::test::Fail;

const PAGE: &[u8] = b"GET / HTTP/1.1\r\nHost: 127.0.0.1:8080\r\nAccept: */*\r\n\r\n";

// A request, and what it wants.
type Row = (&'static [u8], Wanted, &'static str);

const REQUESTS: &[Row] = &[
    (PAGE, Wanted::Resource(Resource::Page, false), "page"),
    (
        b"HEAD / HTTP/1.0\r\n\r\n",
        Wanted::Resource(Resource::Page, true),
        "head",
    ),
    (
        b"GET /metrics HTTP/1.1\r\nhost: localhost:9\r\n\r\n",
        Wanted::Resource(Resource::Metrics, false),
        "metrics",
    ),
    (
        b"GET /status.json?a=b HTTP/1.1\r\nHost: [::1]:9\r\n\r\n",
        Wanted::Resource(Resource::Json, false),
        "json",
    ),
    (
        b"POST / HTTP/1.1\r\nHost: 127.0.0.1\r\n\r\n",
        Wanted::NotAllowed,
        "post",
    ),
    (
        b"GET /x HTTP/1.1\r\nHost: 127.0.0.1\r\n\r\n",
        Wanted::NotFound(false),
        "another path",
    ),
    (
        b"GET / HTTP/1.1\r\nHost: evil.example\r\n\r\n",
        Wanted::OtherHost(false),
        "another host",
    ),
    (
        b"GET / HTTP/1.1\r\nHost: 127.0.0.1\r\nHost: evil.example\r\n\r\n",
        Wanted::Bad,
        "a second host",
    ),
    (
        b"GET / HTTP/1.1\r\nHost: 127.0.0.1\r\nHost: 127.0.0.1\r\n\r\n",
        Wanted::Bad,
        "a host twice",
    ),
    (b"GET / HTTP/1.1\r\n\r\n", Wanted::Bad, "no host"),
    (
        b"GET / HTTP/1.0\r\n\r\n",
        Wanted::Resource(Resource::Page, false),
        "no host in HTTP/1.0",
    ),
    (
        b"GET / HTTP/1.1\r\nHost: LocalHost\r\n\r\n",
        Wanted::Resource(Resource::Page, false),
        "this machine in another case",
    ),
    (
        b"GET / HTTP/1.1\r\nHost: [::1]evil\r\n\r\n",
        Wanted::OtherHost(false),
        "more behind a host",
    ),
    (
        b"GET / HTTP/1.1\r\nHost: 127.0.0.1:80x\r\n\r\n",
        Wanted::OtherHost(false),
        "no port",
    ),
    // A target in absolute form (RFC 9112 3.2.2).
    (
        b"GET http://localhost:9/metrics?a HTTP/1.1\r\nHost: localhost:9\r\n\r\n",
        Wanted::Resource(Resource::Metrics, false),
        "absolute form",
    ),
    (
        b"GET HTTP://127.0.0.1 HTTP/1.1\r\nHost: 127.0.0.1\r\n\r\n",
        Wanted::Resource(Resource::Page, false),
        "absolute form without a path",
    ),
    (
        b"GET http://evil.example/ HTTP/1.1\r\nHost: localhost\r\n\r\n",
        Wanted::OtherHost(false),
        "another host in the target",
    ),
    (
        b"GET * HTTP/1.1\r\nHost: localhost\r\n\r\n",
        Wanted::Bad,
        "a target of no resource",
    ),
    (
        b"GET / HTTP/1.1\r\nHost: 127.0.0.1.evil.example\r\n\r\n",
        Wanted::OtherHost(false),
        "a longer host",
    ),
    (b"\x00\x01\r\n\r\n", Wanted::Bad, "no request"),
    // A refused HEAD is a HEAD.
    (
        b"HEAD /x HTTP/1.1\r\nHost: 127.0.0.1\r\n\r\n",
        Wanted::NotFound(true),
        "another path",
    ),
    (
        b"HEAD / HTTP/1.1\r\nHost: evil.example\r\n\r\n",
        Wanted::OtherHost(true),
        "another host",
    ),
];

#[test]
fn requests_are_judged(_rt: HostRuntime) -> Result<(), Fail> {
    for (request, wanted, name) in REQUESTS {
        holds(wanted_of(request) == *wanted, name)?;
    }
    Ok(())
}

#[test]
fn a_request_waits_until_it_is_whole(_rt: HostRuntime) -> Result<(), Fail> {
    for length in 0..PAGE.len() {
        holds(wanted_of(&PAGE[..length]) == Wanted::Waiting, "cut off")?;
    }
    Ok(())
}
