//! No PDU shows the password that it has.
use crate::pdus::exchanges::BIND;
use crate::rows::{hides, holds};
use smpp_pdu::{Body, Pdu};
use std::alloc::Global;
use std::test::Fail;

// How the octets app1 are printed.
const NAME: &str = "97, 112, 112, 49";

// What does not hide the password: a PDU, its body, or its bind; nothing, where each does.
fn shown_by(alloc: Global, pdu: &Pdu<'_>) -> &'static str {
    match &pdu.body {
        Body::BindTransceiver(bind) => {
            if !hides(alloc, pdu, NAME) {
                "a PDU"
            } else if !hides(alloc, &pdu.body, NAME) {
                "its body"
            } else if !hides(alloc, bind, NAME) {
                "its bind"
            } else {
                ""
            }
        }
        _ => "no bind_transceiver",
    }
}

#[test]
fn pdus_hide_the_password(rt: HostRuntime) -> Result<(), Fail> {
    let pdu = Pdu::read(&BIND)?;
    let shown = shown_by(rt.alloc(), &pdu);
    holds(shown.is_empty(), shown)
}
