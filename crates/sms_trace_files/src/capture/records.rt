//! Records of a capture file.
ghost use Rattle.std.specs.Prelude.{◌≡◌, ◌++◌, ◌+◌, ◌≤◌, length, OnOk, if◌then◌else◌};
ghost use Rattle.sms_trace_files.specs.capture.Packets.{centre_host, datagram_head, frame_head, handset_host, internet_head, segment_head, way_of};
ghost use Rattle.sms_trace_files.specs.capture.Records.{file_head, frame_record, pdu_record, record_head};

use crate::capture::heads::{CENTRE, datagram_head, gsmtap_head, internet_head};
use crate::capture::host::Host;
use crate::capture::segments::{Way, checked_fields, way_of};
use sms_base::{Moment, OctetView, Octets};
use std::alloc::AllocError;

const FILE_HEAD: [u8; 24] = [
    212, 195, 178, 161, 2, 0, 4, 0, 0, 0, 0, 0, 0, 0, 0, 0, 255, 255, 0, 0, 101, 0, 0, 0,
];

/// A frame on the link of a handset, at most 251 octets.
#[derive(Drop)]
pub struct CapturedFrame<'a> {
    pub moment: Moment,
    /// The place of the handset among all.
    pub handset: u16,
    /// Whether the handset sent it.
    pub is_up: bool,
    pub octets: OctetView<'a>,
}

/// A PDU of an application, or to it, at most 65,495 octets.
#[derive(Drop)]
pub struct CapturedPdu<'a> {
    pub moment: Moment,
    /// The place of the application among all.
    pub application: u16,
    /// Whether the application sent it.
    pub is_up: bool,
    /// How many octets its sender had sent over the connection before.
    pub sent: u32,
    /// How many octets its sender was sent over the connection.
    pub received: u32,
    pub octets: OctetView<'a>,
}

/// The head of a capture file, before all records.
pub fn put_file_head(out: &mut Octets) -> Result<(), AllocError>
    ensures { OnOk result (out.new ≡ out.old ++ file_head) }
{
    out.append(&FILE_HEAD)
}

// What stands before each packet.
fn record_head(moment: Moment, size: u16) -> [u8; 16]
    ensures { result ≡ record_head moment size }
{
    let second = moment.seconds();
    [
        (second % 256) as u8,
        (second / 256 % 256) as u8,
        (second / 65_536 % 256) as u8,
        (second / 16_777_216 % 256) as u8,
        0,
        0,
        0,
        0,
        (size % 256) as u8,
        (size / 256 % 256) as u8,
        0,
        0,
        (size % 256) as u8,
        (size / 256 % 256) as u8,
        0,
        0,
    ]
}

// Octets and others behind them.
fn put_both(out: &mut Octets, first: &[u8], second: &[u8]) -> Result<(), AllocError>
    ensures { OnOk result (out.new ≡ out.old ++ first.now ++ second.now) }
{
    out.append(first)?;
    out.append(second)
}

fn host_of(handset: u16) -> Host
    ensures { result ≡ handset_host handset }
{
    Host {
        network: 2,
        number: handset,
    }
}

fn frame_route(frame: &CapturedFrame<'_>) -> [u8; 20]
    requires { length frame.now.octets ≤ 251 }
    ensures { result ≡ internet_head 17 (44 + length frame.now.octets) (if frame.now.is_up then handset_host frame.now.handset else centre_host)
        (if frame.now.is_up then centre_host else handset_host frame.now.handset) }
{
    let size = 44 + frame.octets.as_slice().len() as u16;
    if frame.is_up {
        internet_head(17, size, host_of(frame.handset), CENTRE)
    } else {
        internet_head(17, size, CENTRE, host_of(frame.handset))
    }
}

fn frame_datagram(frame: &CapturedFrame<'_>) -> [u8; 8]
    requires { length frame.now.octets ≤ 251 }
    ensures { result ≡ datagram_head (24 + length frame.now.octets) }
{
    datagram_head(24 + frame.octets.as_slice().len() as u16)
}

fn put_frame_head(out: &mut Octets, frame: &CapturedFrame<'_>) -> Result<(), AllocError>
    requires { length frame.now.octets ≤ 251 }
    ensures { OnOk result (out.new ≡ out.old ++ frame_head frame.now.handset frame.now.is_up (length frame.now.octets)) }
{
    out.append(&frame_route(frame))?;
    put_both(out, &frame_datagram(frame), &gsmtap_head(frame.is_up))?;
    Ok(())
}

fn frame_record_head(frame: &CapturedFrame<'_>) -> [u8; 16]
    requires { length frame.now.octets ≤ 251 }
    ensures { result ≡ record_head frame.now.moment (44 + length frame.now.octets) }
{
    record_head(frame.moment, 44 + frame.octets.as_slice().len() as u16)
}

/// The record of a frame.
pub fn put_frame(out: &mut Octets, frame: &CapturedFrame<'_>) -> Result<(), AllocError>
    requires { length frame.now.octets ≤ 251 }
    ensures { OnOk result (out.new ≡ out.old ++ frame_record frame.now.moment frame.now.handset frame.now.is_up frame.now.octets) }
{
    out.append(&frame_record_head(frame))?;
    put_frame_head(out, frame)?;
    out.append(frame.octets.as_slice())?;
    Ok(())
}

fn segment_route(way: &Way, octets: &[u8]) -> [u8; 20]
    requires { length octets.now ≤ 65495 }
    ensures { result ≡ internet_head 6 (40 + length octets.now) way.now.source way.now.destination }
{
    let size = 40 + octets.len() as u16;
    internet_head(6, size, way.source, way.destination)
}

fn put_segment_head(out: &mut Octets, way: &Way, octets: &[u8]) -> Result<(), AllocError>
    requires { length octets.now ≤ 65495 }
    ensures { OnOk result (out.new ≡ out.old ++ segment_head way.now octets.now) }
{
    let route = segment_route(way, octets);
    let fields = checked_fields(way, octets);
    put_both(out, &route, &fields)?;
    Ok(())
}

fn pdu_record_head(pdu: &CapturedPdu<'_>) -> [u8; 16]
    requires { length pdu.now.octets ≤ 65495 }
    ensures { result ≡ record_head pdu.now.moment (40 + length pdu.now.octets) }
{
    record_head(pdu.moment, 40 + pdu.octets.as_slice().len() as u16)
}

fn put_pdu_head(out: &mut Octets, pdu: &CapturedPdu<'_>) -> Result<(), AllocError>
    requires { length pdu.now.octets ≤ 65495 }
    ensures { OnOk result (out.new ≡ out.old ++ segment_head (way_of pdu.now.application pdu.now.is_up pdu.now.sent pdu.now.received) pdu.now.octets) }
{
    let way = way_of(pdu.application, pdu.is_up, pdu.sent, pdu.received);
    put_segment_head(out, &way, pdu.octets.as_slice())
}

/// The record of a PDU.
pub fn put_pdu(out: &mut Octets, pdu: &CapturedPdu<'_>) -> Result<(), AllocError>
    requires { length pdu.now.octets ≤ 65495 }
    ensures { OnOk result (out.new ≡ out.old ++ pdu_record pdu.now.moment pdu.now.application pdu.now.is_up pdu.now.sent pdu.now.received pdu.now.octets) }
{
    out.append(&pdu_record_head(pdu))?;
    put_pdu_head(out, pdu)?;
    out.append(pdu.octets.as_slice())?;
    Ok(())
}
