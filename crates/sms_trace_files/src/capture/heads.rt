//! The heads in front of a frame and of a PDU in a packet.
ghost use Rattle.std.specs.Prelude.{◌≡◌};
ghost use Rattle.sms_trace_files.specs.capture.Packets.{datagram_head, gsmtap_head, internet_fields, internet_head};

use crate::capture::checksum::summed;
use crate::capture::host::Host;

pub(crate) const CENTRE: Host = Host {
    network: 0,
    number: 1,
};

const GSMTAP_PORT: u16 = 4729;

fn internet_fields(protocol: u8, size: u16, check: u16, source: Host, destination: Host) -> [u8; 20]
    ensures { result ≡ internet_fields protocol size check source destination }
{
    [
        69,
        0,
        (size / 256 % 256) as u8,
        (size % 256) as u8,
        0,
        0,
        0,
        0,
        64,
        protocol,
        (check / 256 % 256) as u8,
        (check % 256) as u8,
        10,
        source.network,
        (source.number / 256 % 256) as u8,
        (source.number % 256) as u8,
        10,
        destination.network,
        (destination.number / 256 % 256) as u8,
        (destination.number % 256) as u8,
    ]
}

pub(crate) fn internet_head(protocol: u8, size: u16, source: Host, destination: Host) -> [u8; 20]
    ensures { result ≡ internet_head protocol size source destination }
{
    let bare = internet_fields(protocol, size, 0, source, destination);
    internet_fields(
        protocol,
        size,
        65_535 - summed(0, &bare),
        source,
        destination,
    )
}

pub(crate) fn datagram_head(size: u16) -> [u8; 8]
    ensures { result ≡ datagram_head size }
{
    [
        (GSMTAP_PORT / 256 % 256) as u8,
        (GSMTAP_PORT % 256) as u8,
        (GSMTAP_PORT / 256 % 256) as u8,
        (GSMTAP_PORT % 256) as u8,
        (size / 256 % 256) as u8,
        (size % 256) as u8,
        0,
        0,
    ]
}

pub(crate) fn gsmtap_head(is_up: bool) -> [u8; 16]
    ensures { result ≡ gsmtap_head is_up }
{
    let way = if is_up { 64 } else { 0 };
    [2, 4, 2, 0, way, 0, 0, 0, 0, 0, 0, 0, 0, 0, 0, 0]
}
