//! The heads in front of a PDU in a packet.
ghost use Rattle.std.specs.Prelude.{◌≡◌, ◌≤◌, length};
ghost use Rattle.sms_trace_files.specs.capture.Packets.{segment_checksum, segment_fields, segment_front, way_of};

use crate::capture::checksum::summed;
use crate::capture::heads::CENTRE;
use crate::capture::host::Host;

const SMPP_PORT: u16 = 2775;

const APPLICATION_PORT: u16 = 49_152;

// From where to where a segment goes, and how many octets its sender has sent before and was sent.
#[derive(Clone, Copy, PartialEq, Eq)]
pub(crate) struct Way {
    pub(crate) source: Host,
    pub(crate) destination: Host,
    pub(crate) source_port: u16,
    pub(crate) destination_port: u16,
    pub(crate) sent: u32,
    pub(crate) received: u32,
}

pub(crate) fn way_of(application: u16, is_up: bool, sent: u32, received: u32) -> Way
    ensures { result ≡ way_of application is_up sent received }
{
    let host = Host {
        network: 1,
        number: application,
    };
    if is_up {
        Way {
            source: host,
            destination: CENTRE,
            source_port: APPLICATION_PORT,
            destination_port: SMPP_PORT,
            sent,
            received,
        }
    } else {
        Way {
            source: CENTRE,
            destination: host,
            source_port: SMPP_PORT,
            destination_port: APPLICATION_PORT,
            sent,
            received,
        }
    }
}

fn segment_front(size: u16, way: &Way) -> [u8; 12]
    ensures { result ≡ segment_front size way.now.source way.now.destination }
{
    [
        10,
        way.source.network,
        (way.source.number / 256 % 256) as u8,
        (way.source.number % 256) as u8,
        10,
        way.destination.network,
        (way.destination.number / 256 % 256) as u8,
        (way.destination.number % 256) as u8,
        0,
        6,
        (size / 256 % 256) as u8,
        (size % 256) as u8,
    ]
}

fn segment_fields(way: &Way, check: u16) -> [u8; 20]
    ensures { result ≡ segment_fields way.now check }
{
    [
        (way.source_port / 256 % 256) as u8,
        (way.source_port % 256) as u8,
        (way.destination_port / 256 % 256) as u8,
        (way.destination_port % 256) as u8,
        (way.sent / 16_777_216 % 256) as u8,
        (way.sent / 65_536 % 256) as u8,
        (way.sent / 256 % 256) as u8,
        (way.sent % 256) as u8,
        (way.received / 16_777_216 % 256) as u8,
        (way.received / 65_536 % 256) as u8,
        (way.received / 256 % 256) as u8,
        (way.received % 256) as u8,
        80,
        24,
        255,
        255,
        (check / 256 % 256) as u8,
        (check % 256) as u8,
        0,
        0,
    ]
}

// The checksum of a segment of at most 65,495 octets.
fn segment_checksum(way: &Way, octets: &[u8]) -> u16
    requires { length octets.now ≤ 65495 }
    ensures { result ≡ segment_checksum way.now octets.now }
{
    let front = segment_front(20 + octets.len() as u16, way);
    let bare = segment_fields(way, 0);
    65_535 - summed(summed(summed(0, &front), &bare), octets)
}

// The head of a segment of at most 65,495 octets.
pub(crate) fn checked_fields(way: &Way, octets: &[u8]) -> [u8; 20]
    requires { length octets.now ≤ 65495 }
    ensures { result ≡ segment_fields way.now (segment_checksum way.now octets.now) }
{
    segment_fields(way, segment_checksum(way, octets))
}
