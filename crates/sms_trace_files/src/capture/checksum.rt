//! The checksum of the Internet protocols (RFC 1071).
ghost use Rattle.std.specs.Prelude.{◌≡◌, ◌*◌, true, if◌then◌else◌};
ghost use Rattle.sms_trace_files.specs.capture.Packets.{carried, summed};

#[tactic(auto, unfolding(crate::specs::capture::Packets::carried))]
fn carried(one: u16, other: u16) -> u16
    ensures { result ≡ carried one other }
{
    let sum = u32::from(one) + u32::from(other);
    if sum >= 65_536 {
        (sum - 65_535) as u16
    } else {
        sum as u16
    }
}

// What an octet counts.
fn worth(is_first: bool, octet: u8) -> u16
    ensures { result ≡ (if is_first then 256 * octet else octet) }
{
    if is_first {
        256 * u16::from(octet)
    } else {
        u16::from(octet)
    }
}

// The sum of an even number of octets behind others, or of the last ones.
pub(crate) fn summed(start: u16, octets: &[u8]) -> u16
    ensures { result ≡ summed true start octets.now }
{
    let mut sum = start;
    let mut is_first = true;
    for octet in octets {
        sum = carried(sum, worth(is_first, *octet));
        is_first = !is_first;
    }
    sum
}
