//! Whether more messages wait for the handset (TP-MMS, 3GPP TS 23.040 9.2.3.2).
ghost use Rattle.std.specs.Prelude.{◌≡◌};
ghost use Rattle.sms_tpdu.specs.MoreMessages.{octet_with_more_messages, same_message, with_more_messages};

use sms_base::Octets;

/// Bit 2 of the first octet, by its value.
const NO_MORE_MESSAGES: u8 = 4;

fn first_octet(more: bool, first: u8) -> u8
    ensures { result ≡ octet_with_more_messages more first }
{
    let bit = if more { 0 } else { NO_MORE_MESSAGES };
    8 * (first / 8) + bit + first % 4
}

/// Whether the octets of two TPDUs are equal but for bit 2 of the first octet: one message, sent twice.
///
/// Takes no memory.
#[tactic(auto, unfolding(crate::specs::MoreMessages::compared))]
pub fn same_message(one: &[u8], other: &[u8]) -> bool
    ensures { result ≡ same_message one.now other.now }
{
    match (one, other) {
        ([], []) => true,
        ([first, rest @ ..], [other_first, other_rest @ ..]) => {
            first_octet(false, *first) == first_octet(false, *other_first) && rest == other_rest
        }
        _ => false,
    }
}

/// Sets whether more messages wait for the handset, in the octets of a DELIVER or of a STATUS-REPORT.
///
/// Takes no memory.
pub fn set_more_messages(octets: &mut [u8], more: bool)
    ensures { octets.new ≡ with_more_messages more octets.old }
{
    match octets {
        [] => {}
        [first, ..] => *first = first_octet(more, *first),
    }
}
