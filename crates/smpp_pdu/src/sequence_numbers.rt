//! The sequence numbers of a session's requests (SMPP v3.4 3.2).
ghost use Rattle.std.specs.Prelude.{◌≡◌};
ghost use Rattle.smpp_pdu.specs.SequenceNumbers.{number_after};

// The last sequence number, after which they begin again.
const LAST_NUMBER: u32 = 0x7FFF_FFFF;

/// The sequence number behind that one. They run from 1 to 7FFFFFFF hexadecimal and around, and 0 stands before the first.
pub fn number_after(number: u32) -> u32
    ensures { result ≡ number_after number }
{
    if number < LAST_NUMBER { number + 1 } else { 1 }
}
