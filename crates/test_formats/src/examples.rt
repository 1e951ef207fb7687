//! A moment, units and TPDUs that several tests take.

/// Thursday 29 February 2024, 23:59:58 at UTC.
pub(crate) const LEAP_DAY: u64 = 1_709_251_198;

/// RP-SMMA under the reference 5 (3GPP TS 24.011 7.3.2).
pub(crate) const SMMA: &[u8] = b"\x06\x05";

/// A SUBMIT of `hello` to 447700900456 (3GPP TS 23.040 9.2.2.2).
pub(crate) const SUBMIT: &[u8] =
    b"\x01\x07\x0C\x91\x44\x77\x00\x09\x40\x65\x00\x00\x05\xE8\x32\x9B\xFD\x06";

/// A DELIVER of `hello` from 447700900123 (9.2.2.1).
pub(crate) const DELIVER: &[u8] =
    b"\x04\x0C\x91\x44\x77\x00\x09\x10\x32\x00\x00\x42\x20\x92\x32\x95\x85\x00\x05\xE8\x32\x9B\xFD\x06";
