//! How octets spell a content.
use sms_alphabet::Coding;

/// What the octets of a content are.
#[derive(Clone, Copy, PartialEq, Eq)]
pub(crate) enum ContentForm {
    /// The octets are units in this coding, under this data coding scheme.
    Units { coding: Coding, scheme: u8 },
    /// The codes of its characters, which are coded as they allow.
    Characters,
}
