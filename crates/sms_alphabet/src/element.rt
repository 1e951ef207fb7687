//! One element of a header.
use sms_base::OctetView;

/// An information element (3GPP TS 23.040 9.2.3.24).
#[derive(Drop)]
pub struct Element<'a> {
    /// What the element is about (information element identifier).
    pub identifier: u8,
    /// The octets that it carries (information element data).
    pub octets: OctetView<'a>,
}
