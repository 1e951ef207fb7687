//! The units of the relay layer.
use crate::cause::RpCause;
use sms_base::OctetView;

/// A unit of either direction, over octets that it borrows (3GPP TS 24.011 7.3).
///
/// `reference` is the RP-Message Reference, by which an answer is matched to what it answers. A `unit` is a TPDU
/// of 0 to 255 octets, passed unread.
#[derive(Drop)]
pub enum Rp<'a> {
    /// RP-DATA. `centre` is the address value of the service centre, 2 to 11 octets: the type octet and the
    /// digits, passed unread. It is the destination upwards and the originator downwards; the address of the
    /// other side is empty.
    DataUnit {
        reference: u8,
        centre: OctetView<'a>,
        unit: OctetView<'a>,
    },
    /// RP-ACK, with user data or none.
    AckUnit {
        reference: u8,
        unit: Option<OctetView<'a>>,
    },
    /// RP-ERROR, with user data or none. A diagnostic octet passes unread and is not kept.
    ErrorUnit {
        reference: u8,
        cause: RpCause,
        unit: Option<OctetView<'a>>,
    },
    /// RP-SMMA: the handset has memory again. It is sent up alone.
    Smma {
        reference: u8,
    },
}
