//! The header in front of a content.
use sms_base::OctetView;
use sms_concat::ConcatKey;

/// The header in front of a content.
#[derive(Drop)]
pub(crate) enum HeaderForm<'a> {
    /// Nothing.
    Without,
    /// The header of the sender, and its key.
    Given {
        header: OctetView<'a>,
        key: Option<ConcatKey>,
    },
    /// A header of sar values.
    Sar(ConcatKey),
}
