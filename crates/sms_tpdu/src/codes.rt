//! Causes of failure and statuses, with their numbers.
ghost use Rattle.std.specs.Prelude.{◌≡◌};
ghost use Rattle.sms_tpdu.specs.Codes.{cause_octet, status_octet};

/// A TP-FCS that this centre or its handsets give (3GPP TS 23.040 9.2.3.22).
#[derive(Clone, Copy, PartialEq, Eq)]
pub enum FailureCause {
    ServiceCentreBusy,
    ServiceCentreSystemFailure,
    InvalidSmeAddress,
    /// The destination takes no short message of this kind.
    DestinationBarred,
    /// The short message was rejected as a duplicate.
    DuplicateShortMessage,
    ValidityPeriodFormatNotSupported,
    /// The handset has no memory left.
    MemoryCapacityExceeded,
    UnspecifiedErrorCause,
}

impl FailureCause {
    /// The octet of the cause.
    pub fn octet(self) -> u8
        ensures { result ≡ cause_octet self }
    {
        match self {
            FailureCause::ServiceCentreBusy => 0xC0,
            FailureCause::ServiceCentreSystemFailure => 0xC2,
            FailureCause::InvalidSmeAddress => 0xC3,
            FailureCause::DestinationBarred => 0xC4,
            FailureCause::DuplicateShortMessage => 0xC5,
            FailureCause::ValidityPeriodFormatNotSupported => 0xC6,
            FailureCause::MemoryCapacityExceeded => 0xD3,
            FailureCause::UnspecifiedErrorCause => 0xFF,
        }
    }
}

/// A TP-ST that this centre gives (3GPP TS 23.040 9.2.3.15).
#[derive(Clone, Copy, PartialEq, Eq)]
pub enum Status {
    /// The handset received the message.
    Received,
    /// The message was undeliverable.
    RemoteProcedureError,
    ValidityPeriodExpired,
    DeletedByServiceCentre,
}

impl Status {
    /// The octet of the status.
    pub fn octet(self) -> u8
        ensures { result ≡ status_octet self }
    {
        match self {
            Status::Received => 0x00,
            Status::RemoteProcedureError => 0x40,
            Status::ValidityPeriodExpired => 0x46,
            Status::DeletedByServiceCentre => 0x48,
        }
    }
}
