//! The sequence numbers of a session (SMPP v3.4 3.2).
ghost use Rattle.std.specs.Prelude.{◌≡◌};
ghost use Rattle.smpp_pdu.specs.SequenceNumbers.{number_after};

use smpp_pdu::number_after;

/// The last sequence numbers of an application and of the centre. Each counts its own requests, from 1; an answer bears the number of
/// its request.
#[derive(Clone, Copy)]
pub struct SequenceNumbers {
    /// The number of the application's last request.
    pub asked: u32,
    /// The number of the centre's last deliver_sm to it.
    pub delivered: u32,
}

impl SequenceNumbers {
    /// The numbers of a session before its first PDU.
    pub fn new() -> SequenceNumbers
        ensures asked { result.asked ≡ 0 }
        ensures delivered { result.delivered ≡ 0 }
    {
        SequenceNumbers {
            asked: 0,
            delivered: 0,
        }
    }

    /// The application asks: the number of its request.
    pub fn ask(&mut self) -> u32
        ensures number { result ≡ self.new.asked }
        ensures next { self.new.asked ≡ number_after self.old.asked }
        ensures delivered { self.new.delivered ≡ self.old.delivered }
    {
        self.asked = number_after(self.asked);
        self.asked
    }

    /// The centre sends it a deliver_sm: the number of that.
    pub fn deliver(&mut self) -> u32
        ensures number { result ≡ self.new.delivered }
        ensures next { self.new.delivered ≡ number_after self.old.delivered }
        ensures asked { self.new.asked ≡ self.old.asked }
    {
        self.delivered = number_after(self.delivered);
        self.delivered
    }
}
