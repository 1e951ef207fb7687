/// How a message ended: the final states of a receipt (SMPP v3.4 5.2.28).
#[derive(Clone, Copy, PartialEq, Eq)]
pub enum FinalState {
    /// Each part was accepted.
    Delivered,
    /// The validity period of the message ended.
    Expired,
    /// The message was cancelled.
    Deleted,
    /// The message was refused for good.
    Undeliverable,
}

impl FinalState {
    ghost use Rattle.std.specs.Prelude.{◌≡◌};
    ghost use Rattle.sms_base.specs.FinalWords.{final_word};

    /// The word of a receipt for the state (SMPP v3.4 appendix B).
    pub fn word(self) -> &'static str
        ensures { result.now ≡ final_word self }
    {
        match self {
            FinalState::Delivered => "DELIVRD",
            FinalState::Expired => "EXPIRED",
            FinalState::Deleted => "DELETED",
            FinalState::Undeliverable => "UNDELIV",
        }
    }
}
