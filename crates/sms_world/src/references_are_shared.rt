//! A law: no account takes all references of a handset.
//!
//! Each part and each status report that waits for a handset holds one of its 256 references (3GPP TS 24.011 8.2.3). The
//! definition's test of a submit_sm (`sms_centre_spec/specs/Shares.antt`) is told here in the subject's words. This module has a law
//! and no code.
ghost use Rattle.std.specs.Prelude.{◌≡◌, ℕ, Some};
ghost use Rattle.smpp_pdu.specs.declared.message.Message.{Message};
ghost use Rattle.sms_centre_spec.specs.CentreEvent.{happened};
ghost use Rattle.sms_centre_spec.specs.Draft.{Core, core_of};
ghost use Rattle.sms_centre_spec.specs.Requests.{account_at};
ghost use Rattle.sms_centre_spec.specs.declared.answer.CentreAnswer.TheVariants.{Submitted};
ghost use Rattle.sms_centre_spec.specs.declared.event.CentreEvent.TheVariants.{Submit};
ghost use Rattle.sms_world.specs.references_are_shared.Sharing.{LeavesHalf};

/// Where a submit_sm is accepted, the message is its account's. With it the account holds at most half of what is free beside others, of
/// the 256 references of that handset.
pub fn an_account_leaves_half_to_others()
    ensures { (place : ℕ) (message : Message) (c : Core) (id : ℕ) → (happened (Submit place message) c).answer ≡ Some (Submitted id)
        → LeavesHalf (account_at place c.rows.setup.accounts) id (core_of (happened (Submit place message) c)).rows }
{}
