//! Laws of submissions, over their definitions alone.
ghost use Rattle.std.specs.Prelude.{◌≡◌, ℕ, List, Err};
ghost use Rattle.sms_tpdu.specs.TpduGrammar.{IsWrittenDeliver};
ghost use Rattle.sms_tpdu.specs.declared.deliver.Deliver.{Deliver};
ghost use Rattle.smpp_pdu.specs.declared.message.Message.{Message};
ghost use Rattle.smpp_pdu.specs.declared.status.CommandStatus.{CommandStatus};
ghost use Rattle.sms_intake.specs.PartBodies.{deliver_written};
ghost use Rattle.sms_intake.specs.SmppIntake.{from_pdu, front_in};
ghost use Rattle.sms_intake.specs.declared.submission.CentreAccount.{CentreAccount};

/// The written list of a DELIVER is the one that the grammar has.
pub fn a_written_deliver_is_the_list()
    ensures { (octets : List ℕ) (deliver : Deliver) → IsWrittenDeliver octets deliver → octets ≡ deliver_written deliver }
{}

/// What is judged before the text of a submit_sm refuses first.
pub fn the_front_refuses_first()
    ensures { (account : CentreAccount) (now : ℕ) (message : Message) (status : CommandStatus) → front_in account message ≡ Err status
        → from_pdu account now message ≡ Err status }
{}
