//! Laws of submissions, over the centre's definition alone.
ghost use Rattle.std.specs.Prelude.{◌≡◌, ℕ, List, Err, Ok, Some};
ghost use Rattle.smpp_pdu.specs.declared.status.CommandStatus.TheVariants.{ESME_RMSGQFUL, ESME_RSUBMITFAIL};
ghost use Rattle.sms_base.specs.declared.holder.Holder.{Holder};
ghost use Rattle.sms_base.specs.declared.originator.Originator.TheVariants.{Application, Handset};
ghost use Rattle.sms_intake.specs.declared.refusal.SubmitRefusal.{SubmitRefusal};
ghost use Rattle.sms_intake.specs.declared.refusal.SubmitRefusal.TheVariants.{Congested, Duplicate, ReferenceTaken};
ghost use Rattle.sms_intake.specs.declared.submission.Submission.{Submission};
ghost use Rattle.sms_centre_spec.specs.Consistent.{IsConsistent, IsSubmission};
ghost use Rattle.sms_centre_spec.specs.Draft.{Draft, Store, answer_with, in_store};
ghost use Rattle.sms_centre_draft.specs.Judging.{judged};
ghost use Rattle.sms_centre_spec.specs.Receiving.{confirm, refuse, submit_received};
ghost use Rattle.sms_centre_spec.specs.Requests.{refused, submission_received};
ghost use Rattle.sms_centre_spec.specs.Submitting.{accept};
ghost use Rattle.sms_centre_spec.specs.declared.answer.CentreAnswer.TheVariants.{Submitted};

/// An application's submission ends as the rows before it judge it: it is the message of that number, or it is refused by the status
/// of that verdict, and nothing else changes. No verdict on it is that it is a duplicate.
pub fn a_submission_is_judged_by_the_rows()
    ensures accepted { (u : Submission) (account : List ℕ) (d : Draft) (id : ℕ) → IsConsistent d.store → IsSubmission u → u.originator ≡ Application account
        → judged u d.store ≡ Ok id
        → (s : Store) × ((accept u d.store ≡ Some s) × (submission_received (Ok u) d ≡ answer_with (Submitted id) (in_store s d))) }
    ensures taken { (u : Submission) (account : List ℕ) (d : Draft) → IsConsistent d.store → IsSubmission u → u.originator ≡ Application account
        → judged u d.store ≡ Err ReferenceTaken → submission_received (Ok u) d ≡ refused ESME_RSUBMITFAIL d }
    ensures congested { (u : Submission) (account : List ℕ) (d : Draft) → IsConsistent d.store → IsSubmission u → u.originator ≡ Application account
        → judged u d.store ≡ Err Congested → submission_received (Ok u) d ≡ refused ESME_RMSGQFUL d }
    ensures alone { (u : Submission) (account : List ℕ) (s : Store) → u.originator ≡ Application account → judged u s ≡ Err Duplicate → ⊥ }
{}

/// A SUBMIT ends as the rows before it judge it: it is confirmed, with its message in the rows, or it is refused by that verdict, and
/// nothing else changes.
pub fn a_submit_is_judged_by_the_rows()
    ensures accepted { (u : Submission) (n reference : ℕ) (handset : List ℕ) (tag : Holder) (d : Draft) (id : ℕ) → IsConsistent d.store → IsSubmission u
        → u.originator ≡ Handset n → judged u d.store ≡ Ok id
        → (s : Store) × ((accept u d.store ≡ Some s) × (submit_received handset reference tag (Ok u) d ≡ confirm handset reference tag (in_store s d))) }
    ensures refused { (u : Submission) (n reference : ℕ) (handset : List ℕ) (tag : Holder) (d : Draft) (refusal : SubmitRefusal) → IsConsistent d.store
        → IsSubmission u → u.originator ≡ Handset n → judged u d.store ≡ Err refusal
        → submit_received handset reference tag (Ok u) d ≡ refuse handset reference tag refusal d }
{}
