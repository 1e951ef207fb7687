//! Reports that break a claim of `PlainHeadline`, and reports that have it.
//!
//! Each clause is about one small literal report of a small script (`specs/wrong_reports`). So each claim is seen to refuse
//! a wrong report, and to admit a right one.
ghost use Rattle.sms_world.specs.wrong_reports.Tried.{AcceptedLaw, AscendLaw, CancelLaw, CommonLaw, DeletedLaw, FinalLaw, ForgottenLaw, GivenLaw, GoneLaw};
ghost use Rattle.sms_world.specs.wrong_reports.Tried.{GoodLaw, JoinedLaw, JoinedTwiceLaw, LineLaw, NeverLaw, NumberLaw, OriginLaw, OtherEntryLaw, OtherTextLaw};
ghost use Rattle.sms_world.specs.wrong_reports.Tried.{OwnerLaw, QueryLaw, ReceiptLaw, ReceiptsLaw, RefusedCancelLaw, SentLaw, SplitLaw, StatusLaw, StoppedLaw};
ghost use Rattle.sms_world.specs.wrong_reports.Tried.{SystemErrorLaw, ToldLaw, TrueCancelLaw, TrueOwnerLaw, TrueQueryLaw, TrueSentLaw, TrueSplitLaw};
ghost use Rattle.sms_world.specs.wrong_reports.Tried.{TrueStopLaw, TwiceLaw, UnansweredLaw};
ghost use Rattle.sms_world.specs.wrong_reports.StatusReports.{DoneLaw, RecipientLaw, ReferenceLaw, RightLaw, StateLaw, SubmittedLaw};
ghost use Rattle.sms_world.specs.wrong_reports.Worlds.{FreshLaw, InTimeLaw, LateLaw, ReusedLaw};

/// The report of a text that was submitted, accepted and reported DELIVRD has the whole headline. A query that finds ENROUTE
/// and a cancellation that deletes are true. A submission that was stopped behind its store call makes a message, and is not
/// answered. A text that an owner wrote is a message from his handset, to the one that he wrote it to, and
/// its entry counts as sent. A text of two parts was delivered where both parts were accepted.
pub fn right_reports_are_admitted()
    ensures report { GoodLaw }
    ensures query { TrueQueryLaw }
    ensures cancel { TrueCancelLaw }
    ensures stopped { TrueStopLaw }
    ensures owner { TrueOwnerLaw }
    ensures sent { TrueSentLaw }
    ensures split { TrueSplitLaw }
{}

/// A message that was DELIVRD and is EXPIRED in a longer report, one whose line is gone there, and a receipt that is. A
/// message that has two lines, and one that is there before any event. One of a submission that was stopped before its
/// store call, and one of a submission that was not answered. An owner's text as a message to another handset, and one
/// whose frame is of an entry that the text has not.
pub fn wrong_messages_are_refused()
    ensures state { FinalLaw }
    ensures gone { GoneLaw }
    ensures forgotten { ForgottenLaw }
    ensures line { LineLaw }
    ensures event { OriginLaw }
    ensures stopped { StoppedLaw }
    ensures unanswered { UnansweredLaw }
    ensures owner { OwnerLaw }
    ensures entry { OtherEntryLaw }
{}

/// A receipt that says DELIVRD of an EXPIRED message, and two receipts of one message. A frame for a status report that is
/// not listed.
pub fn wrong_receipts_are_refused()
    ensures state { ReceiptLaw }
    ensures once { ReceiptsLaw }
    ensures unlisted { StatusLaw }
{}

/// A STATUS-REPORT says of its message what it does. One with another reference says another thing, and so does one with another recipient,
/// another date of either kind, or another state.
pub fn wrong_status_reports_are_refused()
    ensures right { RightLaw }
    ensures reference { ReferenceLaw }
    ensures recipient { RecipientLaw }
    ensures submitted { SubmittedLaw }
    ensures done { DoneLaw }
    ensures state { StateLaw }
{}

/// A number for two submissions. A query_sm that finds DELIVRD of a message under way. A cancel_sm that was answered
/// ESME_ROK and deletes nothing, and one that was refused and deletes. A message that a frame deletes. An answer ESME_RSYSERR. Two answers of one event.
pub fn wrong_answers_are_refused()
    ensures number { NumberLaw }
    ensures query { QueryLaw }
    ensures cancel { CancelLaw }
    ensures refused { RefusedCancelLaw }
    ensures deleted { DeletedLaw }
    ensures system_error { SystemErrorLaw }
    ensures twice { AscendLaw }
{}

/// A reference that is given twice at a handset in one second.
pub fn wrong_references_are_refused()
    ensures { GivenLaw }
{}

/// A DELIVRD message whose part was accepted twice, or never, or with another text. One that only its receipt calls DELIVRD. One of two parts, of which one was
/// accepted. What was accepted of nobody. An entry that counts as sent and is no message. What was joined of nothing. One
/// part in two joined texts.
pub fn wrong_deliveries_are_refused()
    ensures twice { TwiceLaw }
    ensures never { NeverLaw }
    ensures told { ToldLaw }
    ensures text { OtherTextLaw }
    ensures half { SplitLaw }
    ensures accepted { AcceptedLaw }
    ensures sent { SentLaw }
    ensures joined { JoinedLaw }
    ensures common { CommonLaw }
{}

/// Two parts that one text was joined from, and joined once more.
pub fn what_is_joined_twice_is_refused()
    ensures { JoinedTwiceLaw }
{}

/// A frame of a message whose reference the centre gave to another message since is not timely, and that of the other one is. A first part
/// that comes again, before its handset has accepted any part of the text, does not begin it afresh. Where none came before, it may begin.
pub fn broken_premises_are_seen()
    ensures late { LateLaw }
    ensures in_time { InTimeLaw }
    ensures reused { ReusedLaw }
    ensures fresh { FreshLaw }
{}
