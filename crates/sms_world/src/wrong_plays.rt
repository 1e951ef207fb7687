//! Play states that break a claim of `Headline`.
//!
//! Each clause is about one small literal play state or report (`specs/wrong_plays`). So each claim over rows is seen to
//! refuse a wrong one, as those over lines are in `crate::wrong_reports`.
ghost use Rattle.sms_world.specs.wrong_plays.Happened.{CancelledAgainLaw, CancelledAllTheSameLaw, FalseQueryLaw, FromQueryLaw, FromStoppedLaw};
ghost use Rattle.sms_world.specs.wrong_plays.Happened.{ImpossibleStepLaw, NotCancelledLaw, NotOfEventLaw, NotTakenInLaw, OtherIdLaw, OtherMomentLaw};
ghost use Rattle.sms_world.specs.wrong_plays.Happened.{OtherNumberLaw, OthersQueryLaw, QueryEndsLaw, ReceiptEarlyLaw, ReceiptNotListedLaw, ReceiptToOtherLaw};
ghost use Rattle.sms_world.specs.wrong_plays.Happened.{ReceiptToTransmitterLaw, ReceiptUnboundLaw, ReceiptUndatedLaw, RightQueryLaw, RightReceiptLaw};
ghost use Rattle.sms_world.specs.wrong_plays.Pieces.{EntryWithoutRowLaw, JoinedUnknownLaw, NoRoundLaw, ReportShutLaw, ReportUnknownLaw, ReportWithoutRowLaw};
ghost use Rattle.sms_world.specs.wrong_plays.Pieces.{RightRoundLaw, TwoPartsLaw};
ghost use Rattle.sms_world.specs.wrong_plays.Played.{LateAloneLaw, LateFrameLaw, LostPartLaw, LostTextLaw, NoReceiptLaw, NotAnsweredLaw, OnePartMoreLaw};
ghost use Rattle.sms_world.specs.wrong_plays.Played.{OtherHandsetLaw, OtherLimitLaw, OtherOriginatorLaw, OtherProtocolLaw, OtherSourceLaw, OtherSplitLaw};
ghost use Rattle.sms_world.specs.wrong_plays.Played.{OtherReportLaw, OtherWishLaw, RightFreshLaw, RightReportLaw, RightTimelyLaw, ShortLaw, StaleAloneLaw};
ghost use Rattle.sms_world.specs.wrong_plays.SentUp.{AloneLaw, CommonLaw, FrameLaw, HandsetLaw, NextLaw, OwnersLaw, ReferenceLaw, RightLaw, SentByOtherLaw};
ghost use Rattle.sms_world.specs.wrong_plays.SentUp.{SentOtherTextLaw, SourceLaw, SubmittedTextLaw, TakersLaw, TextLaw, WishLaw};
ghost use Rattle.sms_world.specs.wrong_plays.Shown.{AcceptedUnknownLaw, BeginningLaw, EntryUnknownLaw, FrameSaysNothingLaw, FrameUnknownLaw, GivenUnknownLaw};
ghost use Rattle.sms_world.specs.wrong_plays.Shown.{GivenUpUnknownLaw, GivenWithoutRowLaw, HolderWithoutRowLaw, MessageUnknownLaw, MessageWithoutRowLaw};
ghost use Rattle.sms_world.specs.wrong_plays.Shown.{NotApartLaw, OpenReportLaw, PartNotGivenLaw, PartUnknownLaw, ReceiptUnknownLaw, ReceiptUnlistedLaw};
ghost use Rattle.sms_world.specs.wrong_plays.SplitText.{MixedRoundLaw, NoPlaceLaw, OtherContentLaw, OtherPlanLaw, OtherRowLaw, OtherWordsLaw, RightSplitLaw};
ghost use Rattle.sms_world.specs.wrong_plays.Told.{AcceptedTwiceLaw, FromNoneLaw, GivenTwiceLaw, HeldTwiceLaw, JoinedOfNoneLaw, LineGoneLaw, LineOfNoneLaw};
ghost use Rattle.sms_world.specs.wrong_plays.Told.{LinesLaw, NeverAcceptedLaw, NobodysLaw, NotGivenLaw, NotListedLaw, NotThereLaw, OtherEndLaw, OtherStateLaw};
ghost use Rattle.sms_world.specs.wrong_plays.Told.{OtherTextLaw, PartTwiceLaw, ReceiptGoneLaw, ReceiptOfNoneLaw, RightToldLaw, SentElsewhereLaw, SentOfNoneLaw};
ghost use Rattle.sms_world.specs.wrong_plays.Told.{SplitOfNoneLaw, SystemErrorLaw, ToRecipientLaw, ToldEarlyLaw, ToldOfNoneLaw, TwoReceiptsLaw};

/// A report with a message that nobody submitted. Such a message comes from no event.
pub fn messages_of_nobody_are_refused()
    ensures report { NobodysLaw }
    ensures origin { FromNoneLaw }
{}

/// A message with two lines. A line that is gone in a longer report, another final state there, and a receipt that is gone.
/// A receipt that says DELIVRD of an EXPIRED message, and two receipts of one message.
pub fn wrong_final_states_are_refused()
    ensures lines { LinesLaw }
    ensures gone { LineGoneLaw }
    ensures other { OtherEndLaw }
    ensures forgotten { ReceiptGoneLaw }
    ensures state { OtherStateLaw }
    ensures once { TwoReceiptsLaw }
{}

/// Two parts under way that hold one reference at one handset, and one reference that was given there twice in one second.
pub fn shared_references_are_refused()
    ensures held { HeldTwiceLaw }
    ensures given { GivenTwiceLaw }
{}

/// An answer with the number of no message, a STATUS-REPORT that is not listed, and an answer ESME_RSYSERR.
pub fn wrong_confirmations_are_refused()
    ensures message { NotThereLaw }
    ensures listed { NotListedLaw }
    ensures system_error { SystemErrorLaw }
{}

/// A STATUS-REPORT to the handset that sent the message is admitted. One to its recipient is refused, one of no message, and one of a message that
/// has not ended.
pub fn wrong_addressees_are_refused()
    ensures right { RightToldLaw }
    ensures recipient { ToRecipientLaw }
    ensures none { ToldOfNoneLaw }
    ensures early { ToldEarlyLaw }
{}

/// A message that counts as delivered, and whose part was never accepted, or twice, or with another text, or was given no reference.
/// A line and a receipt that say DELIVRD of a message which no event submitted.
pub fn deliveries_of_nothing_are_refused()
    ensures never { NeverAcceptedLaw }
    ensures twice { AcceptedTwiceLaw }
    ensures text { OtherTextLaw }
    ensures given { NotGivenLaw }
    ensures once { PartTwiceLaw }
    ensures line { LineOfNoneLaw }
    ensures receipt { ReceiptOfNoneLaw }
{}

/// An entry that counts as sent, where the centre has no message of it, or one to another handset.
pub fn entries_sent_to_nobody_are_refused()
    ensures none { SentOfNoneLaw }
    ensures elsewhere { SentElsewhereLaw }
{}

/// A text that a handset joined, and of which it accepted nothing.
pub fn texts_joined_of_nothing_are_refused()
    ensures round { JoinedOfNoneLaw }
    ensures text { SplitOfNoneLaw }
{}

/// The beginning shows the empty world. A play state does not show a world that lacks one of its messages, parts, receipts, entries,
/// references or frames, or what a handset accepted. It does not show one that has a message, a receipt, an open status report
/// or a giving more. No two of its handsets have one number.
pub fn other_worlds_are_not_shown()
    ensures beginning { BeginningLaw }
    ensures message { MessageUnknownLaw }
    ensures row { MessageWithoutRowLaw }
    ensures part { PartUnknownLaw }
    ensures receipt { ReceiptUnknownLaw }
    ensures listed { ReceiptUnlistedLaw }
    ensures opened { OpenReportLaw }
    ensures accepted { AcceptedUnknownLaw }
    ensures entry { EntryUnknownLaw }
    ensures apart { NotApartLaw }
    ensures given { GivenUnknownLaw }
    ensures recorded { GivenWithoutRowLaw }
    ensures holder { HolderWithoutRowLaw }
    ensures reference { PartNotGivenLaw }
    ensures up { GivenUpUnknownLaw }
    ensures frame { FrameUnknownLaw }
    ensures octets { FrameSaysNothingLaw }
{}

/// A query_sm that deletes a message, and the deletion of one that is not there. A submit_sm that was answered with a number, and of
/// which nothing was taken in. A first message with another number than the next.
pub fn wrong_steps_are_refused()
    ensures event { NotOfEventLaw }
    ensures possible { ImpossibleStepLaw }
    ensures taken { NotTakenInLaw }
    ensures number { OtherNumberLaw }
{}

/// A query_sm that finds the state of the account's message is admitted. One that finds another state is refused, one of another's message, and one
/// that ends it. So is a cancel_sm that was answered ESME_ROK and deletes nothing, or a message that had ended, and one that was refused and deletes.
pub fn wrong_requests_are_refused()
    ensures right { RightQueryLaw }
    ensures state { FalseQueryLaw }
    ensures own { OthersQueryLaw }
    ensures same { QueryEndsLaw }
    ensures cancelled { NotCancelledLaw }
    ensures pending { CancelledAgainLaw }
    ensures refused { CancelledAllTheSameLaw }
{}

/// A deliver_sm of a listed receipt, in a session of the account that submitted its message, is admitted. One of a message under way is refused, one
/// without a date, and one that is not listed. So is one in a session that is not bound, that only transmits, or that is another account's.
pub fn wrong_deliver_sms_are_refused()
    ensures right { RightReceiptLaw }
    ensures ended { ReceiptEarlyLaw }
    ensures done { ReceiptUndatedLaw }
    ensures listed { ReceiptNotListedLaw }
    ensures bound { ReceiptUnboundLaw }
    ensures receives { ReceiptToTransmitterLaw }
    ensures account { ReceiptToOtherLaw }
{}

/// A message is not from a query_sm, nor from a submission that was stopped before its store call. It is not from a submit_sm of another
/// moment, or under another number than the next.
pub fn wrong_origins_are_refused()
    ensures query { FromQueryLaw }
    ensures stopped { FromStoppedLaw }
    ensures moment { OtherMomentLaw }
    ensures number { OtherIdLaw }
{}

/// A script submits a text, and hands over its DELIVER and the acknowledgement. Its report has the headline, and its events keep both premises. The report with
/// another state of the message is refused, and the one without its receipt. So is a play in which a query_sm has no answer.
pub fn other_reports_of_a_play_are_refused()
    ensures right { RightReportLaw }
    ensures timely { RightTimelyLaw }
    ensures fresh { RightFreshLaw }
    ensures state { OtherReportLaw }
    ensures receipt { NoReceiptLaw }
    ensures answered { NotAnsweredLaw }
{}

/// A frame whose reference was given to another message since is late. It is not late of a play state alone, and a submission is not stale
/// of the world alone.
pub fn premises_of_one_side_are_refused()
    ensures late { LateFrameLaw }
    ensures timely { LateAloneLaw }
    ensures fresh { StaleAloneLaw }
{}

/// A message of another account, source, handset, protocol identifier, wish or limit than its submission. One that is marked as split and fits one
/// part. One that has lost its part, or has one more. As a split text, one that one part holds, and one that has no parts.
pub fn other_messages_than_submitted_are_refused()
    ensures originator { OtherOriginatorLaw }
    ensures source { OtherSourceLaw }
    ensures handset { OtherHandsetLaw }
    ensures protocol { OtherProtocolLaw }
    ensures wish { OtherWishLaw }
    ensures limit { OtherLimitLaw }
    ensures split { OtherSplitLaw }
    ensures each { LostPartLaw }
    ensures only { OnePartMoreLaw }
    ensures long { ShortLaw }
    ensures carried { LostTextLaw }
{}

/// The message of a SUBMIT in a frame that a handset sent is admitted. One under another number is refused, one of a frame that was not sent, and
/// one with another reference, source, numbering plan, wish, handset or text than the SUBMIT, or with a part more.
pub fn other_messages_than_sent_are_refused()
    ensures right { RightLaw }
    ensures next { NextLaw }
    ensures frame { FrameLaw }
    ensures reference { ReferenceLaw }
    ensures source { SourceLaw }
    ensures address { OtherPlanLaw }
    ensures wish { WishLaw }
    ensures handset { HandsetLaw }
    ensures alone { AloneLaw }
    ensures text { TextLaw }
{}

/// An entry that counts as sent, whose message is from another handset or has another text. An application's message with another text than was
/// submitted. A SUBMIT for an entry that no event wrote. One part in two joined texts. One who accepts, and is no handset.
pub fn texts_of_nobody_are_refused()
    ensures source { SentByOtherLaw }
    ensures sent { SentOtherTextLaw }
    ensures submitted { SubmittedTextLaw }
    ensures owners { OwnersLaw }
    ensures common { CommonLaw }
    ensures takers { TakersLaw }
{}

/// A text that was joined of two parts, which were submitted and accepted, is admitted. It is refused where no reference was given to its parts. An entry
/// that counts as sent is refused where its message has a part more.
pub fn rounds_of_nothing_are_refused()
    ensures right { RightRoundLaw }
    ensures given { NoRoundLaw }
    ensures alone { TwoPartsLaw }
{}

/// A play state does not show a world that lacks what a handset joined or a report, nor one with an entry or a receipt more. A status report that is not
/// answered is open there.
pub fn other_handsets_are_not_shown()
    ensures joined { JoinedUnknownLaw }
    ensures entry { EntryWithoutRowLaw }
    ensures report { ReportUnknownLaw }
    ensures row { ReportWithoutRowLaw }
    ensures still { ReportShutLaw }
{}

/// A text in two parts is admitted as split so. With another text it is refused, and with a part more that has no place in it. Other words that were
/// joined of it are refused, and a round with a part of another message. So is a message that counts as delivered, and says another thing than its part.
pub fn other_splits_are_refused()
    ensures right { RightSplitLaw }
    ensures text { OtherContentLaw }
    ensures placed { NoPlaceLaw }
    ensures words { OtherWordsLaw }
    ensures whole { MixedRoundLaw }
    ensures said { OtherRowLaw }
{}
