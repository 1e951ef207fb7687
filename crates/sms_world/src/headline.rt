//! The headline: what holds of every report that `play` answers.
//!
//! The claims are definitions over a report, and over the course that the report is read off (`specs/headline`). `Headline` has them all, a
//! field each; `play` has it as a clause of its contract. Here each claim also is a law by itself, for a course and any longer one.
//! - Whatever happens: the events are one run of the world. A message has one line, and at most one final state, for good. A receipt or
//!   status report has that state. No reference is held twice at a handset, and the centre gives none twice there in one second. A handset
//!   joins only parts that were submitted to it.
//! - While each frame that is handed over is timely: a message is delivered only if its handset accepted each of its parts
//!   exactly once. What it accepted are the octets of the part's row. An entry of an outbox is sent only if the centre has
//!   its message. No part is joined twice.
//! - While submissions are fresh, too: each joined message is one round that was submitted, whole. What was joined of a text that the
//!   centre split is that text.
//!
//! `sms_world::messages_have_origins` ties the rows of messages to the events that submitted them.
ghost use Rattle.sms_world.specs.headline.DecidedPremises.{FirstLaw, NoneLaw};
ghost use Rattle.sms_world.specs.headline.PlainLaws.{AcceptedPartsLaw, AllSentLaw, AscendLaw, AscendingLaw, CancelsLaw, DeletedLaw, DeliveredLinesLaw};
ghost use Rattle.sms_world.specs.headline.PlainLaws.{EachStaysLaw, JoinedPiecesLaw, LongerLaw, NamedLaw, NoErrorLaw, NoneTwiceLaw, OfEventsLaw, PlainLaw};
ghost use Rattle.sms_world.specs.headline.PlainLaws.{PlainReportLaw, QueriesLaw, ReceiptsLaw, ReferencesLaw, ReportsLaw, ToldLaw};
ghost use Rattle.sms_world.specs.headline.HeadlineLaws.{ConfirmedLaw, DeliveredLaw, FinalLaw, GivenLaw, HeadlineLaw, HeldLaw, JoinedLaw, JoinedOnceLaw};
ghost use Rattle.sms_world.specs.headline.HeadlineLaws.{JoinedWholeLaw, LineLaw, OnceLaw, OneRunLaw, PartsLaw, ReceiptLaw, ReceiptsStayLaw, ReportsSayLaw};
ghost use Rattle.sms_world.specs.headline.HeadlineLaws.{SentLaw, SplitJoinedLaw, SplitLongLaw, SplitStaysLaw, SplitTextLaw, StatusLaw, StayLaw, ReportedLaw};
ghost use Rattle.sms_world.specs.headline.HeadlineLaws.{WorldLaw};

/// The events of a script, up to any of them, are one run of the world from the empty one on. Each course on the way shows
/// the world there.
pub fn a_script_is_a_run()
    ensures { OneRunLaw }
{}

/// Whatever happens, a message has one line in the report and keeps it, and once it says a final state it stays as it is.
pub fn one_final_state()
    ensures stays { FinalLaw }
    ensures line { LineLaw }
    ensures stay { StayLaw }
{}

/// Whatever happens, a receipt or status report says the final state of its message, no message has two, and each stays listed.
pub fn receipts_state_how_it_ended()
    ensures state { ReceiptLaw }
    ensures once { OnceLaw }
    ensures stay { ReceiptsStayLaw }
{}

/// Whatever happens, no reference is held twice at a handset, by parts that are pending and by status reports that are open.
pub fn references_held_differ()
    ensures { HeldLaw }
{}

/// Whatever happens, no reference is given twice at a handset in one second, to parts and to status reports.
pub fn no_reference_is_given_twice()
    ensures { GivenLaw }
{}

/// While each frame that is handed over is timely, a message counts as delivered only if its handset accepted each of its
/// parts exactly once. It accepted each under the reference and at the moment of its giving, with the octets of the part's
/// row. A receipt or status report says so only of such a message, and no part of any message was accepted twice.
pub fn delivered_was_accepted()
    ensures delivered { DeliveredLaw }
    ensures reported { ReportedLaw }
    ensures once { PartsLaw }
{}

/// While each frame that is handed over is timely, an entry of a handset's outbox counts as sent only if the centre has its
/// message. The message is from that handset, to that destination, with the user data of the entry's SUBMIT.
pub fn sent_was_submitted()
    ensures { SentLaw }
{}

/// Whatever happens, each message that a handset joined was joined from parts that its source submitted to that handset, and that
/// the handset accepted. While each frame that is handed over is timely, no part is joined twice. While originators keep references fresh,
/// too, each joined message is one round that was submitted to that handset, whole.
pub fn joined_was_submitted()
    ensures parts { JoinedLaw }
    ensures once { JoinedOnceLaw }
    ensures whole { JoinedWholeLaw }
{}

/// Whatever happens, the reports of a script and of its first events have these claims of `PlainHeadline`, which their reader judges
/// without rows or a world. There is a report of each such part. Each message has one line, in the order of their numbers. Lines, final
/// states and receipts stay in longer reports. A receipt has its message's state, and is one. Frames of status reports are of listed ones.
/// No reference is given twice. Answers stand by event, and none is ESME_RSYSERR. An answer with a number names the message of that event.
/// A query_sm finds what the table says, of the account's own message. A cancel_sm that is answered ESME_ROK deletes the message that it
/// names, of its account, and no other. Nothing but a cancellation that names a message deletes it. Each message is of one event, as that
/// event's words say it.
///
/// While each frame that is handed over is timely, no part of any message was accepted twice. What the table or a receipt calls delivered
/// was accepted by its handset, each part exactly once and octet for octet. What a handset accepted as a DELIVER is a part of a message to
/// it. An entry that counts as sent is a message. Where references are fresh, too, what was joined is whole, and joined once.
///
/// So the reports of a script have all of `PlainHeadline`, and each report that a script leads to.
pub fn plain_claims_hold()
    ensures reports { ReportsLaw }
    ensures ascending { AscendingLaw }
    ensures longer { LongerLaw }
    ensures stay { EachStaysLaw }
    ensures receipts { ReceiptsLaw }
    ensures references { ReferencesLaw }
    ensures answers { AscendLaw }
    ensures named { NamedLaw }
    ensures queries { QueriesLaw }
    ensures cancels { CancelsLaw }
    ensures deleted { DeletedLaw }
    ensures no_error { NoErrorLaw }
    ensures of_events { OfEventsLaw }
    ensures once { NoneTwiceLaw }
    ensures delivered { DeliveredLinesLaw }
    ensures told { ToldLaw }
    ensures accepted { AcceptedPartsLaw }
    ensures joined { JoinedPiecesLaw }
    ensures sent { AllSentLaw }
    ensures whole { PlainLaw }
    ensures report { PlainReportLaw }
{}

/// Whatever happens, a message that the centre split is a long message of one key. An event may submit a text, to its end or
/// stopped behind its store call. If the centre split that text, the rows have it from then on. While frames are timely and
/// references fresh, what a handset joined with a part of such a message is that text, from the message's source.
pub fn split_texts_are_joined()
    ensures long { SplitLongLaw }
    ensures stays { SplitStaysLaw }
    ensures text { SplitTextLaw }
    ensures joined { SplitJoinedLaw }
{}

/// Whatever happens, a submit_sm that was answered with a number is a message in the table. Each STATUS-REPORT among the
/// frames is of a status report that is listed. It says which message it reports, when that was taken, and when and how it ended. It goes to
/// the handset that sent the message.
pub fn what_is_confirmed_is_there()
    ensures messages { ConfirmedLaw }
    ensures status_reports { StatusLaw }
    ensures told { ReportsSayLaw }
{}

/// All of it, of whatever is played.
pub fn every_report_has_the_headline()
    ensures { HeadlineLaw }
{}

/// `premises` answers None exactly where the script plays and each event is timely and fresh. Else it names the first event
/// that is not, timely before fresh at one event. Along one run of the world the answer is right of the world, too.
pub fn premises_are_decided()
    ensures none { NoneLaw }
    ensures first { FirstLaw }
    ensures world { WorldLaw }
{}
