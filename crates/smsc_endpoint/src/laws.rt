//! Laws of endpoints, over their definitions alone.
ghost use Rattle.std.specs.Prelude.{◌≡◌, ◌≢◌, ◌++◌, ◌∷◌, [], ℕ, List, map, true, false};
ghost use Rattle.smpp_pdu.specs.Statuses.{status_number};
ghost use Rattle.smpp_pdu.specs.Writing.{written};
ghost use Rattle.smpp_pdu.specs.declared.status.CommandStatus.{CommandStatus as StatusOf};
ghost use Rattle.smpp_session.specs.Answers.{answer_pdu};
ghost use Rattle.smpp_session.specs.Bindings.{is_bound};
ghost use Rattle.smpp_session.specs.Sessions.{after_answered};
ghost use Rattle.smpp_session.specs.declared.conversation.SessionState.TheVariants.{Closed};
ghost use Rattle.smpp_session.specs.declared.answer.Request.TheVariants.{Submit};
ghost use Rattle.smsc_loop.specs.declared.note.Note.TheVariants.{SubmitRefused};
ghost use Rattle.sms_centre_spec.specs.declared.answer.CentreAnswer.{CentreAnswer as AnswerOf};
ghost use Rattle.sms_centre_spec.specs.declared.answer.CentreAnswer.TheVariants.{Refused};
ghost use Rattle.sms_centre_spec.specs.declared.jobs.reply.Reply.TheVariants.{Answer};
ghost use Rattle.smsc_endpoint.specs.declared.pending.PendingRequest.{PendingRequest};
ghost use Rattle.smsc_endpoint.specs.EsmeCalls.{answered_next, ended as ended_session, heard, taken};
ghost use Rattle.smsc_endpoint.specs.EsmeTurns.{AreInTurn, HasTurns, begun, turned_all};
ghost use Rattle.smsc_endpoint.specs.EsmeDoes.{EsmeDoes};
ghost use Rattle.smsc_endpoint.specs.EsmeView.{EsmeView, opened as opened_session};
ghost use Rattle.smsc_endpoint.specs.LoopCourses.{IsCourseOf};
ghost use Rattle.smsc_loop.specs.Calls.{Call as LoopCall};
ghost use Rattle.smsc_loop.specs.Courses.{Runs};
ghost use Rattle.smsc_loop.specs.Phases.{Serves};
ghost use Rattle.smsc_endpoint.specs.Responses.{answer_to, refusal_status};
ghost use Rattle.smpp_session.specs.declared.account.Account.{Account as AccountOf};
ghost use Rattle.smsc_endpoint.specs.EsmeRuns.{EsmeCall, EsmeProgress, IsAfterEnd as IsAfterSession, IsEsmeProgress, called_all, responses};
ghost use Rattle.smsc_endpoint.specs.EsmeRuns.{fresh, request_of, requests_from, started as started_session, throttled_among, with_esme};
ghost use Rattle.smsc_endpoint.specs.declared.link_access.LinkAccess.{LinkAccess as AccessOf};
ghost use Rattle.smsc_endpoint.specs.declared.link_access.LinkAccess.TheVariants.{Secrets};
ghost use Rattle.smsc_endpoint.specs.declared.link_access.LinkSecret.{LinkSecret as SecretOf};
ghost use Rattle.smsc_endpoint.specs.LinkCalls.{ended};
ghost use Rattle.smsc_endpoint.specs.LinkRuns.{LinkCall, LinkProgress, LinkRun, HasGivenSecret, IsAfterEnd, IsLinkProgress, started, with_link};
ghost use Rattle.smsc_endpoint.specs.LinkSends.{HasSent, LinkSends, SendRun, begun as begun_sends};

use smpp_session::laws::nothing_after_closed;
use sms_link::framing::laws::front_is_the_frame;

/// Over any calls of a new link, the octets that arrived are cut into frames by their lengths. The first names the handset, and each
/// other is one job, in order. No other jobs are handed out but the name of the handset and those that ask nothing.
pub fn frames_become_jobs()
    ensures { (access : AccessOf) (calls : List LinkCall) (progress : LinkProgress)
        → LinkRun (started access) calls progress → IsLinkProgress access progress }
{
    front_is_the_frame();
}

/// Where numbers have secrets, this holds over any calls of a new link. It is up, has a handset, and names one to the keeper, only if its
/// first frame was the number of that handset, a space and the secret of the number.
pub fn a_handset_is_named_by_its_secret()
    ensures { (secrets : List SecretOf) (calls : List LinkCall) (progress : LinkProgress)
        → LinkRun (started (Secrets secrets)) calls progress → HasGivenSecret secrets progress }
{
    front_is_the_frame();
}

/// Over any calls of a new link that was not closed, all that it sends are frames, each behind its length. They are those that it was
/// given, in order and each once, and between them only CP-ERRORs of its own.
pub fn frames_are_sent_behind_their_lengths()
    ensures { (access : AccessOf) (calls : List LinkCall) (sends : LinkSends)
        → SendRun (begun_sends access) calls sends → sends.progress.link.outbox.is_closed ≡ false → HasSent sends }
{}

/// A link that has ended adds no job and sends nothing, whatever is called. The jobs that waited at its end are still handed out.
pub fn nothing_follows_the_end_of_a_link()
    ensures { (calls : List LinkCall) (before progress : LinkProgress)
        → LinkRun (with_link (ended before.link) before) calls progress → IsAfterEnd before progress }
{}

/// Any calls of a new session have fewer than three wrong binds here. The session's jobs are those of the actions that it gave, in
/// order and each once. Its requests are answered in order and each once, under their sequence numbers. The octets that were sent, and
/// those that wait, are all that was to be sent.
pub fn actions_become_jobs()
    ensures { (accounts : List AccountOf) (calls : List EsmeCall) → (called_all (started_session accounts) calls).esme.wrong_binds ≢ 0
        → IsEsmeProgress accounts (called_all (started_session accounts) calls) }
{}

/// Each request of such a session has the answer of its turn. One that was handed back is answered ESME_RTHROTTLED; the others have,
/// in order, the answers that the session heard. No answer may be heard where the keeper has no request.
pub fn requests_have_the_answers_of_their_turns()
    ensures { (accounts : List AccountOf) (calls : List EsmeCall) → AreInTurn (begun accounts) calls
        → (turned_all (begun accounts) calls).progress.esme.wrong_binds ≢ 0 → HasTurns (turned_all (begun accounts) calls) }
{}

/// A session with fewer than three wrong binds that has closed by itself has answered each request that it took: after an unbind
/// of either side, and after octets that are no PDUs.
pub fn each_request_is_answered_before_the_end()
    ensures { (accounts : List AccountOf) (calls : List EsmeCall) → (called_all (started_session accounts) calls).esme.wrong_binds ≢ 0
        → (called_all (started_session accounts) calls).esme.session.conversation.state ≡ Closed
        → map fresh (map request_of (called_all (started_session accounts) calls).answers)
        ≡ requests_from (called_all (started_session accounts) calls).actions }
{}

/// What the loop does with a new session, while no call was refused memory and the connection has not ended, is a course of the session's calls. The session
/// was fed what arrived, and what was written is what its course sent. So the laws over any calls speak of what a connection takes and gives.
pub fn the_loop_makes_a_course()
    ensures { (accounts : List AccountOf) (calls : List LoopCall) (e : EsmeView) → Runs EsmeDoes (opened_session accounts) Serves calls e Serves
        → IsCourseOf accounts calls e }
{}

/// Octets that arrive in two pieces do to the session what both do together: to what it sends and asks, to the log, to the counts, and to whether it
/// is over.
pub fn pieces_join()
    ensures { (e : EsmeView) (one other : List ℕ) → taken (one ++ other) e ≡ taken other (taken one e) }
{}

/// A session that has ended asks for nothing but that receipts are handed back, and sends nothing, whatever is called.
pub fn nothing_follows_the_end_of_a_session()
    ensures { (calls : List EsmeCall) (before : EsmeProgress) → IsAfterSession before (called_all (with_esme (ended_session before.esme) before) calls) }
{
    nothing_after_closed();
}

/// The oldest request of a bound session has the answer that the session hears, under its sequence number. The answers of the
/// requests behind it that were handed back follow.
pub fn the_oldest_request_is_answered()
    ensures { (e : EsmeView) (request : PendingRequest) (requests : List PendingRequest) (answer : AnswerOf) → e.waiting ≡ request ∷ requests
        → is_bound e.session.conversation.state ≡ true → e.outbox.is_closed ≡ false
        → (heard (Answer answer) e).outbox.octets
        ≡ e.outbox.octets ++ (written (answer_pdu request.sequence_number (answer_to request.request answer))
        ++ responses (after_answered request.sequence_number e.session) (throttled_among requests)) }
{}

/// A submit_sm of a bound session that is refused, by the centre or since its queue was full, makes one note, with the status that the
/// application reads.
pub fn a_refused_submit_is_noted()
    ensures { (e : EsmeView) (request : PendingRequest) (requests : List PendingRequest) (status : StatusOf) → e.waiting ≡ request ∷ requests
        → request.request ≡ Submit → is_bound e.session.conversation.state ≡ true
        → (answered_next (Refused status) e).notes ≡ e.notes ++ SubmitRefused (status_number (refusal_status status)) ∷ [] }
{}
