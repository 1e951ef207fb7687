//! The session of an application at a seat.
ghost use Rattle.std.specs.Prelude.{◌≡◌, ◌<◌, ◌||◌, ◌++◌, true, length, IfOk, IfSome, OnOk};
ghost use Rattle.std.specs.Arc.{arc_value};
ghost use Rattle.std.specs.Option.{is_some};
ghost use Rattle.sms_centre_spec.specs.jobs.Requests.{is_request};
ghost use Rattle.smpp_session.specs.Bindings.{is_bound as is_bound_of};
ghost use Rattle.smpp_session.specs.Sessions.{IsDeliverable, delivery_fault, fed};
ghost use Rattle.sms_receipt.specs.Receipts.{receipt_of};
ghost use Rattle.smsc_endpoint.specs.EsmeView.{opened};
ghost use Rattle.smsc_endpoint.specs.EsmeCalls.{account_octet, account_of, acted, acted_all, acted_next, answered_next, answered_one, asked_to_leave, at_time};
ghost use Rattle.smsc_endpoint.specs.EsmeCalls.{bind_refused, bound as bound_of, bound_wrongly, counting_request, ended, handed_back, handed_out, handing};
ghost use Rattle.smsc_endpoint.specs.EsmeCalls.{header_in};
ghost use Rattle.smsc_endpoint.specs.EsmeCalls.{heard, is_busy as is_busy_of, is_loaded as is_loaded_of, refuses_submit as refuses_submit_of, sending_pdu};
ghost use Rattle.smsc_endpoint.specs.EsmeCalls.{submit_refused, told, is_known as is_known_of, is_over as is_over_of, is_wrong as is_wrong_of, next_note};
ghost use Rattle.smsc_endpoint.specs.EsmeCalls.{is_sendable as is_sendable_of, last_job, moment_or, octets_of, one_more, owes, passed_up, passed_with};
ghost use Rattle.smsc_endpoint.specs.EsmeCalls.{submits_in as submits_of};
ghost use Rattle.smsc_endpoint.specs.EsmeCalls.{receipt_answered, receipt_by, receipt_given, refused_receipt, request_back, request_job as request_job_of};
ghost use Rattle.smsc_endpoint.specs.EsmeCalls.{receives as receives_of, responding, saying, sent as sent_of, taken, taken_in, throttled_next};
ghost use Rattle.smsc_endpoint.specs.EsmeCalls.{unbound as unbound_of};
ghost use Rattle.smsc_endpoint.specs.EsmeCalls.{unbound_where};
ghost use Rattle.smsc_endpoint.specs.Outbox.{is_any, next_of};
ghost use Rattle.smsc_endpoint.specs.PendingRequests.{is_any_request, is_throttled_first, left_without, throttled_at, throttled_before};
ghost use Rattle.smsc_endpoint.specs.Refusing.{no_room, enquire_link};
ghost use Rattle.smsc_endpoint.specs.SentReceipts.{found_under, oldest};

use crate::bind_name::shown_name;
use crate::outbox::Outbox;
use crate::pending::{PendingRequest, SentReceipt};
use crate::refusing::{ENQUIRE_LINK, NO_ROOM};
use crate::responses::response;
use smpp_pdu::{CommandStatus, Header};
use smpp_session::{
    Accounts, Action, BindKind, DeliverFault, Fed, FullAccounts, Request, Session, SessionState,
};
use sms_base::{Address, MessageId, Octets};
use sms_centre_rows::conditions::is_address;
use sms_centre_rows::conditions::laws::addresses_are_tested;
use sms_centre_spec::CentreAnswer;
use sms_centre_spec::jobs::{Job, Reply};
use sms_receipt::laws::receipts_can_be_written;
use sms_receipt::{Final, Receipt, receipt_of};
use smsc_loop::{Counts, Endpoint, Note};
use std::alloc::{AllocError, Global};
use std::collections::VecDeque;
use std::marker::Model;
use std::sync::Arc;

// So many of its requests are with the keeper at most. Where so many have no answer, no more octets are read.
const MOST_REQUESTS: usize = 8;

// So many wrong binds end the session.
const MOST_WRONG: u32 = 3;

// Each of them is answered so many milliseconds later.
const WRONG_WAIT: u64 = 1_000;

/// The session of an application at a seat: what follows from the received octets, and from the replies of the seat.
#[derive(Drop)]
pub struct Esme {
    alloc: Global,
    session: Session,
    account: Option<u8>,
    // In the order in which they were passed up.
    waiting: VecDeque<PendingRequest>,
    // How many of them the keeper has.
    with_keeper: usize,
    receipts: Vec<SentReceipt>,
    outbox: Outbox,
    notes: VecDeque<Note>,
    counts: Counts,
    // In milliseconds.
    time: u64,
    // So many wrong binds more end the session.
    wrong_binds: u32,
    // Nothing is sent before this moment.
    held: Option<u64>,
}

impl Model for Esme {
    ghost use Rattle.smsc_endpoint.specs.EsmeView.{EsmeView};

    ghost Value = { EsmeView };

    ghost view = { λ e. record {
      session = e.session;
      account = e.account;
      waiting = e.waiting.items;
      with_keeper = e.with_keeper;
      receipts = e.receipts.items;
      outbox = e.outbox;
      notes = e.notes.items;
      counts = e.counts;
      time = e.time;
      wrong_binds = e.wrong_binds;
      held = e.held;
    } };
}

// The header of octets, if it is whole.
fn header_of(octets: &[u8]) -> Option<Header>
    ensures { result ≡ header_in octets.now }
{
    Header::read(octets)
}

// submit_sm_resp (SMPP v3.4 5.1.2.1).
const SUBMIT_SM_RESP: u32 = 0x8000_0004;

// Whether it is the answer to a submit_sm that is refused.
fn refuses_submit(header: &Header) -> bool
    ensures { result ≡ refuses_submit_of header.now }
{
    header.command_id == SUBMIT_SM_RESP && header.command_status != 0
}

// There are at most 32 accounts.
fn octet_of(place: usize) -> u8
    ensures { result ≡ account_octet place }
{
    if place < 256 { place as u8 } else { 255 }
}

fn receives(kind: BindKind) -> bool
    ensures { result ≡ receives_of kind }
{
    match kind {
        BindKind::Transmitter => false,
        BindKind::Receiver | BindKind::Transceiver => true,
    }
}

fn request_job(request: Request, account: u8, pdu: Octets) -> Job
    ensures { result ≡ request_job_of request account pdu }
{
    match request {
        Request::Submit => Job::Submit { account, pdu },
        Request::Query => Job::Query { account, pdu },
        Request::Cancel => Job::Cancel { account, pdu },
    }
}

// Whether the session might have been bound, but for that status.
fn is_wrong(status: CommandStatus) -> bool
    ensures { result ≡ is_wrong_of status }
{
    match status {
        CommandStatus::ESME_RALYBND | CommandStatus::ESME_RINVBNDSTS => false,
        _ => true,
    }
}

// How many submit_sm the request is.
fn submits_in(request: Request) -> u64
    ensures { result ≡ submits_of request }
{
    match request {
        Request::Submit => 1,
        Request::Query | Request::Cancel => 0,
    }
}

// Whether a receipt of the message can be written: its addresses can.
fn is_sendable(end: &Final) -> bool
    ensures value { result ≡ is_sendable_of end.now }
    ensures written { result ≡ true → IsDeliverable (receipt_of end.now) }
{
    addresses_are_tested();
    receipts_can_be_written();
    let handset = Address::of_handset(end.handset.digits());
    is_address(&end.source) && is_address(&handset)
}

// The place of the first receipt that was sent under the number, and its message.
fn find(receipts: &[SentReceipt], sequence_number: u32) -> Option<(usize, MessageId)>
    ensures found { result ≡ found_under sequence_number receipts.now }
    ensures place { IfSome result (λ found. found.0 < length receipts.now) }
{
    match receipts {
        [] => None,
        [first, rest @ ..] => {
            if first.sequence_number == sequence_number {
                return Some((0, first.id));
            }
            let (place, id) = find(rest, sequence_number)?;
            Some((place + 1, id))
        }
    }
}

// The request at the place was handed back.
fn throttle_at(waiting: &mut VecDeque<PendingRequest>, place: usize)
    ensures { waiting.new.items ≡ throttled_at place waiting.old.items }
{
    if let Some(request) = waiting.get_mut(place) {
        request.is_throttled = true;
    }
}

impl Esme {
    /// A session on a connection that was just opened.
    pub fn new(alloc: Global, accounts: Arc<Accounts, Global>) -> Esme
        ensures { result ≡ opened (arc_value accounts) }
    {
        Esme {
            alloc,
            session: Session::new(alloc, accounts),
            account: None,
            waiting: VecDeque::new(alloc),
            with_keeper: 0,
            receipts: Vec::new(alloc),
            outbox: Outbox::new(alloc),
            notes: VecDeque::new(alloc),
            counts: Counts::none(),
            time: 0,
            wrong_binds: MOST_WRONG,
            held: None,
        }
    }

    // A refused submit_sm is worth a note.
    fn note_refusal(&mut self, header: Option<Header>) -> Result<(), AllocError>
        ensures { OnOk result (self.new ≡ record self.old { notes = self.old.notes ++ submit_refused header }) }
    {
        if let Some(header) = header {
            if refuses_submit(&header) {
                self.notes
                    .push_back(Note::SubmitRefused(header.command_status))?;
            }
        }
        Ok(())
    }

    // A PDU of the session is to be sent.
    fn send(&mut self, octets: &[u8]) -> Result<(), AllocError>
        ensures { OnOk result (self.new ≡ sending_pdu octets.now self.old) }
    {
        self.note_refusal(header_of(octets))?;
        self.outbox.send(octets)
    }

    // Since when what waits to be sent is held longer.
    fn held_since(&self) -> u64
        ensures { result ≡ moment_or self.now.time self.now.held }
    {
        match self.held {
            Some(until) => until,
            None => self.time,
        }
    }

    // What waits to be sent is held a second longer, and the last wrong bind ends the session.
    fn bound_wrongly(&mut self) -> Result<(), AllocError>
        ensures { OnOk result (self.new ≡ bound_wrongly self.old) }
    {
        self.held = Some(self.held_since().saturating_add(WRONG_WAIT));
        self.wrong_binds = self.wrong_binds.saturating_sub(1);
        if self.wrong_binds == 0 {
            self.notes.push_back(Note::WrongBinds)?;
            let _ = self.session.close();
        }
        Ok(())
    }

    // A bind that was refused is worth a note.
    fn bind_refused(&mut self, status: CommandStatus, name: &[u8]) -> Result<(), AllocError>
        ensures { OnOk result (self.new ≡ bind_refused status name.now self.old) }
    {
        let note = Note::BindRefused(status.number(), shown_name(name));
        self.notes.push_back(note)?;
        if is_wrong(status) {
            self.bound_wrongly()
        } else {
            Ok(())
        }
    }

    fn bound(&mut self, account: u8, kind: BindKind) -> Result<(), AllocError>
        ensures { OnOk result (self.new ≡ bound_of account kind self.old) }
    {
        self.account = Some(account);
        self.notes.push_back(Note::Bound(account, kind))?;
        self.outbox.put(Job::Bound {
            account,
            receives: receives(kind),
        })
    }

    // The account that is bound.
    fn account_bound(&self) -> u8
        ensures { result ≡ account_of self.now.account }
    {
        match self.account {
            Some(account) => account,
            None => 255,
        }
    }

    fn count_request(&mut self, request: Request)
        ensures { self.new ≡ counting_request request self.old }
    {
        self.counts.requests = self.counts.requests.saturating_add(1);
        self.counts.submits = self.counts.submits.saturating_add(submits_in(request));
    }

    fn pass_with(
        &mut self,
        header: Option<Header>,
        request: Request,
        pdu: Octets,
    ) -> Result<(), AllocError>
        ensures { OnOk result (self.new ≡ passed_with header request pdu self.old) }
    {
        let Some(header) = header else {
            return Ok(());
        };
        let account = self.account_bound();
        self.count_request(request);
        self.waiting.push_back(PendingRequest {
            sequence_number: header.sequence_number,
            request,
            is_throttled: false,
        })?;
        self.outbox.put(request_job(request, account, pdu))
    }

    // A request is passed up, and waits for its answer.
    fn pass_up(&mut self, request: Request, pdu: Octets) -> Result<(), AllocError>
        ensures { OnOk result (self.new ≡ passed_up request pdu self.old) }
    {
        let header = header_of(pdu.as_slice());
        self.pass_with(header, request, pdu)
    }

    fn deliver_answered(
        &mut self,
        sequence_number: u32,
        is_accepted: bool,
    ) -> Result<(), AllocError>
        ensures { OnOk result (self.new ≡ receipt_answered (found_under sequence_number self.old.receipts) is_accepted self.old) }
    {
        match find(self.receipts.as_slice(), sequence_number) {
            Some((place, id)) => {
                let _ = self.receipts.remove(place);
                self.outbox.put(Job::DeliverAnswered { id, is_accepted })
            }
            None => Ok(()),
        }
    }

    fn unbound(&mut self) -> Result<(), AllocError>
        ensures { OnOk result (self.new ≡ unbound_of self.old) }
    {
        self.account = None;
        self.receipts.clear();
        self.notes.push_back(Note::Unbound)?;
        self.outbox.put(Job::Unbound)
    }

    fn act(&mut self, action: Action) -> Result<(), AllocError>
        ensures { OnOk result (self.new ≡ acted action self.old) }
    {
        match action {
            Action::Send(octets) => self.send(octets.as_slice()),
            Action::Bound(place, kind) => self.bound(octet_of(place), kind),
            Action::Submit(pdu, _) => self.pass_up(Request::Submit, pdu),
            Action::Query(pdu) => self.pass_up(Request::Query, pdu),
            Action::Cancel(pdu) => self.pass_up(Request::Cancel, pdu),
            Action::DeliverAnswered(number, is_accepted) => {
                self.deliver_answered(number, is_accepted)
            }
            Action::BindRefused(status, name) => self.bind_refused(status, name.as_slice()),
            Action::Unbound => self.unbound(),
        }
    }

    // What follows the last wrong bind is not done.
    fn act_next(&mut self, action: Action) -> Result<(), AllocError>
        ensures { OnOk result (self.new ≡ acted_next self.old action) }
    {
        if self.wrong_binds == 0 {
            return Ok(());
        }
        self.act(action)
    }

    fn act_all(&mut self, actions: Vec<Action>) -> Result<(), AllocError>
        ensures { OnOk result (self.new ≡ acted_all self.old actions.items) }
    {
        for action in actions {
            self.act_next(action)?;
        }
        Ok(())
    }

    // An account is bound no longer, though no action says so.
    fn lose_where(&mut self, is_lost: bool) -> Result<(), AllocError>
        ensures { OnOk result (self.new ≡ unbound_where is_lost self.old) }
    {
        if is_lost {
            self.act_next(Action::Unbound)
        } else {
            Ok(())
        }
    }

    // Gives octets to the session, and does what it asks.
    fn take_in(&mut self, octets: &[u8]) -> Result<(), AllocError>
        ensures { OnOk result (self.new ≡ taken_in (fed self.old.session octets.now) self.old) }
    {
        let Fed { actions, bind_lost } = self.session.feed(octets)?;
        self.act_all(actions.into_vec())?;
        self.lose_where(bind_lost)
    }

    fn respond(&mut self, octets: Option<Octets>) -> Result<(), AllocError>
        ensures { OnOk result (self.new ≡ responding octets self.old) }
    {
        match octets {
            Some(octets) => self.send(octets.as_slice()),
            None => Ok(()),
        }
    }

    // The request has its answer. One that was handed back was no longer with the keeper.
    fn count_answered(&mut self, request: PendingRequest)
        ensures { self.new ≡ record self.old { with_keeper = left_without request self.old.with_keeper } }
    {
        if !request.is_throttled {
            self.with_keeper = self.with_keeper.saturating_sub(1);
        }
    }

    // A request that waits no longer is answered.
    fn answer_one(
        &mut self,
        request: PendingRequest,
        answer: CentreAnswer,
    ) -> Result<(), AllocError>
        ensures { OnOk result (self.new ≡ answered_one request self.old.waiting answer self.old) }
    {
        self.count_answered(request);
        let octets = response(self.alloc, &mut self.session, request, answer)?;
        self.respond(octets)
    }

    // The oldest request is answered.
    fn answer_next(&mut self, answer: CentreAnswer) -> Result<(), AllocError>
        ensures { OnOk result (self.new ≡ answered_next answer self.old) }
    {
        let Some(request) = self.waiting.pop_front() else {
            return Ok(());
        };
        self.answer_one(request, answer)
    }

    // Whether the oldest request was handed back.
    fn is_throttled_next(&self) -> bool
        ensures { result ≡ is_throttled_first self.now.waiting }
    {
        match self.waiting.front() {
            Some(waiting) => waiting.is_throttled,
            None => false,
        }
    }

    // The requests at the front that were handed back are answered, each in its turn.
    fn answer_throttled(&mut self) -> Result<(), AllocError>
        ensures { OnOk result (self.new ≡ throttled_next self.old) }
    {
        'answering: while self.is_throttled_next() {
            self.answer_next(CentreAnswer::Refused(CommandStatus::ESME_RTHROTTLED))?;
        }
        Ok(())
    }

    // The latest request but so many was handed back.
    fn throttle(&mut self, behind: usize)
        ensures { self.new ≡ record self.old { waiting = throttled_before behind self.old.waiting } }
    {
        let count = self.waiting.len();
        if behind < count {
            throttle_at(&mut self.waiting, count - 1 - behind);
        }
    }

    // The request that was handed out last was handed back.
    fn request_back(&mut self) -> Result<(), AllocError>
        ensures { OnOk result (self.new ≡ request_back self.old) }
    {
        let behind = self.outbox.requests();
        self.throttle(behind);
        self.with_keeper = self.with_keeper.saturating_sub(1);
        self.answer_throttled()
    }

    fn refuse_receipt(&mut self, id: MessageId) -> Result<(), AllocError>
        ensures { OnOk result (self.new ≡ refused_receipt id self.old) }
    {
        self.outbox.put(Job::DeliverAnswered {
            id,
            is_accepted: false,
        })
    }

    // A receipt that can be written is sent, or handed back where the session takes none now.
    fn deliver(&mut self, end: &Final, receipt: &Receipt) -> Result<(), AllocError>
        requires deliverable { IsDeliverable receipt.now }
        requires same { receipt.now ≡ receipt_of end.now }
        ensures { OnOk result (self.new ≡ receipt_by (delivery_fault self.old.session.conversation) end.now self.old) }
    {
        self.receipts.reserve(1)?;
        match self.session.deliver(receipt.message()) {
            Ok(sent) => {
                self.receipts.push_reserved(SentReceipt {
                    sequence_number: sent.sequence_number,
                    id: end.id,
                    since: self.time,
                });
                self.counts.receipts = self.counts.receipts.saturating_add(1);
                self.outbox.send(sent.octets.as_slice())
            }
            Err(DeliverFault::NoMemory) => Err(AllocError),
            Err(_) => self.refuse_receipt(end.id),
        }
    }

    // A receipt is sent, or handed back where it can't be.
    fn send_receipt(&mut self, end: &Final) -> Result<(), AllocError>
        ensures { OnOk result (self.new ≡ receipt_given end.now self.old) }
    {
        if !is_sendable(end) {
            return self.refuse_receipt(end.id);
        }
        let receipt = receipt_of(self.alloc, end)?;
        self.deliver(end, &receipt)
    }

    // Whether no more requests go to the keeper now.
    fn is_busy(&self) -> bool
        ensures { result ≡ is_busy_of self.now }
    {
        MOST_REQUESTS <= self.with_keeper
    }

    // Whether as many requests as may be have no answer yet.
    fn is_loaded(&self) -> bool
        ensures { result ≡ is_loaded_of self.now }
    {
        MOST_REQUESTS <= self.waiting.len()
    }

    // The job is put to the keeper.
    fn count(&mut self, job: &Job)
        ensures { self.new ≡ record self.old { with_keeper = one_more (is_request job.now) self.old.with_keeper } }
    {
        if job.is_request() && self.with_keeper < MOST_REQUESTS {
            self.with_keeper += 1;
        }
    }

    // Whether the session has something to do before it may leave.
    fn is_to_end(&self) -> bool
        ensures { result ≡ (is_bound_of self.now.session.conversation.state || owes self.now.session) }
    {
        self.session.state().is_bound() || self.session.owes()
    }

    fn next_waiting(&mut self) -> Option<Job>
        ensures { (result, self.new) ≡ handing (next_of self.old.outbox) self.old }
    {
        let job = self.outbox.next_job()?;
        self.count(&job);
        Some(job)
    }
}

impl Endpoint for Esme {
    ghost use Rattle.smsc_endpoint.specs.EsmeDoes.{EsmeDoes};

    ghost waits = { octets_of };

    ghost over = { is_over_of };

    ghost owing = { λ e. is_any_request e.waiting };

    ghost any_job = { λ e. is_any e.outbox.jobs };

    ghost does = { EsmeDoes };

    fn at(&mut self, now: u64) -> Result<(), AllocError>
        ensures { OnOk result (self.new ≡ at_time now self.old) }
    {
        self.time = now;
        if let Some(until) = self.held {
            if until <= now {
                self.held = None;
            }
        }
        Ok(())
    }

    fn take_full(&mut self, full: FullAccounts)
        ensures { self.new ≡ told full self.old }
    {
        self.session.set_full(full);
    }

    fn take(&mut self, octets: &[u8]) -> Result<(), AllocError>
        ensures { OnOk result (self.new ≡ taken octets.now self.old) }
    {
        self.counts.received = self.counts.received.saturating_add(octets.len() as u64);
        self.take_in(octets)
    }

    fn take_reply(&mut self, reply: Reply) -> Result<(), AllocError>
        ensures { OnOk result (self.new ≡ heard reply self.old) }
    {
        match reply {
            Reply::Answer(answer) => {
                self.answer_next(answer)?;
                self.answer_throttled()
            }
            Reply::Receipt(end) => self.send_receipt(&end),
            Reply::Frame(_octets) => Ok(()),
            Reply::Taken => Ok(()),
        }
    }

    fn give_up(&mut self) -> Result<(), AllocError>
        ensures { OnOk result (self.new ≡ saying no_room self.old) }
    {
        self.outbox.send(&NO_ROOM)
    }

    fn ask_link(&mut self) -> Result<(), AllocError>
        ensures { OnOk result (self.new ≡ saying enquire_link self.old) }
    {
        self.outbox.send(&ENQUIRE_LINK)
    }

    fn ask_to_leave(&mut self) -> Result<bool, AllocError>
        ensures { IfOk result (λ is_asked. (is_asked, self.new) ≡ asked_to_leave self.old) }
    {
        let is_asked = self.is_to_end();
        let octets = self.session.unbind()?;
        self.respond(octets)?;
        Ok(is_asked)
    }

    fn note(&mut self) -> Option<Note>
        ensures { (result, self.new) ≡ next_note self.old }
    {
        self.notes.pop_front()
    }

    fn octets(&self) -> &[u8]
        ensures { result.now ≡ octets_of self.now }
    {
        if self.held.is_some() {
            &[]
        } else {
            self.outbox.octets()
        }
    }

    fn sent(&mut self, count: usize)
        ensures { self.new ≡ sent_of count self.old }
    {
        self.counts.sent = self.counts.sent.saturating_add(count as u64);
        self.outbox.sent(count);
    }

    fn next_job(&mut self) -> Option<Job>
        ensures { (result, self.new) ≡ handed_out self.old }
    {
        if self.outbox.is_request_next() && self.is_busy() {
            return None;
        }
        self.next_waiting()
    }

    fn handed_back(&mut self, job: Job) -> Result<bool, AllocError>
        ensures { IfOk result (λ again. (again, self.new) ≡ handed_back job self.old) }
    {
        if job.is_request() {
            self.request_back()?;
            return Ok(false);
        }
        self.outbox.put_back(job)?;
        Ok(true)
    }

    fn has_jobs(&self) -> bool
        ensures { result ≡ is_any self.now.outbox.jobs }
    {
        self.outbox.has_jobs()
    }

    // Also those that wait for their turn, or were handed back and have no answer yet.
    fn unanswered(&self) -> usize
        ensures { result ≡ length self.now.waiting }
    {
        self.waiting.len()
    }

    fn owes(&self) -> bool
        ensures { result ≡ is_any_request self.now.waiting }
    {
        !self.waiting.is_empty()
    }

    fn is_full(&self) -> bool
        ensures { result ≡ (is_some self.now.held || is_loaded_of self.now) }
    {
        self.held.is_some() || self.is_loaded()
    }

    // A session that still owes answers is not given up.
    fn is_known(&self) -> bool
        ensures { result ≡ is_known_of self.now }
    {
        self.account.is_some() || self.session.owes()
    }

    fn is_bound(&self) -> bool
        ensures { result ≡ is_some self.now.account }
    {
        self.account.is_some()
    }

    fn owed_since(&self) -> Option<u64>
        ensures { result ≡ oldest self.now.receipts }
    {
        match self.receipts.as_slice() {
            [first, ..] => Some(first.since),
            [] => None,
        }
    }

    fn is_over(&self) -> bool
        ensures { result ≡ is_over_of self.now }
    {
        self.held.is_none()
            && self.session.state() == SessionState::Closed
            && self.waiting.is_empty()
    }

    fn counts(&self) -> Counts
        ensures { result ≡ self.now.counts }
    {
        self.counts
    }

    fn close(&mut self) -> Option<Job>
        ensures last { result ≡ last_job self.old }
        ensures ended { self.new ≡ ended self.old }
    {
        self.outbox.close();
        if self.session.close() {
            Some(Job::Unbound)
        } else {
            None
        }
    }
}
