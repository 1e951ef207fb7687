//! The link of a handset at a seat.
ghost use Rattle.std.specs.Prelude.{◌≡◌, ◌==◌, ◌||◌, ◌&&◌, not, false, true, None, Ok, IfOk, OnOk, if◌then◌else◌};
ghost use Rattle.std.specs.Arc.{arc_value};
ghost use Rattle.sms_link.specs.framing.Framing.{front_of};
ghost use Rattle.smsc_endpoint.specs.FirstFrame.{given_by as given_number, refused_by};
ghost use Rattle.smsc_endpoint.specs.LinkView.{opened};
ghost use Rattle.smsc_endpoint.specs.LinkCalls.{CutsFront, Hears, HearsFrame, HearsMarkAt, ReadsFirst, ReadsFrames, ReadsOn};
ghost use Rattle.smsc_endpoint.specs.LinkCalls.{at_time, congestion, ended, handed_back, handed_out, handing, last_job, left_behind, mark as mark_job};
ghost use Rattle.smsc_endpoint.specs.LinkCalls.{next_note};
ghost use Rattle.smsc_endpoint.specs.LinkCalls.{naming, noting, over_saying, named_by, sending, sent_off, taken_by, unmarked as unmarked_of};
ghost use Rattle.smsc_endpoint.specs.LinkCalls.{waiting_on, with_frame, with_unread};
ghost use Rattle.smsc_endpoint.specs.LinkCalls.{is_full as is_full_of, is_up};
ghost use Rattle.smsc_endpoint.specs.Outbox.{next_of, is_any};
ghost use Rattle.smsc_endpoint.specs.declared.link_stage.Stage.TheVariants.{Up};
ghost use Rattle.smsc_loop.specs.declared.note.Note.TheVariants.{LinkUp as LinkUpNote};

use crate::first_frame::{given_by, refusal_of};
use crate::link_access::LinkAccess;
use crate::link_stage::Stage;
use crate::outbox::Outbox;
use crate::refusing::{CONGESTION, PROTOCOL_ERROR};
use smpp_session::FullAccounts;
use sms_base::{Msisdn, Octets};
use sms_centre_spec::jobs::{Job, Reply};
use sms_link::framing::laws::front_is_the_frame;
use sms_link::framing::{FrameBuffer, FramingFault, is_frame, push_frame};
use smsc_loop::{Counts, Endpoint, Note};
use std::alloc::{AllocError, Global};
use std::collections::VecDeque;
use std::marker::Model;
use std::sync::Arc;

// So many jobs of a link go before one that has an answer, so that no more than eight are with the keeper.
const MOST_UNMARKED: u8 = 7;

// Milliseconds after which a handset that has another link is named again, while that one ends.
const AGAIN_WAIT: u64 = 50;

// So often it is named at most.
const MOST_TRIES: u32 = 100;

/// The link of a handset at a seat: the first frame names the handset by its digits, the others are frames of the control layer.
/// Where numbers have secrets, a space and the number's secret are behind the digits. A link without them is over before it has the number.
///
/// A handset that has a link at another seat is named again until that link has ended. Frames are passed up once the link is up.
/// Behind seven jobs it puts one that asks nothing and has an answer, and waits for that. So at most eight are with the keeper.
#[derive(Drop)]
pub struct LinkEndpoint {
    alloc: Global,
    access: Arc<LinkAccess>,
    unread: FrameBuffer,
    handset: Option<Msisdn>,
    stage: Stage,
    is_over: bool,
    outbox: Outbox,
    notes: VecDeque<Note>,
    counts: Counts,
    // So many jobs may go before the next that has an answer.
    before_mark: u8,
    // That answer is not there yet.
    is_marked: bool,
    // In milliseconds.
    time: u64,
    // Since when the other link of the handset is waited for.
    since: u64,
    // How often the handset may still be named.
    tries: u32,
}

impl Model for LinkEndpoint {
    ghost use Rattle.std.specs.Arc.{arc_value};
    ghost use Rattle.smsc_endpoint.specs.LinkView.{LinkView};

    ghost Value = { LinkView };

    ghost view = { λ l. record {
      access = arc_value l.access;
      unread = l.unread;
      handset = l.handset;
      stage = l.stage;
      is_over = l.is_over;
      outbox = l.outbox;
      notes = l.notes.items;
      counts = l.counts;
      before_mark = l.before_mark;
      is_marked = l.is_marked;
      time = l.time;
      since = l.since;
      tries = l.tries;
    } };
}

impl LinkEndpoint {
    /// A link on a connection that was just opened.
    pub fn new(alloc: Global, access: Arc<LinkAccess>) -> LinkEndpoint
        ensures { result ≡ opened (arc_value access) }
    {
        LinkEndpoint {
            alloc,
            access,
            unread: FrameBuffer::new(alloc),
            handset: None,
            stage: Stage::Unnamed,
            is_over: false,
            outbox: Outbox::new(alloc),
            notes: VecDeque::new(alloc),
            counts: Counts::none(),
            before_mark: MOST_UNMARKED,
            is_marked: false,
            time: 0,
            since: 0,
            tries: MOST_TRIES,
        }
    }

    // The link is over. It is sent the reason once, and the operator is told it.
    fn end_with(&mut self, note: Note, octets: &[u8]) -> Result<(), AllocError>
        ensures { OnOk result (self.new ≡ over_saying note octets.now self.old) }
    {
        if !self.is_over {
            self.is_over = true;
            self.outbox.send(octets)?;
        }
        self.notes.push_back(note)?;
        Ok(())
    }

    // The frame at the front of what arrived, of our own.
    fn front(&self) -> Result<Result<Option<Octets>, FramingFault>, AllocError>
        ensures { IfOk result (λ front. front ≡ front_of self.now.unread) }
    {
        match self.unread.front() {
            Ok(Some(frame)) => {
                let copy = Octets::copy_of(self.alloc, frame.as_slice())?;
                Ok(Ok(Some(copy)))
            }
            Ok(None) => Ok(Ok(None)),
            Err(fault) => Ok(Err(fault)),
        }
    }

    // Cuts the frame at the front off. Octets that are no stream of frames end the link.
    fn next_frame(&mut self) -> Result<Option<Octets>, AllocError>
        ensures { IfOk result (λ frame. CutsFront (front_of self.old.unread) self.old frame self.new) }
    {
        match self.front()? {
            Ok(Some(frame)) => {
                self.unread.cut();
                Ok(Some(frame))
            }
            Ok(None) => Ok(None),
            Err(_) => {
                self.end_with(Note::NoFrames, &PROTOCOL_ERROR)?;
                Ok(None)
            }
        }
    }

    // Names the handset of the link to the keeper.
    fn name(&mut self, handset: Msisdn) -> Result<(), AllocError>
        ensures { OnOk result (self.new ≡ naming handset self.old) }
    {
        self.stage = Stage::Named;
        self.tries = self.tries.saturating_sub(1);
        self.outbox.put(Job::LinkUp { handset })
    }

    // Does what the first frame asks.
    fn name_by(&mut self, frame: &[u8]) -> Result<(), AllocError>
        ensures { OnOk result (self.new ≡ named_by (refused_by self.old.access frame.now) (given_number self.old.access frame.now) self.old) }
    {
        let given = given_by(&self.access, frame);
        let refusal = refusal_of(&self.access, frame);
        match given {
            Some(handset) => {
                self.handset = Some(handset);
                self.name(handset)
            }
            None => self.end_with(refusal, &PROTOCOL_ERROR),
        }
    }

    // Reads the first frame, once it is there.
    fn read_first(&mut self) -> Result<(), AllocError>
        ensures { OnOk result (ReadsFirst (front_of self.old.unread) self.old self.new) }
    {
        match self.next_frame()? {
            Some(frame) => self.name_by(frame.as_slice()),
            None => Ok(()),
        }
    }

    fn put_frame(&mut self, octets: Octets) -> Result<(), AllocError>
        ensures { OnOk result (self.new ≡ with_frame octets self.old) }
    {
        self.counts.requests = self.counts.requests.saturating_add(1);
        self.outbox.put(Job::Frame { octets })
    }

    // Reads all frames that are there.
    fn read_frames(&mut self) -> Result<(), AllocError>
        ensures { OnOk result (ReadsFrames self.old self.new) }
    {
        front_is_the_frame();
        'reading: while let Some(octets) = self.next_frame()? {
            self.put_frame(octets)?;
        }
        Ok(())
    }

    // Reads what arrived, as far as it may.
    fn read_on(&mut self) -> Result<(), AllocError>
        ensures { OnOk result (ReadsOn self.old self.new) }
    {
        if self.is_over {
            return Ok(());
        }
        match self.stage {
            Stage::Unnamed => self.read_first(),
            Stage::Up => self.read_frames(),
            Stage::Named | Stage::Taken | Stage::Later => Ok(()),
        }
    }

    // The handset has another link, which is to end.
    fn turned_away(&mut self) -> Result<(), AllocError>
        ensures { OnOk result (self.new ≡ taken_by self.old.handset self.old) }
    {
        self.stage = Stage::Taken;
        if let Some(handset) = self.handset {
            self.notes.push_back(Note::Taken(handset))?;
        }
        Ok(())
    }

    // The other link has not ended yet.
    fn wait_for_it(&mut self, handset: Msisdn) -> Result<(), AllocError>
        ensures { OnOk result (self.new ≡ waiting_on handset self.old) }
    {
        if self.tries > 0 {
            self.stage = Stage::Later;
            self.since = self.time;
            return Ok(());
        }
        self.handset = None;
        self.stage = Stage::Unnamed;
        self.end_with(Note::NotReplaced(handset), &CONGESTION)
    }

    // The link is up.
    fn bring_up(&mut self, handset: Msisdn) -> Result<(), AllocError>
        ensures { OnOk result (ReadsOn (noting (LinkUpNote handset) (record self.old { stage = Up })) self.new) }
    {
        self.stage = Stage::Up;
        self.notes.push_back(Note::LinkUp(handset))?;
        self.read_on()
    }

    // All jobs that were put are done.
    fn marked(&mut self) -> Result<(), AllocError>
        ensures { OnOk result (HearsMarkAt self.old.stage self.old.handset (unmarked_of self.old) self.new) }
    {
        self.is_marked = false;
        self.before_mark = MOST_UNMARKED;
        match (self.stage, self.handset) {
            (Stage::Named, Some(handset)) => self.bring_up(handset),
            (Stage::Taken, Some(handset)) => self.wait_for_it(handset),
            _ => Ok(()),
        }
    }

    // Sends a frame behind its length.
    fn send_frame(&mut self, frame: &[u8]) -> Result<(), AllocError>
        ensures { OnOk result (HearsFrame frame.now self.old self.new) }
    {
        if !is_frame(frame) {
            return Ok(());
        }
        let mut octets = Octets::new(self.alloc);
        push_frame(&mut octets, frame)?;
        self.outbox.send(octets.as_slice())
    }

    // Whether the next job is one that has an answer.
    fn is_mark_due(&self) -> bool
        ensures { result ≡ (self.now.before_mark == 0 && not self.now.is_marked) }
    {
        self.before_mark == 0 && !self.is_marked
    }

    fn mark(&mut self) -> Job
        ensures job { result ≡ mark_job }
        ensures marked { self.new ≡ record self.old { is_marked = true } }
    {
        self.is_marked = true;
        Job::Query {
            account: 0,
            pdu: Octets::new(self.alloc),
        }
    }

    // The job is put.
    fn count(&mut self, job: &Job)
        ensures { self.new ≡ record self.old { before_mark = left_behind job.now self.old.before_mark } }
    {
        self.before_mark = match job {
            // Whether the link is up is known by the next answer.
            Job::LinkUp { .. } => 0,
            _ => self.before_mark.saturating_sub(1),
        };
    }

    fn next_waiting(&mut self) -> Option<Job>
        ensures { (result, self.new) ≡ handing (next_of self.old.outbox) self.old }
    {
        let job = self.outbox.next_job()?;
        self.count(&job);
        Some(job)
    }
}

impl Endpoint for LinkEndpoint {
    ghost use Rattle.smsc_endpoint.specs.LinkDoes.{LinkDoes, any_link_job, link_waits};

    ghost waits = { link_waits };

    ghost over = { λ l. l.is_over };

    ghost owing = { λ l. false };

    ghost any_job = { any_link_job };

    ghost does = { LinkDoes };

    fn at(&mut self, now: u64) -> Result<(), AllocError>
        ensures { OnOk result (self.new ≡ at_time now self.old) }
    {
        self.time = now;
        match (self.stage, self.handset) {
            (Stage::Later, Some(handset)) if AGAIN_WAIT <= now.saturating_sub(self.since) => {
                self.name(handset)
            }
            _ => Ok(()),
        }
    }

    // A link is of no account.
    fn take_full(&mut self, _full: FullAccounts)
        ensures { self.new ≡ self.old }
    {}

    fn take(&mut self, octets: &[u8]) -> Result<(), AllocError>
        ensures { OnOk result (ReadsOn (with_unread octets.now self.old) self.new) }
    {
        self.counts.received = self.counts.received.saturating_add(octets.len() as u64);
        self.unread.feed(octets)?;
        self.read_on()
    }

    fn take_reply(&mut self, reply: Reply) -> Result<(), AllocError>
        ensures { OnOk result (Hears reply self.old self.new) }
    {
        match reply {
            Reply::Frame(octets) => self.send_frame(octets.as_slice()),
            Reply::Taken => self.turned_away(),
            Reply::Answer(_) => self.marked(),
            Reply::Receipt(_) => Ok(()),
        }
    }

    fn give_up(&mut self) -> Result<(), AllocError>
        ensures { OnOk result (self.new ≡ sending congestion self.old) }
    {
        self.outbox.send(&CONGESTION)
    }

    fn ask_link(&mut self) -> Result<(), AllocError>
        ensures { self.new ≡ self.old }
    {
        Ok(())
    }

    fn ask_to_leave(&mut self) -> Result<bool, AllocError>
        ensures result { result ≡ Ok false }
        ensures unchanged { self.new ≡ self.old }
    {
        Ok(false)
    }

    fn note(&mut self) -> Option<Note>
        ensures { (result, self.new) ≡ next_note self.old }
    {
        self.notes.pop_front()
    }

    fn octets(&self) -> &[u8]
        ensures { result.now ≡ self.now.outbox.octets }
    {
        self.outbox.octets()
    }

    fn sent(&mut self, count: usize)
        ensures { self.new ≡ sent_off count self.old }
    {
        self.counts.sent = self.counts.sent.saturating_add(count as u64);
        self.outbox.sent(count);
    }

    fn next_job(&mut self) -> Option<Job>
        ensures { (result, self.new) ≡ handed_out self.old }
    {
        if self.is_marked {
            return None;
        }
        if self.before_mark == 0 {
            return Some(self.mark());
        }
        self.next_waiting()
    }

    // A frame for which there is no room is as lost on its way; anything else is put again.
    fn handed_back(&mut self, job: Job) -> Result<bool, AllocError>
        ensures { IfOk result (λ again. (again, self.new) ≡ handed_back job self.old) }
    {
        match job {
            Job::Frame { octets: _ } => Ok(false),
            Job::Query { .. } => {
                self.is_marked = false;
                Ok(true)
            }
            job => {
                self.before_mark = MOST_UNMARKED;
                self.outbox.put_back(job)?;
                Ok(true)
            }
        }
    }

    fn has_jobs(&self) -> bool
        ensures { result ≡ (is_any self.now.outbox.jobs || (self.now.before_mark == 0 && not self.now.is_marked)) }
    {
        self.outbox.has_jobs() || self.is_mark_due()
    }

    fn is_full(&self) -> bool
        ensures { result ≡ is_full_of self.now }
    {
        self.is_marked || !matches!(self.stage, Stage::Unnamed | Stage::Up)
    }

    fn unanswered(&self) -> usize
        ensures { result ≡ (if self.now.is_marked then 1 else 0) }
    {
        if self.is_marked { 1 } else { 0 }
    }

    // A handset is answered by frames of its own.
    fn owes(&self) -> bool
        ensures { result ≡ false }
    {
        false
    }

    fn is_known(&self) -> bool
        ensures { result ≡ is_up self.now.stage }
    {
        self.stage == Stage::Up
    }

    fn is_bound(&self) -> bool
        ensures { result ≡ false }
    {
        false
    }

    fn owed_since(&self) -> Option<u64>
        ensures { result ≡ None }
    {
        None
    }

    fn is_over(&self) -> bool
        ensures { result ≡ self.now.is_over }
    {
        self.is_over
    }

    fn counts(&self) -> Counts
        ensures { result ≡ self.now.counts }
    {
        self.counts
    }

    fn close(&mut self) -> Option<Job>
        ensures last { result ≡ last_job self.old.stage }
        ensures ended { self.new ≡ ended self.old }
    {
        self.outbox.close();
        self.is_over = true;
        self.handset = None;
        let stage = self.stage;
        self.stage = Stage::Unnamed;
        match stage {
            Stage::Named | Stage::Up => Some(Job::LinkDown),
            Stage::Unnamed | Stage::Taken | Stage::Later => None,
        }
    }
}
