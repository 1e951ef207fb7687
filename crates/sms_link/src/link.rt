//! One end of a link.
ghost use Rattle.std.specs.Prelude.{◌≡◌, ◌<◌, ◌≤◌, ◌++◌, [], length, IfOk, OnOk};
ghost use Rattle.sms_control.specs.ControlReading.{cp_at};
ghost use Rattle.sms_control.specs.DueTimers.{is_due, is_timed};
ghost use Rattle.sms_control.specs.LinkStep.{awaits_reply, is_busy};
ghost use Rattle.sms_link.specs.LinkTurn.{begun, passed_up as passed_up_of, carried_in as carried_in_of, carrying as carrying_of, fired};
ghost use Rattle.sms_link.specs.LinkTurn.{from_links as from_links_of, new_link, replied, still_under_way as still_under_way_of, taken};

use crate::ending::{Ending, Side, Upward, ending_of};
use crate::outgoing::Outgoing;
use sms_base::{Carried, Holder, Kind, Listed, Moment, Octets};
use sms_control::{Cp, Frames, Links, Out, TransactionFlag, Up};
use std::alloc::{AllocError, Global};
use std::marker::Model;

/// An end of a link, with what its transactions carry.
#[derive(Drop)]
pub struct Link {
    alloc: Global,
    side: Side,
    links: Links,
    under_way: Option<Carried>,
    answered: Option<Carried>,
}

impl Model for Link {
    ghost use Rattle.sms_link.specs.LinkTurn.{LinkOf};

    ghost Value = { LinkOf };

    ghost view = { λ l. record { side = l.side; links = l.links; under_way = l.under_way; answered = l.answered } };
}

/// What a frame or a tick gives: frames to send and at most one thing to pass up.
#[derive(Drop)]
pub struct LinkOut {
    pub frames: Listed<Outgoing>,
    pub up: Option<Upward>,
}

impl Link {
    /// A link with nothing under way.
    pub fn new(alloc: Global, side: Side) -> Link
        ensures { result ≡ new_link side }
    {
        Link {
            alloc,
            side,
            links: Links::new(alloc),
            under_way: None,
            answered: None,
        }
    }

    /// A copy of the link.
    pub fn copy(&self) -> Result<Link, AllocError>
        ensures { IfOk result (λ copy. copy ≡ self.now) }
    {
        Ok(Link {
            alloc: self.alloc,
            side: self.side,
            links: self.links.copy()?,
            under_way: self.under_way,
            answered: self.answered,
        })
    }

    /// Whether a transaction that this side began is under way.
    pub fn is_busy(&self) -> bool
        ensures { result ≡ is_busy self.now.links }
    {
        self.links.is_busy()
    }

    /// Whether a transaction of the other side waits for an answer.
    pub fn awaits_reply(&self) -> bool
        ensures { result ≡ awaits_reply self.now.links }
    {
        self.links.awaits_reply()
    }

    /// Whether `fire` has something to do at that moment: where it has not, it changes nothing and sends nothing.
    pub fn is_due(&self, now: Moment) -> bool
        ensures { result ≡ is_due now self.now.links }
    {
        self.links.is_due(now)
    }

    /// Whether a timer runs: `fire` has nothing to do where none does.
    pub fn is_timed(&self) -> bool
        ensures { result ≡ is_timed self.now.links }
    {
        self.links.is_timed()
    }

    /// What the transaction under way carries.
    pub fn under_way(&self) -> Option<Carried>
        ensures { result ≡ self.now.under_way }
    {
        self.under_way
    }

    /// A transaction of this side with RP-DATA or RP-SMMA, unless one is under way: a unit of 1 to 248 octets.
    pub fn begin(
        &mut self,
        now: Moment,
        reference: u8,
        tag: Holder,
        unit: &[u8],
    ) -> Result<Listed<Outgoing>, AllocError>
        requires some { 0 < length unit.now }
        requires fits { length unit.now ≤ 248 }
        ensures frames { IfOk result (λ frames. frames ≡ (begun now reference tag unit.now self.old).out.frames) }
        ensures state { OnOk result (self.new ≡ (begun now reference tag unit.now self.old).link) }
        ensures side { self.new.side ≡ self.old.side }
    {
        if self.links.is_busy() {
            return Ok(Listed::new(self.alloc));
        }
        let carried = Some(Carried {
            kind: Kind::Data,
            reference,
            tag,
        });
        match self.links.begin(now, unit) {
            Ok(out) => {
                self.under_way = carried;
                carrying(self.alloc, &carried, out.frames)
            }
            Err(_) => Err(AllocError),
        }
    }

    /// The answer in the transaction that the other side began, if one waits for it: a unit of 1 to 248 octets.
    pub fn reply(
        &mut self,
        now: Moment,
        kind: Kind,
        reference: u8,
        tag: Holder,
        unit: &[u8],
    ) -> Result<Listed<Outgoing>, AllocError>
        requires some { 0 < length unit.now }
        requires fits { length unit.now ≤ 248 }
        ensures frames { IfOk result (λ frames. frames ≡ (replied now kind reference tag unit.now self.old).out.frames) }
        ensures state { OnOk result (self.new ≡ (replied now kind reference tag unit.now self.old).link) }
        ensures side { self.new.side ≡ self.old.side }
    {
        if !self.links.awaits_reply() {
            return Ok(Listed::new(self.alloc));
        }
        let carried = Some(Carried {
            kind,
            reference,
            tag,
        });
        match self.links.reply(now, unit) {
            Ok(out) => {
                self.answered = carried;
                carrying(self.alloc, &carried, out.frames)
            }
            Err(_) => Err(AllocError),
        }
    }

    /// Takes a frame, whatever its octets.
    pub fn take(&mut self, frame: &[u8]) -> Result<LinkOut, AllocError>
        ensures out { IfOk result (λ out. out ≡ (taken frame.now self.old).out) }
        ensures state { OnOk result (self.new ≡ (taken frame.now self.old).link) }
        ensures side { self.new.side ≡ self.old.side }
    {
        let out = self.links.take(frame)?;
        self.hear(out)
    }

    /// Lets the timers fire that are due.
    pub fn fire(&mut self, now: Moment) -> Result<LinkOut, AllocError>
        ensures out { IfOk result (λ out. out ≡ (fired now self.old).out) }
        ensures state { OnOk result (self.new ≡ (fired now self.old).link) }
        ensures side { self.new.side ≡ self.old.side }
    {
        let out = self.links.fire(now)?;
        self.hear(out)
    }

    // The links did a step of their own.
    fn hear(&mut self, out: Out) -> Result<LinkOut, AllocError>
        ensures frames { IfOk result (λ heard. heard.frames ≡ from_links_of self.old.under_way self.old.answered out.frames) }
        ensures up { IfOk result (λ heard. heard.up ≡ passed_up_of self.old.side self.old.under_way out.up) }
        ensures state { OnOk result (self.new ≡ record self.old { under_way = still_under_way_of out.up self.old.under_way }) }
        ensures side { self.new.side ≡ self.old.side }
    {
        let frames = from_links(self.alloc, &self.under_way, &self.answered, out.frames)?;
        let up = passed_up(self.alloc, self.side, &self.under_way, &out.up)?;
        self.under_way = still_under_way(&out.up, self.under_way);
        Ok(LinkOut { frames, up })
    }
}

// New frames that all carry the same.
fn carrying(
    alloc: Global,
    carried: &Option<Carried>,
    frames: Frames,
) -> Result<Listed<Outgoing>, AllocError>
    ensures { IfOk result (λ out. out ≡ carrying_of carried.now frames) }
{
    let mut out = Listed::new(alloc);
    for octets in frames.into_vec() {
        out.push(Outgoing {
            octets,
            carried: *carried,
            is_copy: false,
        })?;
    }
    Ok(out)
}

// What a frame of the links' own carries.
fn carried_in(
    frame: &[u8],
    under_way: &Option<Carried>,
    answered: &Option<Carried>,
) -> Option<Carried>
    ensures { result ≡ carried_in_of (cp_at frame.now) under_way.now answered.now }
{
    match Cp::read(frame) {
        Ok(Cp::DataUnit { transaction, .. }) => match transaction.flag {
            TransactionFlag::FromOriginator => *under_way,
            TransactionFlag::ToOriginator => *answered,
        },
        _ => None,
    }
}

// Frames of the links' own: copies, where they carry something.
fn from_links(
    alloc: Global,
    under_way: &Option<Carried>,
    answered: &Option<Carried>,
    frames: Frames,
) -> Result<Listed<Outgoing>, AllocError>
    ensures { IfOk result (λ out. out ≡ from_links_of under_way.now answered.now frames) }
{
    let mut out = Listed::new(alloc);
    for octets in frames.into_vec() {
        let carried = carried_in(octets.as_slice(), under_way, answered);
        out.push(Outgoing {
            octets,
            carried,
            is_copy: carried.is_some(),
        })?;
    }
    Ok(out)
}

// What goes up.
fn passed_up(
    alloc: Global,
    side: Side,
    under_way: &Option<Carried>,
    up: &Option<Up>,
) -> Result<Option<Upward>, AllocError>
    ensures { IfOk result (λ upward. upward ≡ passed_up_of side under_way.now up.now) }
{
    match up {
        Some(
            Up::Unit {
                flag: TransactionFlag::FromOriginator,
                unit,
            },
        ) => {
            let unit = Octets::copy_of(alloc, unit.as_slice())?;
            Ok(Some(Upward::Opened(unit)))
        }
        Some(
            Up::Unit {
                flag: TransactionFlag::ToOriginator,
                unit,
            },
        ) => match under_way {
            Some(transfer) => {
                let ending = ending_of(alloc, side, transfer.reference, unit.as_slice())?;
                Ok(Some(Upward::Ended {
                    transfer: *transfer,
                    ending,
                }))
            }
            None => Ok(None),
        },
        Some(Up::Failed) => match under_way {
            Some(transfer) => Ok(Some(Upward::Ended {
                transfer: *transfer,
                ending: Ending::Lost,
            })),
            None => Ok(None),
        },
        None => Ok(None),
    }
}

// What is under way after it.
fn still_under_way(up: &Option<Up>, under_way: Option<Carried>) -> Option<Carried>
    ensures { result ≡ still_under_way_of up.now under_way }
{
    match up {
        Some(
            Up::Unit {
                flag: TransactionFlag::ToOriginator,
                ..
            },
        )
        | Some(Up::Failed) => None,
        _ => under_way,
    }
}
