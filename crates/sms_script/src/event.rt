//! The events of a script.
use crate::hexadecimal::HexView;
use crate::text::TextView;
use sms_base::{Moment, OctetView};

/// The centre, or the handset of that number. Whether there is such a handset is judged where the event is played.
#[derive(Drop)]
pub enum EventSide<'a> {
    Centre,
    Handset(OctetView<'a>),
}

/// What an application submits.
#[derive(Drop)]
pub struct Submission<'a> {
    /// The name of its account.
    pub name: OctetView<'a>,
    /// The text of the destination, an international number of the ISDN plan.
    pub to: OctetView<'a>,
    /// data_coding.
    pub coding: u8,
    pub esm_class: u8,
    pub registered_delivery: u8,
    /// validity_period, empty where none is given.
    pub validity: OctetView<'a>,
    /// The octets of the message.
    pub message: HexView<'a>,
    /// priority_flag, 0 to 3.
    pub priority: u8,
}

/// What is done to the network, to one of its sides or by an application or an owner.
#[derive(Drop)]
pub enum Act<'a> {
    Submit(Submission<'a>),
    /// The text of the message's id, as it was written.
    Query {
        name: OctetView<'a>,
        id: OctetView<'a>,
    },
    Cancel {
        name: OctetView<'a>,
        id: OctetView<'a>,
    },
    /// The owner of a handset writes a text, and asks for a report or doesn't.
    Write {
        handset: OctetView<'a>,
        to: OctetView<'a>,
        report: bool,
        text: TextView<'a>,
    },
    Delete {
        handset: OctetView<'a>,
        entry: u64,
    },
    Discard {
        handset: OctetView<'a>,
        entry: u64,
    },
    /// The frame of that number is handed over.
    Deliver(u64),
    Tick {
        side: EventSide<'a>,
        now: Moment,
    },
}

/// Where an act was stopped: before its store call, or after it.
#[derive(Clone, Copy, PartialEq, Eq)]
pub enum StopPoint {
    Before,
    After,
}

/// An event of a script.
#[derive(Drop)]
pub enum WorldEvent<'a> {
    Whole(Act<'a>),
    Stopped(StopPoint, Act<'a>),
    Restart(EventSide<'a>),
}
