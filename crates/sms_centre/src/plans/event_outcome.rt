//! A plan, ready made.
use sms_base::{Listed, Moment};
use sms_centre_messages::message_index::MessageIndexReserve;
use sms_centre_messages::references::ReferenceIndexReserve;
use sms_centre_queue::queues::DeliveryQueuesPlan;
use sms_centre_reports::open_reports::OpenReports;
use sms_centre_reports::sessions::ReceiptSession;
use sms_centre_rows::reports::Delivery;
use sms_centre_rows::waiting::Sent;
use sms_centre_spec::{CentreAnswer, Changes};
use sms_rows::table::Table;
use std::marker::Model;

/// What leaves once the changes are committed: frames to handsets in their order, the answer to an application's
/// request, and receipts in their order.
#[derive(Drop)]
pub struct Outputs {
    pub frames: Listed<Sent>,
    pub answer: Option<CentreAnswer>,
    pub deliveries: Listed<Delivery>,
}

/// What is in memory after the event, ready made.
#[derive(Drop)]
pub struct NextState {
    pub moment: Moment,
    pub messages: MessageIndexReserve,
    pub reference_index: ReferenceIndexReserve,
    pub queues: DeliveryQueuesPlan,
    pub reports: OpenReports,
    pub sessions: Table<ReceiptSession>,
}

impl Model for NextState {
    ghost use Rattle.sms_centre.specs.plans.NextState.{NextStateOf};

    ghost Value = { NextStateOf };

    ghost view = { λ l. record {
      moment = l.moment;
      messages = l.messages;
      reference_index = l.reference_index;
      queues = l.queues;
      reports = l.reports;
      sessions = l.sessions.rows;
    } };
}

/// What an event leads to: what it changes of the rows, what leaves, and what is in memory after it.
#[derive(Drop)]
pub struct EventOutcome {
    pub changes: Changes,
    pub outputs: Outputs,
    pub next_state: NextState,
}
