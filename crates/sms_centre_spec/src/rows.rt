//! What a centre stores, and what an event changes of it.
use crate::setup::Setup;
use sms_base::Listed;
use sms_centre_rows::messages::{BarRow, MessageRow, PartRow, PriorityRow};
use sms_centre_rows::reports::ReportRow;
use sms_centre_rows::waiting::{HandsetRow, ReferenceRow, Revision};
use sms_rows::table::Change;

/// All that a centre stores, and its setup, which is handed in.
#[derive(Drop)]
pub struct Rows {
    pub messages: Listed<MessageRow>,
    pub parts: Listed<PartRow>,
    pub references: Listed<ReferenceRow>,
    pub handsets: Listed<HandsetRow>,
    pub reports: Listed<ReportRow>,
    pub priorities: Listed<PriorityRow>,
    pub bars: Listed<BarRow>,
    pub setup: Setup,
}

/// What an event changes of the rows: of each list in order.
#[derive(Drop)]
pub struct Changes {
    pub messages: Listed<Change<MessageRow>>,
    pub parts: Listed<Revision<PartRow>>,
    pub references: Listed<Change<ReferenceRow>>,
    pub handsets: Listed<Change<HandsetRow>>,
    pub reports: Listed<Revision<ReportRow>>,
    pub priorities: Listed<Change<PriorityRow>>,
    pub bars: Listed<Change<BarRow>>,
}
