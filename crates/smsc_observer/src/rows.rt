//! The messages of a store, as a run begins.
use sms_base::FinalState;
use sms_centre_rows::messages::MessageRow;
use smsc_status::MessageFigures;

/// No message is in any state.
pub const NO_MESSAGES: MessageFigures = MessageFigures {
    enroute: 0,
    delivered: 0,
    expired: 0,
    deleted: 0,
    undeliverable: 0,
};

/// Counts one more message in this state.
pub fn with_message(figures: MessageFigures, state: Option<FinalState>) -> MessageFigures {
    let mut figures = figures;
    match state {
        None => figures.enroute = figures.enroute.saturating_add(1),
        Some(FinalState::Delivered) => figures.delivered = figures.delivered.saturating_add(1),
        Some(FinalState::Expired) => figures.expired = figures.expired.saturating_add(1),
        Some(FinalState::Deleted) => figures.deleted = figures.deleted.saturating_add(1),
        Some(FinalState::Undeliverable) => {
            figures.undeliverable = figures.undeliverable.saturating_add(1);
        }
    }
    figures
}

/// How many of the messages are in each state.
pub fn message_figures(messages: &[MessageRow]) -> MessageFigures {
    let mut figures = NO_MESSAGES;
    for message in messages {
        figures = with_message(figures, message.state);
    }
    figures
}
