//! What an observer is told.
ghost use Rattle.std.specs.Prelude.{◌≡◌};
ghost use Rattle.smsc_server.specs.serving.SeatEvents.{account_numbered, message_told, note_told};

use sms_centre_rows::messages::MessageRow;
use smsc_arrivals::PeerKind;
use smsc_loop::Note;
use smsc_observer::Event;
use std::net::SocketAddr;

/// There are fewer accounts.
pub(crate) const NO_ACCOUNT: u8 = 255;

/// The place of the account that has this number, if it is one.
pub(crate) fn account_in(number: u8) -> Option<u8>
    ensures { result ≡ account_numbered number }
{
    match number {
        NO_ACCOUNT => None,
        account => Some(account),
    }
}

/// What is told of what happened at the seat. The endpoint has said who it is, or not, and the account was bound there last.
pub(crate) fn event_of_note(
    seat: usize,
    side: PeerKind,
    peer: SocketAddr,
    is_known: bool,
    account: Option<u8>,
    note: Note,
) -> Event
    ensures { result ≡ note_told seat side peer is_known account note }
{
    match note {
        Note::SubmitRefused(status) => Event::SubmitRefused(account, status),
        Note::Ended(why, _) if !is_known => Event::Unknown(side, peer, why),
        note => Event::Endpoint(seat, peer, note),
    }
}

/// What is told of a message that was committed. It is put twice: as it is accepted, and as it ends.
pub(crate) fn event_of_message(message: &MessageRow) -> Event
    ensures { result ≡ message_told message.now message.now.state }
{
    match message.state {
        Some(state) => Event::Final(message.id, state),
        None => Event::Accepted(message.id, message.handset),
    }
}
