//! The lines of the log, in logfmt: `event=bound seat=3 peer=127.0.0.1:51234 account=bank kind=transceiver`.
use crate::account_names::AccountNames;
use smpp_session::BindKind;
use sms_base::{Digits, FinalState, MessageId, Msisdn};
use smsc_loop::{Counts, LeaveReason, Note};
use smsc_observer::{Event, Refusals, Seated};
use std::alloc::{AllocError, Global};
use std::net::SocketAddr;

fn kind_word(kind: BindKind) -> &'static str {
    match kind {
        BindKind::Transmitter => "transmitter",
        BindKind::Receiver => "receiver",
        BindKind::Transceiver => "transceiver",
    }
}

/// Why a bind was refused (SMPP v3.4 5.1.3).
pub fn refusal_word(status: u32) -> &'static str {
    match status {
        0x04 => "unbound_already",
        0x05 => "already_bound",
        0x0D => "too_many_sessions",
        0x0E => "wrong_password",
        0x0F => "unknown_system_id",
        _ => "unreadable",
    }
}

fn reason_word(why: LeaveReason) -> &'static str {
    match why {
        LeaveReason::Closed => "connection_closed",
        LeaveReason::Over => "session_over",
        LeaveReason::Silent => "did_not_say_who_it_is",
        LeaveReason::Stalled => "takes_no_octets",
        LeaveReason::Unanswered => "deliver_sm_unanswered",
        LeaveReason::Inactive => "enquire_link_unanswered",
        LeaveReason::Ordered => "ordered",
        LeaveReason::Replaced => "newer_link",
        LeaveReason::NoMemory => "out_of_memory",
    }
}

/// Digits, or the characters of a name.
pub fn name_text(alloc: Global, name: &Digits) -> Result<String, AllocError> {
    let mut text = String::new(alloc);
    for character in name.as_slice() {
        text.push(*character)?;
    }
    Ok(text)
}

/// The digits of a handset's number.
pub fn number_text(alloc: Global, handset: &Msisdn) -> Result<String, AllocError> {
    name_text(alloc, &handset.digits())
}

/// A part of a line, and how much it matters.
#[derive(Drop)]
pub struct Line {
    /// How much it matters: `info`, `warn` or `error`.
    pub level: &'static str,
    /// The part behind the time and the level.
    pub text: String,
}

fn ended_text(alloc: Global, why: LeaveReason, counts: &Counts) -> Result<String, AllocError> {
    let word = reason_word(why);
    let Counts {
        requests,
        receipts,
        received,
        sent,
        ..
    } = *counts;
    Ok(format!(in alloc;
        "event=ended reason={word} requests={requests} receipts={receipts} received={received} sent={sent}"
    )?)
}

// Whether a word may stand in a line without quotation marks.
fn is_bare(text: &str) -> bool {
    !text.is_empty()
        && text.bytes().all(|octet| octet.is_ascii_graphic()
            && !matches!(octet, b'"' | b'\\' | b'='))
}

// An octet between quotation marks; a question mark for one that is no printable ASCII.
fn put_quoted(text: &mut String, octet: u8) -> Result<(), AllocError> {
    match octet {
        b'"' => text.push_str("\\\""),
        b'\\' => text.push_str("\\\\"),
        b' '..=b'~' => text.push(char::from(octet)),
        _ => text.push('?'),
    }
}

fn quoted(alloc: Global, name: &str) -> Result<String, AllocError> {
    let mut text = String::new(alloc);
    text.push('"')?;
    for octet in name.bytes() {
        put_quoted(&mut text, octet)?;
    }
    text.push('"')?;
    Ok(text)
}

// A word as it is, or between quotation marks where a reader would take it for something else.
fn bare_or_quoted(alloc: Global, word: &str) -> Result<String, AllocError> {
    if is_bare(word) {
        plain(alloc, word)
    } else {
        quoted(alloc, word)
    }
}

fn account_name(alloc: Global, names: &AccountNames, account: u8) -> Result<String, AllocError> {
    match names.at(usize::from(account)) {
        Some(name) => bare_or_quoted(alloc, name),
        None => plain(alloc, "?"),
    }
}

fn bound_text(
    alloc: Global,
    names: &AccountNames,
    account: u8,
    kind: BindKind,
) -> Result<String, AllocError> {
    let name = account_name(alloc, names, account)?;
    let word = kind_word(kind);
    Ok(format!(in alloc; "event=bound account={name} kind={word}")?)
}

fn plain(alloc: Global, text: &str) -> Result<String, AllocError> {
    let mut all = String::new(alloc);
    all.push_str(text)?;
    Ok(all)
}

fn handset_text(alloc: Global, text: &str, handset: &Msisdn) -> Result<String, AllocError> {
    let number = number_text(alloc, handset)?;
    Ok(format!(in alloc; "{text} handset={number}")?)
}

fn refused_text(alloc: Global, status: u32, name: &Digits) -> Result<String, AllocError> {
    let word = refusal_word(status);
    let name = bare_or_quoted(alloc, name_text(alloc, name)?.as_str())?;
    Ok(format!(in alloc; "event=bind_refused account={name} status={status} reason={word}")?)
}

fn note_level(note: &Note) -> &'static str {
    match note {
        Note::Bound(_, _) | Note::Unbound | Note::LinkUp(_) | Note::Taken(_) | Note::Ended(_, _) =>
            "info",
        Note::BindRefused(_, _)
        | Note::WrongBinds
        | Note::SubmitRefused(_)
        | Note::NoNumber
        | Note::WrongSecret(_)
        | Note::NotReplaced(_)
        | Note::NoFrames => "warn",
    }
}

fn note_text(alloc: Global, names: &AccountNames, note: &Note) -> Result<String, AllocError> {
    match note {
        Note::Bound(account, kind) => bound_text(alloc, names, *account, *kind),
        Note::BindRefused(status, name) => refused_text(alloc, *status, name),
        Note::WrongBinds => plain(alloc, "event=wrong_binds count=3"),
        Note::Unbound => plain(alloc, "event=unbound"),
        Note::SubmitRefused(status) => Ok(format!(in alloc;
            "event=submit_refused status={status}"
        )?),
        Note::LinkUp(handset) => handset_text(alloc, "event=link_up", handset),
        Note::NoNumber => plain(alloc, "event=link_refused reason=first_frame_is_no_number"),
        Note::WrongSecret(handset) => {
            handset_text(alloc, "event=link_refused reason=wrong_secret", handset)
        }
        Note::Taken(handset) => handset_text(alloc, "event=link_replaces", handset),
        Note::NotReplaced(handset) => {
            handset_text(alloc, "event=link_refused reason=other_link_stays", handset)
        }
        Note::NoFrames => plain(alloc, "event=link_refused reason=no_frames"),
        Note::Ended(why, counts) => ended_text(alloc, *why, counts),
    }
}

/// Why a submit_sm was refused (SMPP v3.4 5.1.3).
fn submit_word(status: u32) -> &'static str {
    match status {
        0x01 => "message_too_long",
        0x02 => "bad_length",
        0x04 => "not_bound_to_submit",
        0x08 => "system_error",
        0x0A => "bad_source",
        0x0B => "bad_destination",
        0x14 => "queue_full",
        0x43 => "bad_esm_class",
        0x45 => "not_submitted",
        0x58 => "throttled",
        0x61 => "bad_schedule",
        0x62 => "bad_validity",
        0xC0 => "bad_parameters",
        0xC1 => "parameter_not_allowed",
        0xC2 => "bad_parameter_length",
        _ => "refused",
    }
}

/// The name of the cause of an RP-ERROR (3GPP TS 24.011 8.2.5.4).
pub fn cause_word(cause: u8) -> &'static str {
    match cause {
        1 => "unassigned number",
        8 => "operator determined barring",
        10 => "call barred",
        21 => "short message transfer rejected",
        22 => "memory capacity exceeded",
        27 => "destination out of order",
        28 => "unidentified subscriber",
        29 => "facility rejected",
        30 => "unknown subscriber",
        38 => "network out of order",
        41 => "temporary failure",
        42 => "congestion",
        47 => "resources unavailable",
        50 => "requested facility not subscribed",
        69 => "requested facility not implemented",
        81 => "invalid short message transfer reference",
        95 => "semantically incorrect message",
        96 => "invalid mandatory information",
        97 => "message type non-existent",
        98 => "message not compatible with the state",
        99 => "information element non-existent",
        111 => "protocol error",
        127 => "interworking",
        _ => "a cause without a name",
    }
}

/// The text of a line for submit_sm that were refused within a second.
pub(crate) fn refusals_text(
    alloc: Global,
    names: &AccountNames,
    refusals: &Refusals,
) -> Result<String, AllocError> {
    let Refusals {
        account,
        status,
        count,
    } = *refusals;
    let word = submit_word(status);
    let name = match account {
        Some(account) => account_name(alloc, names, account)?,
        None => plain(alloc, "\"\"")?,
    };
    Ok(format!(in alloc;
        "event=submits_refused account={name} status={status} reason={word} count={count}"
    )?)
}

// The word of a receipt for an end (SMPP v3.4 appendix B).
fn state_word(state: FinalState) -> &'static str {
    match state {
        FinalState::Delivered => "DELIVRD",
        FinalState::Expired => "EXPIRED",
        FinalState::Deleted => "DELETED",
        FinalState::Undeliverable => "UNDELIV",
    }
}

// The number of a message in ten digits, as its answer has it (SMPP v3.4 5.2.23).
fn id_text(alloc: Global, id: MessageId) -> Result<String, AllocError> {
    let mut text = String::new(alloc);
    for digit in id.digits() {
        text.push(char::from(digit))?;
    }
    Ok(text)
}

fn accepted_text(alloc: Global, id: MessageId, handset: &Msisdn) -> Result<String, AllocError> {
    let id = id_text(alloc, id)?;
    let number = number_text(alloc, handset)?;
    Ok(format!(in alloc; "event=accepted id={id} handset={number}")?)
}

fn final_text(alloc: Global, id: MessageId, state: FinalState) -> Result<String, AllocError> {
    let id = id_text(alloc, id)?;
    let word = state_word(state);
    Ok(format!(in alloc; "event=final id={id} state={word}")?)
}

// Who has the seats that others wait for.
fn seats_text(alloc: Global, names: &AccountNames, seated: &Seated) -> Result<String, AllocError> {
    let Seated {
        applications,
        links,
        most,
    } = *seated;
    let text = format!(in alloc; "event=seats_full sessions={applications} links={links}")?;
    match most {
        Some((account, count)) => {
            let name = account_name(alloc, names, account)?;
            Ok(format!(in alloc; "{text} most={name} most_sessions={count}")?)
        }
        None => Ok(text),
    }
}

fn endpoint_text(
    alloc: Global,
    names: &AccountNames,
    seat: usize,
    peer: SocketAddr,
    note: &Note,
) -> Result<String, AllocError> {
    let text = note_text(alloc, names, note)?;
    Ok(format!(in alloc; "{text} seat={seat} peer={peer}")?)
}

fn at_level(
    level: &'static str,
    text: Result<String, AllocError>,
) -> Result<Option<Line>, AllocError> {
    let text = text?;
    Ok(Some(Line { level, text }))
}

/// The line of an event; none of a connection that never said who it is, and of a refused submit_sm, which are counted.
pub fn line_of(
    alloc: Global,
    names: &AccountNames,
    event: &Event,
) -> Result<Option<Line>, AllocError> {
    match event {
        Event::Endpoint(seat, peer, note) => at_level(
            note_level(note),
            endpoint_text(alloc, names, *seat, *peer, note),
        ),
        Event::Unknown(_, _, _) | Event::SubmitRefused(_, _) => Ok(None),
        Event::SeatsFull(seated) => at_level("warn", seats_text(alloc, names, seated)),
        Event::NotAccepted => at_level(
            "warn",
            plain(alloc, "event=not_accepted reason=no_file_for_a_connection"),
        ),
        Event::Reopened => at_level(
            "error",
            plain(alloc, "event=store_refused action=read_again"),
        ),
        Event::Failed => at_level("error", plain(alloc, "event=store_refused action=end")),
        Event::Accepted(id, handset) => at_level("info", accepted_text(alloc, *id, handset)),
        Event::Final(id, state) => at_level("info", final_text(alloc, *id, *state)),
    }
}
