//! How many messages are in each state.
ghost use Rattle.std.specs.Prelude.{◌≡◌, ◌++◌, OnOk};
ghost use Rattle.smsc_cli.specs.centre_table.CentreTable.{counted, is_state as is_state_of, place_of as place_of_state, total_line, totals};

use crate::centre_table::messages::state_word;
use crate::columns::put_cell;
use sms_base::{FinalState, Octets, put_decimal};
use sms_centre_rows::messages::MessageRow;
use std::alloc::AllocError;

fn place_of(state: Option<FinalState>) -> u8
    ensures { result ≡ place_of_state state }
{
    match state {
        None => 0,
        Some(FinalState::Delivered) => 1,
        Some(FinalState::Expired) => 2,
        Some(FinalState::Deleted) => 3,
        Some(FinalState::Undeliverable) => 4,
    }
}

fn is_state(state: Option<FinalState>, other: Option<FinalState>) -> bool
    ensures { result ≡ is_state_of state other }
{
    place_of(state) == place_of(other)
}

fn count(messages: &[MessageRow], state: Option<FinalState>) -> usize
    ensures { result ≡ counted state 0 messages.now }
{
    let mut count = 0;
    for message in messages {
        if is_state(state, message.state) {
            count += 1;
        }
    }
    count
}

fn put_total(
    out: &mut Octets,
    messages: &[MessageRow],
    state: Option<FinalState>,
) -> Result<(), AllocError>
    ensures { OnOk result (out.new ≡ out.old ++ total_line messages.now state) }
{
    put_cell(out, 8, state_word(state).as_bytes())?;
    put_decimal(out, count(messages, state) as u64)?;
    out.append(b"\n")
}

/// A line for each state.
pub(crate) fn put_totals(out: &mut Octets, messages: &[MessageRow]) -> Result<(), AllocError>
    ensures { OnOk result (out.new ≡ out.old ++ totals messages.now) }
{
    put_total(out, messages, None)?;
    put_total(out, messages, Some(FinalState::Delivered))?;
    put_total(out, messages, Some(FinalState::Expired))?;
    put_total(out, messages, Some(FinalState::Deleted))?;
    put_total(out, messages, Some(FinalState::Undeliverable))
}
