//! The names of the lanes of a ladder.
ghost use Rattle.std.specs.Prelude.{◌≡◌, ◌≤◌, ◌+◌, ◌++◌, OnOk, Option, length, max, replicate};
ghost use Rattle.sms_trace_files.specs.ladder.Names.{apart as apart_of, gap_behind as behind_of, name_text, names_text, shown_name as shown_of};

use crate::picture::columns::Columns;
use crate::picture::drawing::Lane;
use sms_base::Octets;
use std::alloc::AllocError;

// A longer name is cut behind so many octets.
const MOST: usize = 40;

#[tactic(auto, using(crate::proofs::Fronts::front))]
fn shown_name(name: &[u8]) -> &[u8]
    ensures { result.now ≡ shown_of name.now }
{
    &name[..MOST.min(name.len())]
}

#[tactic(auto, using(crate::proofs::Fronts::front_length))]
fn shown_len(name: &[u8]) -> u8
    ensures value { result ≡ length (shown_of name.now) }
    ensures short { result ≤ 40 }
{
    MOST.min(name.len()) as u8
}

// At least so many places, and so many that a space is behind the name.
fn wider(apart: u8, name: &[u8]) -> u8
    ensures { result ≡ max apart (length (shown_of name.now) + 1) }
{
    apart.max(shown_len(name) + 1)
}

/// How many places the lanes are apart.
pub(crate) fn apart(lanes: &[Lane]) -> u8
    ensures { result ≡ apart_of lanes.now }
{
    let mut apart = 20;
    for lane in lanes {
        apart = wider(apart, lane.name.as_slice());
    }
    apart
}

#[tactic(auto, using(crate::proofs::ladder::Spaces::one_more_space))]
fn put_spaces(out: &mut Octets, count: u8) -> Result<(), AllocError>
    ensures { OnOk result (out.new ≡ out.old ++ replicate count 32) }
{
    for _place in 0..count {
        out.push(b' ')?;
    }
    Ok(())
}

fn put_name(out: &mut Octets, gap: u8, name: &[u8], column: Option<u16>) -> Result<(), AllocError>
    ensures { OnOk result (out.new ≡ out.old ++ name_text gap name.now column) }
{
    if column.is_none() {
        return Ok(());
    }
    put_spaces(out, gap)?;
    out.append(shown_name(name))
}

// How many spaces are before the next name.
fn gap_behind(apart: u8, gap: u8, name: &[u8], column: Option<u16>) -> u8
    ensures { result ≡ behind_of apart gap name.now column }
{
    match column {
        Some(_) => apart.saturating_sub(shown_len(name)),
        None => gap,
    }
}

/// The names of the lanes that are drawn.
pub(crate) fn put_names(
    out: &mut Octets,
    columns: &Columns,
    apart: u8,
    lanes: &[Lane],
) -> Result<(), AllocError>
    ensures { OnOk result (out.new ≡ out.old ++ names_text columns.now.table.items apart 0 lanes.now) }
{
    let mut gap = 0;
    for lane in lanes {
        let column = columns.column(lane.place);
        put_name(out, gap, lane.name.as_slice(), column)?;
        gap = gap_behind(apart, gap, lane.name.as_slice(), column);
    }
    Ok(())
}
