//! The line of a message that is forgotten.
ghost use Rattle.std.specs.Prelude.{◌≡◌, ◌++◌, IfOk, OnOk};
ghost use Rattle.smsc_status.specs.Archive.{account_text, archive_text, course_text, end_text, number_text, originator_text, parties_text, reference_text, said_by};
ghost use Rattle.smsc_status.specs.Archive.{wish_word as wish_word_of};

use crate::access::end_word;
use crate::pieces::{Piece, put_pieces};
use crate::quoting::{put_name, put_string};
use sms_base::{FinalState, MessageId, Moment, Octets, Originator, Wish, put_decimal};
use std::alloc::{AllocError, Global};

/// What is said of a message that is forgotten. What the message says is not among it.
#[derive(Clone, Copy)]
pub struct ArchiveLine<'a> {
    pub id: MessageId,
    /// Who submitted it.
    pub originator: &'a Originator,
    /// The digits or the name of its source address.
    pub source: &'a [char],
    /// The digits of its destination.
    pub destination: &'a [char],
    pub submitted: Moment,
    pub ended: Moment,
    /// How many short messages it was.
    pub parts: u64,
    pub state: FinalState,
    /// When its originator wanted a report.
    pub wish: Wish,
}

fn wish_word(wish: Wish) -> &'static [u8]
    ensures { result.now ≡ wish_word_of wish }
{
    match wish {
        Wish::Nothing => b"never",
        Wish::Always => b"always",
        Wish::OnFailure => b"on_failure",
    }
}

#[tactic(auto, unfolding(crate::specs::Archive::number_text))]
fn put_number(out: &mut Octets, id: MessageId) -> Result<(), AllocError>
    ensures { OnOk result (out.new ≡ out.old ++ number_text id) }
{
    out.append(b"{\"id\":")?;
    put_decimal(out, id.number())
}

fn put_account(out: &mut Octets, name: &[u8]) -> Result<(), AllocError>
    ensures { OnOk result (out.new ≡ out.old ++ account_text name.now) }
{
    out.append(b",\"account\":")?;
    put_string(out, name)
}

fn put_reference(out: &mut Octets, reference: u8) -> Result<(), AllocError>
    ensures { OnOk result (out.new ≡ out.old ++ reference_text reference) }
{
    out.append(b",\"message_reference\":")?;
    put_decimal(out, reference as u64)
}

fn put_originator(out: &mut Octets, originator: &Originator) -> Result<(), AllocError>
    ensures { OnOk result (out.new ≡ out.old ++ originator_text originator.now) }
{
    match originator {
        Originator::Application { account } => put_account(out, account.as_slice()),
        Originator::Handset { message_reference } => put_reference(out, *message_reference),
    }
}

#[tactic(auto, unfolding(crate::specs::Archive::parties_text))]
fn put_parties(out: &mut Octets, source: &[char], destination: &[char]) -> Result<(), AllocError>
    ensures { OnOk result (out.new ≡ out.old ++ parties_text source.now destination.now) }
{
    out.append(b",\"source\":")?;
    put_name(out, source)?;
    out.append(b",\"destination\":")?;
    put_name(out, destination)
}

#[tactic(auto, unfolding(crate::specs::Archive::course_text))]
fn put_course(
    out: &mut Octets,
    submitted: Moment,
    ended: Moment,
    parts: u64,
) -> Result<(), AllocError>
    ensures { OnOk result (out.new ≡ out.old ++ course_text submitted ended parts) }
{
    put_pieces(
        out,
        &[
            Piece::Text(b",\"submitted\":\""),
            Piece::Moment(submitted),
            Piece::Text(b"\",\"ended\":\""),
            Piece::Moment(ended),
            Piece::Text(b"\",\"parts\":"),
            Piece::Number(parts),
            Piece::Text(b",\"state\":\""),
        ],
    )
}

#[tactic(auto, unfolding(crate::specs::Archive::end_text))]
fn put_end(out: &mut Octets, state: FinalState, wish: Wish) -> Result<(), AllocError>
    ensures { OnOk result (out.new ≡ out.old ++ end_text state wish) }
{
    put_pieces(
        out,
        &[
            Piece::Text(end_word(state)),
            Piece::Text(b"\",\"receipt\":\""),
            Piece::Text(wish_word(wish)),
            Piece::Text(b"\"}\n"),
        ],
    )
}

#[tactic(auto, unfolding(crate::specs::Archive::archive_text))]
fn put_line(out: &mut Octets, line: &ArchiveLine<'_>) -> Result<(), AllocError>
    ensures { OnOk result (out.new ≡ out.old ++ archive_text (said_by line.entry.now)) }
{
    put_number(out, line.id)?;
    put_originator(out, line.originator)?;
    put_parties(out, line.source, line.destination)?;
    put_course(out, line.submitted, line.ended, line.parts)?;
    put_end(out, line.state, line.wish)
}

/// The line of a message that is forgotten, in JSON.
pub fn archive_line(alloc: Global, line: &ArchiveLine<'_>) -> Result<Octets, AllocError>
    ensures { IfOk result (λ text. text ≡ archive_text (said_by line.entry.now)) }
{
    let mut out = Octets::with_capacity(alloc, 256)?;
    put_line(&mut out, line)?;
    Ok(out)
}
