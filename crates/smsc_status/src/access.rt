//! The line of a message at its end.
ghost use Rattle.std.specs.Prelude.{◌≡◌, ◌++◌, IfOk, OnOk, option_map};
ghost use Rattle.sms_base.specs.FinalWords.{final_word};
ghost use Rattle.smsc_status.specs.Access.{access_text, cause_text, commit_text, course_text, last_cause_text, number_text, originator_text, parties_text};

use crate::pieces::{Piece, put_pieces};
use crate::words::put_word;
use sms_base::{FinalState, MessageId, Moment, Octets};
use std::alloc::{AllocError, Global};

/// What is said of a message at its end. What the message says is not among it.
#[derive(Clone, Copy)]
pub struct AccessLine<'a> {
    pub id: MessageId,
    /// The account of the application that submitted it; none where the handset of the source did.
    pub account: Option<&'a [u8]>,
    /// The digits or the name of its source address.
    pub source: &'a [u8],
    /// The digits of its destination.
    pub destination: &'a [u8],
    /// How many short messages it was.
    pub parts: u64,
    pub submitted: Moment,
    pub ended: Moment,
    pub state: FinalState,
    /// How often the part was tried in vain that was tried in vain most often.
    pub failed_attempts: u64,
    /// The last cause by which a handset refused a part (3GPP TS 24.011 8.2.5.4), if it refused one.
    pub last_cause: Option<u8>,
    /// How long the commit took that has its end, in millionths of a second.
    pub commit_micros: u64,
}

/// The word of a receipt for an end (SMPP v3.4 appendix B).
pub(crate) fn end_word(state: FinalState) -> &'static [u8]
    ensures { result.now ≡ final_word state }
{
    state.word().as_bytes()
}

#[tactic(auto, unfolding(crate::specs::Access::number_text))]
fn put_number(out: &mut Octets, id: MessageId) -> Result<(), AllocError>
    ensures { OnOk result (out.new ≡ out.old ++ number_text id) }
{
    // It is one to ten digits long.
    let _range = id.number();
    let digits = id.digits();
    put_pieces(
        out,
        &[Piece::Text(b"event=access id="), Piece::Text(&digits)],
    )
}

fn put_originator(out: &mut Octets, account: Option<&[u8]>, source: &[u8]) -> Result<(), AllocError>
    ensures { OnOk result (out.new ≡ out.old ++ originator_text (option_map (λ s. s.now) account.entry) source.now) }
{
    match account {
        Some(name) => {
            out.append(b" account=")?;
            put_word(out, name)
        }
        None => {
            out.append(b" handset=")?;
            put_word(out, source)
        }
    }
}

#[tactic(auto, unfolding(crate::specs::Access::parties_text))]
fn put_parties(out: &mut Octets, source: &[u8], destination: &[u8]) -> Result<(), AllocError>
    ensures { OnOk result (out.new ≡ out.old ++ parties_text source.now destination.now) }
{
    out.append(b" source=")?;
    put_word(out, source)?;
    out.append(b" destination=")?;
    put_word(out, destination)
}

#[tactic(auto, unfolding(crate::specs::Access::course_text))]
fn put_course(out: &mut Octets, line: &AccessLine<'_>) -> Result<(), AllocError>
    ensures { OnOk result (out.new ≡ out.old ++ course_text line.entry.now) }
{
    put_pieces(
        out,
        &[
            Piece::Text(b" parts="),
            Piece::Number(line.parts),
            Piece::Text(b" submitted="),
            Piece::Moment(line.submitted),
            Piece::Text(b" ended="),
            Piece::Moment(line.ended),
            Piece::Text(b" state="),
            Piece::Text(end_word(line.state)),
            Piece::Text(b" failed_attempts="),
            Piece::Number(line.failed_attempts),
        ],
    )
}

fn put_cause(out: &mut Octets, cause: u8) -> Result<(), AllocError>
    ensures { OnOk result (out.new ≡ out.old ++ cause_text cause) }
{
    put_pieces(
        out,
        &[Piece::Text(b" last_cause="), Piece::Number(cause as u64)],
    )
}

fn put_last_cause(out: &mut Octets, last_cause: Option<u8>) -> Result<(), AllocError>
    ensures { OnOk result (out.new ≡ out.old ++ last_cause_text last_cause) }
{
    match last_cause {
        Some(cause) => put_cause(out, cause),
        None => out.append(b""),
    }
}

#[tactic(auto, unfolding(crate::specs::Access::commit_text))]
fn put_commit(out: &mut Octets, micros: u64) -> Result<(), AllocError>
    ensures { OnOk result (out.new ≡ out.old ++ commit_text micros) }
{
    put_pieces(
        out,
        &[Piece::Text(b" commit_seconds="), Piece::Seconds(micros)],
    )
}

#[tactic(auto, unfolding(crate::specs::Access::access_text))]
fn put_line(out: &mut Octets, line: &AccessLine<'_>) -> Result<(), AllocError>
    ensures { OnOk result (out.new ≡ out.old ++ access_text line.entry.now (option_map (λ s. s.now) line.entry.now.account)
        line.entry.now.source.now line.entry.now.destination.now) }
{
    put_number(out, line.id)?;
    put_originator(out, line.account, line.source)?;
    put_parties(out, line.source, line.destination)?;
    put_course(out, line)?;
    put_last_cause(out, line.last_cause)?;
    put_commit(out, line.commit_micros)
}

/// The line of a message at its end, in logfmt.
pub fn access_line(alloc: Global, line: &AccessLine<'_>) -> Result<Octets, AllocError>
    ensures { IfOk result (λ text. text ≡ access_text line.entry.now (option_map (λ s. s.now) line.entry.now.account)
        line.entry.now.source.now line.entry.now.destination.now) }
{
    let mut out = Octets::with_capacity(alloc, 256)?;
    put_line(&mut out, line)?;
    Ok(out)
}
