//! Pieces of a text, one behind another.
ghost use Rattle.std.specs.Prelude.{◌≡◌, ◌++◌, OnOk, flat_map};
ghost use Rattle.smsc_status.specs.Pieces.{piece_text};

use crate::commits::Quantile;
use crate::numbers::{put_millionths, put_moment, put_size};
use crate::quantiles::{put_limit, put_quantile};
use crate::quoting::put_string;
use sms_base::markup::put_escaped;
use sms_base::{Moment, Octets, put_decimal};
use std::alloc::AllocError;

/// A piece of a text.
#[derive(Clone, Copy)]
pub(crate) enum Piece<'a> {
    /// Octets of this program, as they are.
    Text(&'a [u8]),
    /// A text from outside, as character data of a page.
    Escaped(&'a [u8]),
    /// A text from outside, between quotation marks.
    Quoted(&'a [u8]),
    /// A number in decimal digits.
    Number(u64),
    /// A moment at UTC.
    Moment(Moment),
    /// So many millionths of a second, as seconds.
    Seconds(u64),
    /// So many octets.
    Size(u64),
    /// A quantile in JSON.
    Limit(Quantile),
    /// A quantile in a page.
    Quantile(Quantile),
}

/// One piece.
pub(crate) fn put_piece(out: &mut Octets, piece: &Piece<'_>) -> Result<(), AllocError>
    ensures { OnOk result (out.new ≡ out.old ++ piece_text piece.entry.now) }
{
    match piece {
        Piece::Text(text) => out.append(text),
        Piece::Escaped(text) => put_escaped(out, text),
        Piece::Quoted(text) => put_string(out, text),
        Piece::Number(number) => put_decimal(out, *number),
        Piece::Moment(moment) => put_moment(out, *moment),
        Piece::Seconds(micros) => put_millionths(out, *micros),
        Piece::Size(octets) => put_size(out, *octets),
        Piece::Limit(quantile) => put_limit(out, *quantile),
        Piece::Quantile(quantile) => put_quantile(out, *quantile),
    }
}

/// The pieces in their order.
pub(crate) fn put_pieces(out: &mut Octets, pieces: &[Piece<'_>]) -> Result<(), AllocError>
    ensures { OnOk result (out.new ≡ out.old ++ flat_map piece_text pieces.now) }
{
    for piece in pieces {
        put_piece(out, piece)?;
    }
    Ok(())
}
