//! A line of a page: a figure over the last ten minutes, as SVG.
ghost use Rattle.std.specs.Prelude.{◌≡◌, ◌-◌, ◌++◌, OnOk, length};
ghost use Rattle.smsc_status.specs.Charts.{caption_text, chart_text, figure_end, figure_text, greatest_of, height, point_text, points_text};

use crate::pieces::{Piece, put_pieces};
use crate::series::SECONDS;
use sms_base::Octets;
use std::alloc::AllocError;

// The height of the line's greatest value, in units of the picture.
const HEIGHT: u64 = 96;

// The greatest of the values.
fn greatest(values: &[u64]) -> u64
    ensures { result ≡ greatest_of values.now }
{
    let mut greatest = 0u64;
    for value in values {
        greatest = greatest.max(*value);
    }
    greatest
}

// How far below the upper edge a value is.
fn height_of(value: u64, greatest: u64) -> u64
    ensures { result ≡ height value greatest }
{
    let part = u128::from(value.min(greatest)) * u128::from(HEIGHT) / u128::from(greatest.max(1));
    let part = part.min(u128::from(HEIGHT)) as u64;
    (HEIGHT + 2).saturating_sub(part)
}

#[tactic(auto, unfolding(crate::specs::Charts::point_text))]
fn put_point(out: &mut Octets, x: usize, y: u64) -> Result<(), AllocError>
    ensures { OnOk result (out.new ≡ out.old ++ point_text x y) }
{
    put_pieces(
        out,
        &[
            Piece::Number(x as u64),
            Piece::Text(b","),
            Piece::Number(y),
            Piece::Text(b" "),
        ],
    )
}

#[tactic(auto, using(crate::proofs::Elements::one_more_point))]
fn put_points(out: &mut Octets, values: &[u64], greatest: u64) -> Result<(), AllocError>
    ensures { OnOk result (out.new ≡ out.old ++ points_text (600 - length values.now) greatest values.now) }
{
    let first = SECONDS.saturating_sub(values.len());
    for i in 0..values.len() {
        put_point(out, first + i, height_of(values[i], greatest))?;
    }
    Ok(())
}

#[tactic(auto, unfolding(crate::specs::Charts::caption_text))]
fn put_caption(out: &mut Octets, title: &[u8], greatest: u64) -> Result<(), AllocError>
    ensures { OnOk result (out.new ≡ out.old ++ caption_text title.now greatest) }
{
    put_pieces(
        out,
        &[
            Piece::Text(b"<figure><figcaption>"),
            Piece::Text(title),
            Piece::Text(
                b" <span class=\"most\">a second</span></figcaption><div class=\"plot\"><div class=\"scale\"><span>",
            ),
            Piece::Number(greatest),
            Piece::Text(
                b"</span><span>0</span></div><svg viewBox=\"0 0 600 100\" preserveAspectRatio=\"none\" role=\"img\" aria-label=\"",
            ),
            Piece::Text(title),
            Piece::Text(b", at most "),
            Piece::Number(greatest),
            Piece::Text(
                b" a second\"><path d=\"M0 2.5H600M0 50.5H600M0 98.5H600\"/><polyline points=\"",
            ),
        ],
    )
}

#[tactic(auto, unfolding(crate::specs::Charts::figure_end))]
fn end_figure(out: &mut Octets) -> Result<(), AllocError>
    ensures { OnOk result (out.new ≡ out.old ++ figure_end) }
{
    out.append(
        b"\"/></svg></div><div class=\"times\"><span>10 minutes ago</span><span>5 minutes ago</span><span>now</span></div></figure>\n",
    )
}

#[tactic(auto, unfolding(crate::specs::Charts::figure_text))]
fn put_figure(
    out: &mut Octets,
    title: &[u8],
    greatest: u64,
    values: &[u64],
) -> Result<(), AllocError>
    ensures { OnOk result (out.new ≡ out.old ++ figure_text title.now greatest values.now) }
{
    put_caption(out, title, greatest)?;
    put_points(out, values, greatest)?;
    end_figure(out)
}

/// The line of values, a second each, of which the last is that of now.
pub(crate) fn put_chart(out: &mut Octets, title: &[u8], values: &[u64]) -> Result<(), AllocError>
    ensures { OnOk result (out.new ≡ out.old ++ chart_text title.now values.now) }
{
    put_figure(out, title, greatest(values), values)
}
