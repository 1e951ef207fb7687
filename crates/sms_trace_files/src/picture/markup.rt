//! The elements of a picture as SVG (Scalable Vector Graphics 1.1), and text in them.
ghost use Rattle.std.specs.Prelude.{◌≡◌, ◌++◌, OnOk};
ghost use Rattle.sms_trace_files.specs.picture.Elements.{attribute, line_element, line_ends, place, sign_element, text_element, text_head};

use sms_base::markup::put_escaped;
use sms_base::{Octets, put_decimal};
use std::alloc::AllocError;

/// A place in a picture, in pixels from its left and upper edges.
#[derive(Clone, Copy)]
pub(crate) struct Point {
    pub x: u64,
    pub y: u64,
}

/// The attribute of that name with a number as its value.
#[tactic(auto, unfolding(crate::specs::picture::Elements::attribute))]
pub(crate) fn put_attribute(out: &mut Octets, name: &[u8], number: u64) -> Result<(), AllocError>
    ensures { OnOk result (out.new ≡ out.old ++ attribute name.now number) }
{
    out.append(b" ")?;
    out.append(name)?;
    out.append(b"=\"")?;
    put_decimal(out, number)?;
    out.append(b"\"")
}

#[tactic(auto, unfolding(crate::specs::picture::Elements::line_ends))]
fn put_line_ends(out: &mut Octets, from: Point, to: Point) -> Result<(), AllocError>
    ensures { OnOk result (out.new ≡ out.old ++ line_ends from to) }
{
    put_attribute(out, b"x1", from.x)?;
    put_attribute(out, b"y1", from.y)?;
    put_attribute(out, b"x2", to.x)?;
    put_attribute(out, b"y2", to.y)
}

/// A line of that class.
#[tactic(auto, unfolding(crate::specs::picture::Elements::line_element))]
pub(crate) fn put_line(
    out: &mut Octets,
    class: &[u8],
    from: Point,
    to: Point,
) -> Result<(), AllocError>
    ensures { OnOk result (out.new ≡ out.old ++ line_element class.now from to) }
{
    out.append(b"<line class=\"")?;
    out.append(class)?;
    out.append(b"\"")?;
    put_line_ends(out, from, to)?;
    out.append(b"/>\n")
}

// The attributes that put an element at a place.
#[tactic(auto, unfolding(crate::specs::picture::Elements::place))]
fn put_place(out: &mut Octets, at: Point) -> Result<(), AllocError>
    ensures { OnOk result (out.new ≡ out.old ++ place at) }
{
    put_attribute(out, b"x", at.x)?;
    put_attribute(out, b"y", at.y)
}

/// The sign of that name, its middle at a place.
#[tactic(auto, unfolding(crate::specs::picture::Elements::sign_element))]
pub(crate) fn put_sign(out: &mut Octets, name: &[u8], at: Point) -> Result<(), AllocError>
    ensures { OnOk result (out.new ≡ out.old ++ sign_element name.now at) }
{
    out.append(b"<use href=\"#")?;
    out.append(name)?;
    out.append(b"\"")?;
    put_place(out, at)?;
    out.append(b"/>\n")?;
    Ok(())
}

/// What precedes the text of an element.
#[tactic(auto, unfolding(crate::specs::picture::Elements::text_head))]
pub(crate) fn put_text_head(out: &mut Octets, class: &[u8], at: Point) -> Result<(), AllocError>
    ensures { OnOk result (out.new ≡ out.old ++ text_head class.now at) }
{
    out.append(b"<text class=\"")?;
    out.append(class)?;
    out.append(b"\"")?;
    put_place(out, at)?;
    out.append(b">")
}

/// A text of that class, at a place.
#[tactic(auto, unfolding(crate::specs::picture::Elements::text_element))]
pub(crate) fn put_text(
    out: &mut Octets,
    class: &[u8],
    at: Point,
    text: &[u8],
) -> Result<(), AllocError>
    ensures { OnOk result (out.new ≡ out.old ++ text_element class.now at text.now) }
{
    put_text_head(out, class, at)?;
    put_escaped(out, text)?;
    out.append(b"</text>\n")
}
