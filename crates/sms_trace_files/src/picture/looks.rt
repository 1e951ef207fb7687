//! How a picture looks: what its classes and signs mean to who shows it.
ghost use Rattle.std.specs.Prelude.{◌≡◌, ◌++◌, OnOk};
ghost use Rattle.sms_trace_files.specs.picture.Looks.{looks, markers, signs, style};

use sms_base::Octets;
use std::alloc::AllocError;

// The colours and strokes of each class.
#[tactic(auto, unfolding(crate::specs::picture::Looks::style))]
fn put_style(out: &mut Octets) -> Result<(), AllocError>
    ensures { OnOk result (out.new ≡ out.old ++ style) }
{
    out.append(
        b"<style>\n\
    line { stroke: #1f5fa8; stroke-width: 1.5 }\n\
    .lane { stroke: #b8b8b8; stroke-width: 1 }\n\
    .arrow { marker-end: url(#arrow) }\n\
    .again { stroke: #c2500a; marker-end: url(#again) }\n\
    .lost { stroke-dasharray: 6 4; marker-end: none }\n\
    text { font: 12px monospace; fill: #202020 }\n\
    .name { font-weight: bold; text-anchor: middle; paint-order: stroke; stroke: #fff; stroke-width: 6px }\n\
    </style>\n",
    )
}

// The ends of arrows.
#[tactic(auto, unfolding(crate::specs::picture::Looks::markers))]
fn put_markers(out: &mut Octets) -> Result<(), AllocError>
    ensures { OnOk result (out.new ≡ out.old ++ markers) }
{
    out.append(
        b"<defs>\n\
    <marker id=\"arrow\" viewBox=\"0 0 10 10\" refX=\"10\" refY=\"5\" markerWidth=\"6\" markerHeight=\"6\" orient=\"auto\"><path d=\"M0 0L10 5L0 10z\" fill=\"#1f5fa8\"/></marker>\n\
    <marker id=\"again\" viewBox=\"0 0 10 10\" refX=\"10\" refY=\"5\" markerWidth=\"6\" markerHeight=\"6\" orient=\"auto\"><path d=\"M0 0L10 5L0 10z\" fill=\"#c2500a\"/></marker>\n",
    )
}

// The signs, and the ground.
#[tactic(auto, unfolding(crate::specs::picture::Looks::signs))]
fn put_signs(out: &mut Octets) -> Result<(), AllocError>
    ensures { OnOk result (out.new ≡ out.old ++ signs) }
{
    out.append(
        b"<circle id=\"dot\" r=\"2.5\" fill=\"#1f5fa8\"/>\n\
    <path id=\"cross\" d=\"M-4 -4L4 4M4 -4L-4 4\" stroke=\"#b00020\" stroke-width=\"2\"/>\n\
    <circle id=\"tick\" r=\"6\" fill=\"#fff\" stroke=\"#202020\"/>\n\
    <rect id=\"act\" x=\"-5\" y=\"-5\" width=\"10\" height=\"10\" fill=\"#202020\"/>\n\
    <path id=\"restart\" d=\"M-6 -6L6 6M6 -6L-6 6\" stroke=\"#b00020\" stroke-width=\"3\"/>\n\
    </defs>\n\
    <rect width=\"100%\" height=\"100%\" fill=\"#fff\"/>\n",
    )
}

/// The fixed part of each picture.
#[tactic(auto, unfolding(crate::specs::picture::Looks::looks))]
pub(crate) fn put_looks(out: &mut Octets) -> Result<(), AllocError>
    ensures { OnOk result (out.new ≡ out.old ++ looks) }
{
    put_style(out)?;
    put_markers(out)?;
    put_signs(out)
}
