//! A ladder as a whole.
ghost use Rattle.std.specs.Prelude.{◌≡◌, ◌++◌, OnOk};
ghost use Rattle.sms_trace_files.specs.ladder.Text.{ladder_drawn, ladder_in_columns};

use crate::ladder::lines::put_lines;
use crate::ladder::names::{apart, put_names};
use crate::picture::columns::Columns;
use crate::picture::drawing::Picture;
use sms_base::Octets;
use std::alloc::{AllocError, Global};

#[tactic(auto, unfolding(crate::specs::ladder::Text::ladder_in_columns))]
fn put_in_columns(
    out: &mut Octets,
    columns: &Columns,
    apart: u8,
    picture: &Picture,
) -> Result<(), AllocError>
    ensures { OnOk result (out.new ≡ out.old ++ ladder_in_columns columns.now.table.items apart columns.now.count picture.now) }
{
    put_names(out, columns, apart, picture.lanes.as_slice())?;
    out.append(b"\n")?;
    put_lines(out, columns, apart, picture.rows.as_slice())
}

/// The run as a ladder of text. It has the lanes and rows of the picture, with whole notes. A number of twenty digits is
/// shown whole.
pub fn put_ladder(alloc: Global, out: &mut Octets, picture: &Picture) -> Result<(), AllocError>
    ensures { OnOk result (out.new ≡ out.old ++ ladder_drawn picture.now) }
{
    let columns = Columns::of(alloc, picture.rows.as_slice(), picture.extent.lanes)?;
    put_in_columns(out, &columns, apart(picture.lanes.as_slice()), picture)
}
