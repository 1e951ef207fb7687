//! Whether a centre can start with rows: all conditions of `sms_centre_spec/specs/SoundRows.antt` together, over rows as tables.
//!
//! The tests of each condition are those of `sms_centre_rows::conditions` and `sms_centre_spec::conditions`.

mod tables;

pub use tables::RowTables;
