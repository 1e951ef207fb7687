//! Whether a centre can start with a setup, and with the times and originators of rows. Laws of all tests of rows.
//!
//! `sms_centre_rows::conditions` has a test of each condition on rows. What concerns the setup is tested here. `laws` says that each
//! test holds exactly where the condition of `sms_centre_spec/specs/SoundRows.antt` does. `whole` has the tests of rows as tables, which
//! `sms_centre_recovery::soundness` puts together.
//!
//! | Module | What it has |
//! |---|---|
//! | `setup_and_times` | the tests of the setup, of moments and of originators |
//! | `laws` | that each test is the definition's condition |
//! | `whole` | the tests of rows as tables |

pub mod laws;
mod setup_and_times;
mod whole;

pub use setup_and_times::is_setup;
pub use whole::{
    allocations_are_sound, both, messages_are_sound, report_addresses_are_sound, reports_are_sound,
    splits_are_sound, times_are_sound, waiting_is_sound,
};
