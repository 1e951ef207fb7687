//! Laws: walks over all handsets and messages are walks over those that are found.
//!
//! A centre's definition walks over all handsets to offer, to fire timers and to bring links up after a recovery. It
//! walks over all messages and reports as time passes. The memory finds few of them beforehand. `laws` says
//! that the walk over those few is the definition's, also where a step changes what later steps see. This module has no
//! code.

pub mod laws;
