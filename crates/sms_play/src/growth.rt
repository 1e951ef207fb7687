//! Laws: what an event keeps of a script's course.
//!
//! Nothing that was given or accepted is lost or moved, and parts stay with their TPDUs. Each part that an event gives
//! a reference is there. So the course after an event has all that the course before it had. This module has laws and
//! no code.

pub mod laws;
