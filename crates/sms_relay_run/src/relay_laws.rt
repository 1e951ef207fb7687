//! What a centre without rows sends for one unit of a handset.
//!
//! `specs/relay_laws/Relay.antt` says which units of the relay layer it sends, by the formats alone (3GPP TS 24.011
//! 7.3, 3GPP TS 23.040 9.2.2). `laws` says that the definition of a centre's events (`sms_centre_spec`) sends exactly
//! those. The unit arrives in CP-DATA on the sender's link, and the frames that leave are CP-ACK and those units in
//! CP-DATA. `setup_for`, `handsets_for` and `frame_for` make that centre and that frame. `units_in` takes the sent
//! frames apart, and `relay_uncarried` answers what CP-DATA can't carry.

pub mod laws;
mod refusal;
mod relayed;
mod sent;
mod setting;
mod uncarried;

pub use relayed::Relayed;
pub use sent::units_in;
pub use setting::{LONGEST_UNIT, destination_of, frame_for, handsets_for, setup_for};
pub use uncarried::{nothing, relay_uncarried};
