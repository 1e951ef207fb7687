//! What sessions and links ask of the centre through the hub, and the replies that they get.
//!
//! The seat of a session or a link puts a `Job` and gets a `Reply`. A job names neither its seat nor its session: the
//! hub adds the number of the seat, which is the session's number at the centre.

mod job;
mod reply;

pub use job::Job;
pub use reply::Reply;
