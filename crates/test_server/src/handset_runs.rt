//! Tests of a run of a handset over octets in place of a socket, by a clock that moves, and over links and answers that fail at a call.

#[cfg(test)]
mod failing;
#[cfg(test)]
pub(crate) mod machine;
#[cfg(test)]
mod passing;
