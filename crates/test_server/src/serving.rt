//! Tests of endpoints on wires that fail. A wire replaces a socket: it refuses its calls from the k-th on, takes no
//! octets, or gives none.
//!
//! Beside the endpoint whose wire fails another one is at a second seat, and a keeper runs the jobs of both. Whatever call
//! fails, a session that was bound is unbound once, and a link that was up is down once. The other session has all its
//! answers. So has each where the machine refuses from one of its groups on and can't be opened again. A full queue loses
//! no job, and a connection at a used seat gets nothing of the one before. A ring of a seat's bell is noticed, whether its
//! thread waits by then or not.
//! The clock of a run goes on from the time of day, or from the newest moment of the rows. A list of accounts takes the place of another only
//! where it begins with its names.

#[cfg(test)]
mod account_books;
#[cfg(test)]
mod answering;
#[cfg(test)]
mod failing;
#[cfg(test)]
mod leaving;
#[cfg(test)]
mod refusing;
#[cfg(test)]
mod ringing;
#[cfg(test)]
mod run_clock;
#[cfg(test)]
mod sharing;
#[cfg(test)]
mod table;
#[cfg(test)]
mod wire;
