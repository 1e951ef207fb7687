//! Tests of PDUs, over their public calls: what no clause says. `smpp` reads and writes the longest one, which a session
//! takes too.

#[cfg(test)]
mod exchanges;
#[cfg(test)]
mod pdus;
#[cfg(test)]
mod secrets;
#[cfg(test)]
mod vectors;
