//! Tests of one end of a link, with what its transactions carry, over its public calls.

#[cfg(test)]
mod link;
