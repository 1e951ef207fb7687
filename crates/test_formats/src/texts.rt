//! Tests of texts, over their public calls: the alphabet, the header and parts of a long text, and joining them.

#[cfg(test)]
mod alphabet;
#[cfg(test)]
mod concat;
#[cfg(test)]
mod joiner;
#[cfg(test)]
mod other_implementations;
