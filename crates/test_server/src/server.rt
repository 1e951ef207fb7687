//! Tests of the programs' runs over readers and writers, and of their words.

#[cfg(test)]
pub(crate) mod failing;
#[cfg(test)]
mod relay;
#[cfg(test)]
mod words;
