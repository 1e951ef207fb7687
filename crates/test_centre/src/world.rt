//! Tests of scripts and reports over their public calls.

#[cfg(test)]
mod report;
#[cfg(test)]
mod script;
