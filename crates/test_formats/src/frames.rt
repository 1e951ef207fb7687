//! Tests of the two lower layers of a link, over their public calls. They have units of the relay layer, and frames
//! and transactions of the control layer.

#[cfg(test)]
mod control;
#[cfg(test)]
mod relay;
#[cfg(test)]
mod transactions;
