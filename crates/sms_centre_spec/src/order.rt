//! What an operator orders.

/// What an operator orders of a message, whoever sent it.
#[derive(Clone, Copy, PartialEq, Eq)]
pub enum Order {
    /// What waits of it is due now. It is answered with its state, as a query_sm is.
    Retry,
    /// The message is not delivered any more. It ends as deleted, and that is reported as any other end is.
    Delete,
}
