//! The status page, its metrics and its JSON, and the access log, of figures that a test gives, and what is pending.
#[cfg(test)]
mod access;
#[cfg(test)]
mod accounts;
#[cfg(test)]
mod figures;
#[cfg(test)]
mod pending;
#[cfg(test)]
mod requests;
#[cfg(test)]
mod texts;
