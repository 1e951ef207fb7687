//! Tests of what the programs over links use: frames in a stream, owners' lines, words, tables, captures, ladders.

#[cfg(test)]
mod account_tables;
#[cfg(test)]
mod captures;
#[cfg(test)]
mod frames;
#[cfg(test)]
mod ladders;
#[cfg(test)]
mod owners;
#[cfg(test)]
mod secret_words;
#[cfg(test)]
mod server_words;
#[cfg(test)]
mod stuck;
#[cfg(test)]
mod words;
