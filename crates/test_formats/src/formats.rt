//! Tests of values, rows and TPDUs, over their public calls: moments, addresses, tables, and whole TPDUs.

#[cfg(test)]
mod base;
#[cfg(test)]
mod rolling;
#[cfg(test)]
mod table;
#[cfg(test)]
mod tpdu;
