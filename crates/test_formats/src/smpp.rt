//! Tests of SMPP sessions over their public calls: what no clause says.

#[cfg(test)]
mod deliveries;
#[cfg(test)]
mod ends;
#[cfg(test)]
mod exchanges;
#[cfg(test)]
mod limits;
#[cfg(test)]
mod passwords;
#[cfg(test)]
mod secrets;
#[cfg(test)]
mod sessions;
