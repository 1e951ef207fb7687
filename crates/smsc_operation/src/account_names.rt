//! The names of a run's accounts.
use std::alloc::{AllocError, Global};
use std::sync::OnceLock;

/// The names of accounts, by their places. Further ones may come behind them as a run goes on. Whoever reads a name waits for nobody.
#[derive(Drop)]
pub struct AccountNames {
    places: Vec<OnceLock<String>>,
}

fn own(alloc: Global, text: &str) -> Result<String, AllocError> {
    let mut copy = String::new(alloc);
    copy.push_str(text)?;
    Ok(copy)
}

impl AccountNames {
    /// These names, and places for others up to so many.
    pub fn new(alloc: Global, names: Vec<String>, most: usize) -> Result<AccountNames, AllocError> {
        let mut places = Vec::with_capacity(alloc, most)?;
        for _ in 0..most {
            places.push(OnceLock::new())?;
        }
        let all = AccountNames { places };
        for (place, name) in names.into_iter().enumerate() {
            all.put(place, name);
        }
        Ok(all)
    }

    /// The account at that place has this name from now on, where it had none.
    pub fn put(&self, place: usize, name: String) {
        if let Some(own) = self.places.get(place) {
            let _ = own.try_set(name);
        }
    }

    /// The name of the account at that place, if it has one.
    pub fn at(&self, place: usize) -> Option<&str> {
        match self.places.get(place)?.get() {
            Some(name) => Some(name.as_str()),
            None => None,
        }
    }

    /// All names, by their places.
    pub fn all(&self, alloc: Global) -> Result<Vec<String>, AllocError> {
        let mut names = Vec::new(alloc);
        for place in 0..self.places.len() {
            let Some(name) = self.at(place) else {
                return Ok(names);
            };
            names.push(own(alloc, name)?)?;
        }
        Ok(names)
    }
}
