//! How long commits take.
ghost use Rattle.std.specs.Prelude.{◌≡◌, ◌<◌};
ghost use Rattle.smsc_status.specs.Commits.{IsPlace, IsQuantile, counted};

/// The limits of a commit's time, in millionths of a second. A last place is for all that took longer.
pub const LIMITS: [u64; 13] = [
    100, 200, 500, 1_000, 2_000, 5_000, 10_000, 20_000, 50_000, 100_000, 200_000, 500_000,
    1_000_000,
];

/// How many places there are.
pub const PLACES: usize = 14;

/// How long commits took.
#[derive(Clone, Copy)]
pub struct CommitFigures {
    /// How many took no longer than the limit of the place, and longer than that of the place before.
    pub counts: [u64; PLACES],
    /// What all of them took, in millionths of a second.
    pub micros: u64,
    /// How many the store refused.
    pub refused: u64,
}

/// The time that a part of all commits did not exceed.
#[derive(Clone, Copy, PartialEq, Eq)]
pub enum Quantile {
    /// There was no commit.
    Unknown,
    /// The commit took at most this limit, in millionths of a second.
    AtMost(u64),
    /// The commit took longer than the last limit.
    Above(u64),
}

/// The place of a time: the first whose limit is not exceeded.
pub fn place_of(micros: u64) -> usize
    ensures place { IsPlace micros result }
    ensures there { result < 14 }
{
    for place in 0..LIMITS.len() {
        if micros <= LIMITS[place] {
            return place;
        }
    }
    LIMITS.len()
}

impl CommitFigures {
    /// How many commits there were.
    pub fn count(&self) -> u64
        ensures { result ≡ counted self.now.counts }
    {
        let mut count = 0u64;
        for some in &self.counts {
            count = count.saturating_add(*some);
        }
        count
    }

    /// The time that so many of a hundred commits did not exceed.
    pub fn quantile(&self, of_hundred: u64) -> Quantile
        ensures { IsQuantile self.now.counts of_hundred result }
    {
        let all = self.count();
        if all == 0 {
            return Quantile::Unknown;
        }
        let wanted = u128::from(all) * u128::from(of_hundred);
        let mut so_far = 0u64;
        for place in 0..LIMITS.len() {
            so_far = so_far.saturating_add(self.counts[place]);
            if u128::from(so_far) * 100 >= wanted {
                return Quantile::AtMost(LIMITS[place]);
            }
        }
        Quantile::Above(1_000_000)
    }
}
