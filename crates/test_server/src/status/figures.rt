//! Figures: how long commits take, and how many messages there are.
use crate::rows::holds;
use smsc_status::{
    CommitFigures, MessageCounts, MessageFigures, Quantile, Sample, Series, place_of,
};
use std::alloc::Global;
use std::test::Fail;

// 98 commits of at most 0.2 ms, one of at most 1 ms and one of more than a second.
const COMMITS: CommitFigures = CommitFigures {
    counts: [0, 98, 0, 1, 0, 0, 0, 0, 0, 0, 0, 0, 0, 1],
    micros: 3_000_000,
    refused: 0,
};

// A time in millionths of a second, and the place of the first limit that it keeps.
const PLACES: &[(u64, usize, &str)] = &[
    (0, 0, "no time at all"),
    (100, 0, "the first limit"),
    (101, 1, "above it"),
    (200_000, 10, "a fifth of a second"),
    (1_000_000, 12, "a second"),
    (1_000_001, 13, "above a second"),
];

const QUANTILES: &[(u64, Quantile, &str)] = &[
    (50, Quantile::AtMost(200), "median"),
    (98, Quantile::AtMost(200), "98 of 100"),
    (99, Quantile::AtMost(1_000), "99 of 100"),
    (100, Quantile::Above(1_000_000), "all of them"),
];

const NO_COMMITS: CommitFigures = CommitFigures {
    counts: [0; 14],
    micros: 0,
    refused: 0,
};

// What there was at the start, what a run counted, and what there is now.
const START: MessageFigures = MessageFigures {
    enroute: 2,
    delivered: 10,
    expired: 0,
    deleted: 1,
    undeliverable: 0,
};

const COUNTS: MessageCounts = MessageCounts {
    accepted: 5,
    delivered: 3,
    expired: 1,
    deleted: 0,
    undeliverable: 1,
};

const NOW: MessageFigures = MessageFigures {
    enroute: 2,
    delivered: 13,
    expired: 1,
    deleted: 1,
    undeliverable: 1,
};

#[test]
fn figures_are_places_limits_and_sums() -> Result<(), Fail> {
    for (micros, place, name) in PLACES {
        holds(place_of(*micros) == *place, name)?;
    }
    for (percent, wanted, name) in QUANTILES {
        holds(COMMITS.quantile(*percent) == *wanted, name)?;
    }
    holds(COMMITS.count() == 100, "commits")?;
    holds(NO_COMMITS.quantile(50) == Quantile::Unknown, "no commit")?;
    holds(START.with(&COUNTS) == NOW, "messages")
}

fn counts(accepted: u64, delivered: u64) -> MessageCounts {
    MessageCounts {
        accepted,
        delivered,
        expired: 0,
        deleted: 0,
        undeliverable: 0,
    }
}

fn is_sample(sample: &Sample, submissions: u64, deliveries: u64, commits: u64) -> bool {
    sample.submissions == submissions
        && sample.deliveries == deliveries
        && sample.commits == commits
}

fn are_two_seconds(samples: &[Sample]) -> bool {
    match samples {
        [first, second] => is_sample(first, 3, 1, 4) && is_sample(second, 0, 2, 2),
        _ => false,
    }
}

// Two seconds, in the second of which no message was accepted.
fn two_pass(series: &mut Series) {
    series.end_second(&counts(3, 1), 4);
    series.end_second(&counts(3, 3), 6);
}

fn has_two_seconds(series: &Series, alloc: Global) -> bool {
    match series.samples(alloc) {
        Ok(samples) => are_two_seconds(samples.as_slice()),
        Err(_) => false,
    }
}

fn has_ten_minutes(series: &Series, alloc: Global) -> bool {
    match series.samples(alloc) {
        Ok(samples) => samples.len() == 600,
        Err(_) => false,
    }
}

fn seconds_pass(series: &mut Series, alloc: Global) -> Result<(), Fail> {
    two_pass(series);
    holds(has_two_seconds(series, alloc), "two seconds")?;
    for second in 0..700u64 {
        series.end_second(&counts(3 + second, 3), 6);
    }
    holds(has_ten_minutes(series, alloc), "ten minutes")
}

#[test]
fn a_second_has_what_was_counted_in_it(rt: HostRuntime) -> Result<(), Fail> {
    let mut series = Series::new(rt.alloc())?;
    seconds_pass(&mut series, rt.alloc())
}
