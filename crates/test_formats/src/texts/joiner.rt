//! Parts that are joined one after the other.
use crate::rows::{are, failed_at};
use crate::texts::concat::letters;
use sms_alphabet::Coding;
use sms_base::Octets;
use sms_concat::joiner::{AddError, Joiner};
use sms_concat::{ConcatKey, ConcatReference, Content, Part, join, split};
use std::alloc::{AllocError, Global};
use std::test::Fail;

fn key(total: u8, number: u8) -> ConcatKey {
    ConcatKey {
        reference: ConcatReference::SixteenBit(0x0102),
        total,
        number,
    }
}

// A part of one septet, its number.
fn part(alloc: Global, total: u8, number: u8) -> Result<Part, AllocError> {
    let units = Octets::copy_of(alloc, &[number])?;
    Ok(Part {
        content: Content {
            coding: Coding::Octets,
            dcs: 0x04,
            units,
        },
        key: Some(key(total, number)),
    })
}

fn takes(joiner: &mut Joiner, alloc: Global, total: u8, number: u8) -> bool {
    match part(alloc, total, number) {
        Ok(part) => joiner.add(part).is_ok(),
        Err(_) => false,
    }
}

// How many of the parts with these numbers are taken.
fn taken(joiner: &mut Joiner, alloc: Global, total: u8, numbers: &[u8]) -> usize {
    let before = joiner.parts().len();
    for number in numbers {
        let _is_taken = takes(joiner, alloc, total, *number);
    }
    joiner.parts().len().saturating_sub(before)
}

fn takes_most(joiner: &mut Joiner, alloc: Global) -> bool {
    for number in 0..255_u8 {
        if !takes(joiner, alloc, 255, 255 - number) {
            return false;
        }
    }
    true
}

fn takes_other(joiner: &mut Joiner, alloc: Global) -> bool {
    match part(alloc, 2, 2) {
        Ok(mut other) => {
            other.content.dcs = 0x08;
            joiner.add(other).is_ok()
        }
        Err(_) => false,
    }
}

fn is_handed_back(added: Result<(), AddError>, number: u8) -> bool {
    match added {
        Ok(()) => false,
        Err(refusal) => {
            refusal.code() == "C3" && refusal.into_part().key == Some(key(3, number))
        }
    }
}

fn hands_back(joiner: &mut Joiner, alloc: Global, number: u8) -> bool {
    match part(alloc, 3, number) {
        Ok(part) => is_handed_back(joiner.add(part), number),
        Err(_) => false,
    }
}

fn parts_of_text(alloc: Global, length: usize) -> Option<Vec<Part>> {
    let content = letters(alloc, Coding::Septets, 0, length).ok()?;
    let parts = split(alloc, &content, 0x0102).ok()?;
    Some(parts.into_vec())
}

fn takes_all(joiner: &mut Joiner, parts: Vec<Part>) -> bool {
    for part in parts {
        if joiner.add(part).is_err() {
            return false;
        }
    }
    true
}

fn takes_text(joiner: &mut Joiner, alloc: Global, length: usize) -> bool {
    match parts_of_text(alloc, length) {
        Some(parts) => takes_all(joiner, parts),
        None => false,
    }
}

// Whether the joiner joins to these units, or to nothing.
fn joins(joiner: &Joiner, alloc: Global, units: Option<&[u8]>) -> bool {
    match joiner.finish(alloc) {
        Ok(Some(content)) => match units {
            Some(units) => are(content.units.as_slice(), units),
            None => false,
        },
        Ok(None) => units.is_none(),
        Err(_) => false,
    }
}

// How many units a content has that was joined.
fn len_of(content: Result<Option<Content>, AllocError>) -> usize {
    match content {
        Ok(Some(content)) => content.units.len(),
        _ => 0,
    }
}

fn copy_joins_to(joiner: &Joiner, alloc: Global, len: usize) -> bool {
    match joiner.copy(alloc) {
        Ok(copy) => len_of(copy.finish(alloc)) == len,
        Err(_) => false,
    }
}

fn joins_to(joiner: &Joiner, alloc: Global, len: usize) -> bool {
    len_of(joiner.finish(alloc)) == len
        && len_of(join(alloc, joiner.parts())) == len
        && copy_joins_to(joiner, alloc, len)
}

fn is_copied(joiner: &mut Joiner, alloc: Global) -> bool {
    match joiner.copy(alloc) {
        Ok(copy) => taken(joiner, alloc, 3, &[1]) == 1 && copy.parts().is_empty(),
        Err(_) => false,
    }
}

// A step of a course of a joiner.
#[derive(Clone, Copy)]
enum Step {
    // Of the parts with these numbers of so many, so many are taken.
    Takes(u8, &'static [u8], usize),
    // Whether it is full, and what it joins to.
    Has(bool, Option<&'static [u8]>),
    // The part of three with that number is refused, and handed back.
    HandsBack(u8),
    // The second part of two is taken, with another data coding scheme than the first.
    TakesOther,
    // A copy stays without parts while the joiner takes the first of three.
    IsCopied,
    // The most parts that a key can have, the last first.
    TakesMost,
    // The parts of a text of so many letters.
    TakesText(usize),
    // It joins to so many units, a copy of it too, and its parts at once.
    JoinsTo(usize),
}

// A joiner for a key of so many parts: its steps.
const COURSES: &[(&str, u8, &[Step])] = &[
    (
        "parts join in whatever order they come",
        3,
        &[
            Step::Takes(3, &[3, 1], 2),
            Step::Has(false, None),
            Step::Takes(3, &[1, 3], 0),
            Step::Takes(4, &[2], 0),
            Step::Takes(3, &[2], 1),
            Step::Has(true, Some(&[1, 2, 3])),
            Step::HandsBack(1),
        ],
    ),
    (
        "a part of another scheme does not join",
        2,
        &[
            Step::TakesOther,
            Step::Takes(2, &[1], 1),
            Step::Has(true, None),
        ],
    ),
    ("a copy stays as it is", 3, &[Step::IsCopied]),
    (
        "the most parts that a key can have join",
        255,
        &[Step::TakesMost, Step::JoinsTo(255)],
    ),
    (
        "the longest parts join",
        20,
        &[Step::TakesText(3_040), Step::JoinsTo(3_040)],
    ),
];

fn goes(joiner: &mut Joiner, alloc: Global, step: &Step) -> bool {
    match step {
        Step::Takes(total, numbers, count) => taken(joiner, alloc, *total, numbers) == *count,
        Step::Has(is_full, units) => joiner.is_full() == *is_full && joins(joiner, alloc, *units),
        Step::HandsBack(number) => hands_back(joiner, alloc, *number),
        Step::TakesOther => takes_other(joiner, alloc),
        Step::IsCopied => is_copied(joiner, alloc),
        Step::TakesMost => takes_most(joiner, alloc),
        Step::TakesText(length) => takes_text(joiner, alloc, *length),
        Step::JoinsTo(len) => joins_to(joiner, alloc, *len),
    }
}

fn go(joiner: &mut Joiner, alloc: Global, name: &str, steps: &[Step]) -> Result<(), Fail> {
    for (at, step) in steps.iter().enumerate() {
        if !goes(joiner, alloc, step) {
            return Err(failed_at(name, at));
        }
    }
    Ok(())
}

fn plays(alloc: Global, name: &str, total: u8, steps: &[Step]) -> Result<(), Fail> {
    match Joiner::new(alloc, key(total, 1)) {
        Ok(mut joiner) => go(&mut joiner, alloc, name, steps),
        Err(_) => Err(Fail::new("no joiner")),
    }
}

#[test]
fn joiners_go_their_courses(rt: HostRuntime) -> Result<(), Fail> {
    for (name, total, steps) in COURSES {
        plays(rt.alloc(), name, *total, steps)?;
    }
    Ok(())
}
