//! An index beside a copy of it that changes on.
use crate::indexes::names::START;
use crate::rows::holds;
use sms_base::Moment;
use sms_rows::index::{Dated, Index};
use sms_rows::table::{Key, Row};
use std::alloc::Global;
use std::test::Fail;

#[derive(Clone, Copy)]
struct Visit {
    number: u32,
    moment: Moment,
}

impl Row for Visit {
    ghost key = { λ v. v.number };

    fn key(&self) -> Key {
        Key::of(u64::from(self.number))
    }
}

impl Dated for Visit {
    ghost moment = { λ v. v.moment };

    fn moment(&self) -> Moment {
        self.moment
    }
}

fn number_of(visit: Option<Visit>) -> u32 {
    match visit {
        Some(visit) => visit.number,
        None => 0,
    }
}

fn visit_of(number: u32, start: Moment, seconds: u32) -> Visit {
    Visit {
        number,
        moment: start.plus(u64::from(seconds)),
    }
}

// A thousand rows, the last first; row n has the moment n.
fn puts_thousand(index: &mut Index<Visit>, start: Moment) -> bool {
    for below in 0..1_000_u32 {
        let number = 1_000 - below;
        if index.put(visit_of(number, start, number)).is_err() {
            return false;
        }
    }
    true
}

// What is looked for from a number on, where 500 is the moment that it is.
#[derive(Clone, Copy)]
enum Look {
    Row(u64),
    Past(u64),
    Ahead(u64),
}

const LOOKS: &[(Look, u32, &str)] = &[
    (Look::Row(77), 77, "a row"),
    (Look::Past(10), 10, "the first row whose moment is come"),
    (
        Look::Ahead(10),
        501,
        "the first row whose moment is to come",
    ),
];

fn found(index: &Index<Visit>, now: Moment, look: &Look) -> u32 {
    match look {
        Look::Row(number) => number_of(index.find(Key::of(*number))),
        Look::Past(number) => number_of(index.first_past(Key::of(*number), now)),
        Look::Ahead(number) => number_of(index.first_ahead(Key::of(*number), now)),
    }
}

fn finds(index: &Index<Visit>, now: Moment) -> Result<(), Fail> {
    for (look, number, name) in LOOKS {
        holds(found(index, now, look) == *number, name)?;
    }
    Ok(())
}

// The copy loses row 77, and has no row 501 whose moment is to come.
fn changes(copy: &mut Index<Visit>, start: Moment) -> bool {
    copy.remove(Key::of(77)).is_ok()
        && copy
            .set(Key::of(501), Some(visit_of(501, start, 0)))
            .is_ok()
        && copy.set(Key::of(502), None).is_ok()
        && copy.find(Key::of(77)).is_none()
        && number_of(copy.first_ahead(Key::of(10), start.plus(500))) == 503
}

fn copy_goes_on(index: &Index<Visit>, start: Moment) -> bool {
    match index.share() {
        Ok(mut copy) => changes(&mut copy, start),
        Err(_) => false,
    }
}

fn goes_beside(index: &mut Index<Visit>, start: Moment) -> Result<(), Fail> {
    holds(puts_thousand(index, start), "a thousand rows")?;
    finds(index, start.plus(500))?;
    holds(copy_goes_on(index, start), "a copy")?;
    finds(index, start.plus(500))
}

fn empty(alloc: Global) -> Index<Visit> {
    Index::new(alloc)
}

#[test]
fn a_copy_of_an_index_goes_on_by_itself(rt: HostRuntime) -> Result<(), Fail> {
    let start = Moment::from_seconds(START)?;
    let mut index = empty(rt.alloc());
    goes_beside(&mut index, start)
}
