//! Outs and the codes of faults.
use crate::hub::reply::Reply;
use crate::rows::holds;
use sms_hub::{HubFault, Out, Outs};
use std::alloc::Global;
use std::test::Fail;

const FIRST: Out<Reply> = Out {
    seat: 3,
    out: Reply::Sum(1),
};

const SECOND: Out<Reply> = Out {
    seat: 4,
    out: Reply::Sum(2),
};

fn is_from(outs: &Outs<Reply>, place: usize, seat: usize) -> bool {
    match outs.get(place) {
        Some(out) => out.seat == seat,
        None => false,
    }
}

fn are_two(outs: &Outs<Reply>) -> bool {
    outs.len() == 2 && is_from(outs, 0, 3) && is_from(outs, 1, 4) && outs.get(2).is_none()
}

fn reads_two(alloc: Global) -> bool {
    match vec![in alloc; FIRST, SECOND] {
        Ok(outs) => are_two(&Outs::from_vec(outs)),
        Err(_) => false,
    }
}

fn reads_none() -> bool {
    let none = Outs::<Reply>::none();
    none.is_empty() && none.get(0).is_none()
}

fn is_told(alloc: Global, fault: HubFault, code: &str, text: &str) -> bool {
    match format!(in alloc; "{fault}") {
        Ok(told) => fault.code() == code && told.as_str() == text,
        Err(_) => false,
    }
}

const FAULTS: &[(HubFault, &str, &str)] = &[
    (HubFault::NoThread, "B1", "no thread"),
    (HubFault::NoMemory, "B2", "out of memory"),
    (
        HubFault::MachineFailed,
        "B3",
        "the machine could not be opened again",
    ),
    (
        HubFault::TooManySessions,
        "B4",
        "no session, or more than 32",
    ),
];

#[test]
fn outs_are_read_and_faults_are_told(rt: HostRuntime) -> Result<(), Fail> {
    holds(reads_two(rt.alloc()), "two outs")?;
    holds(reads_none(), "no outs")?;
    for (fault, code, text) in FAULTS {
        holds(is_told(rt.alloc(), *fault, code, text), code)?;
    }
    Ok(())
}
