//! Links of handsets: their first frame, frames there and back, and how they end.
use crate::seats::turns::{Act, ExpectedReply, Noted, Refinement, Request, Turn, link_plays};
use sms_base::{Listed, Octets};
use smsc_endpoint::{LinkAccess, LinkSecret};
use std::alloc::{AllocError, Global};
use std::test::Fail;

// The number 447700900456 behind its length, then CP-ACK.
const NAMED: [u8; 18] = [
    0x00, 0x0C, 0x34, 0x34, 0x37, 0x37, 0x30, 0x30, 0x39, 0x30, 0x30, 0x34, 0x35, 0x36, 0x00, 0x02,
    0x89, 0x04,
];

// CP-ERROR behind its length with the cause "protocol error, unspecified", and with "congestion" (3GPP TS 24.011 7.2.3, 8.1.4.2).
const REFUSED: [u8; 5] = [0x00, 0x03, 0x09, 0x10, 0x6F];

const FULL: [u8; 5] = [0x00, 0x03, 0x09, 0x10, 0x16];

// Frames go up once the keeper has said that the link is up.
const BRINGS_FRAMES: &[Turn] = &[
    Turn::Does(Act::Comes(&NAMED)),
    Turn::Shows(Refinement::IsKnown(false)),
    Turn::Shows(Refinement::Asks(Request::LinkUp)),
    Turn::Shows(Refinement::Asks(Request::Mark)),
    Turn::Shows(Refinement::AsksNoMore),
    Turn::Shows(Refinement::IsFull(true)),
    Turn::Shows(Refinement::Awaits(1)),
    Turn::Does(Act::Hears(ExpectedReply::Failed)),
    Turn::Shows(Refinement::Notes(Noted::LinkUp)),
    Turn::Shows(Refinement::IsKnown(true)),
    Turn::Shows(Refinement::IsFull(false)),
    Turn::Shows(Refinement::Asks(Request::Frame(&[0x89, 0x04]))),
    Turn::Shows(Refinement::AsksNothing),
];

// CP-ACK behind its length.
const ACK: [u8; 4] = [0x00, 0x02, 0x89, 0x04];

const FRAME: Turn = Turn::Does(Act::Comes(&ACK));

const GOES_UP: Turn = Turn::Shows(Refinement::Asks(Request::Frame(&[0x89, 0x04])));

// After the link is up: seven frames and what has an answer are with the keeper, and the eighth frame waits for it. The first frame
// is that behind the number.
const HAS_EIGHT: &[Turn] = &[
    Turn::Does(Act::Comes(&NAMED)),
    Turn::Shows(Refinement::Asks(Request::LinkUp)),
    Turn::Shows(Refinement::Asks(Request::Mark)),
    Turn::Does(Act::Hears(ExpectedReply::Failed)),
    FRAME,
    FRAME,
    FRAME,
    FRAME,
    FRAME,
    FRAME,
    FRAME,
    GOES_UP,
    GOES_UP,
    GOES_UP,
    GOES_UP,
    GOES_UP,
    GOES_UP,
    GOES_UP,
    Turn::Shows(Refinement::Asks(Request::Mark)),
    Turn::Shows(Refinement::IsFull(true)),
    Turn::Shows(Refinement::AsksNoMore),
    Turn::Does(Act::Hears(ExpectedReply::Failed)),
    Turn::Shows(Refinement::IsFull(false)),
    GOES_UP,
    Turn::Shows(Refinement::AsksNothing),
];

const IS_SENT_FRAMES: &[Turn] = &[
    Turn::Does(Act::Comes(&NAMED)),
    Turn::Does(Act::Hears(ExpectedReply::Frame(&[0x09, 0x04]))),
    Turn::Shows(Refinement::Sends(&[0x00, 0x02, 0x09, 0x04])),
    Turn::Does(Act::Sent(3)),
    Turn::Shows(Refinement::Sends(&[0x04])),
];

const GOES_DOWN: &[Turn] = &[
    Turn::Does(Act::Comes(&NAMED)),
    Turn::Shows(Refinement::ClosesWith(Request::LinkDown)),
    Turn::Shows(Refinement::Closes),
    Turn::Shows(Refinement::IsOver),
];

const HAS_NO_NUMBER: &[Turn] = &[
    Turn::Does(Act::Comes(&[0x00, 0x02, 0x34, 0x41])),
    Turn::Shows(Refinement::Sends(&REFUSED)),
    Turn::Shows(Refinement::Notes(Noted::NoNumber)),
    Turn::Shows(Refinement::IsOver),
    Turn::Shows(Refinement::AsksNothing),
    Turn::Shows(Refinement::Closes),
];

const HAS_NO_FRAMES: &[Turn] = &[
    Turn::Does(Act::Comes(&[0xFF, 0xFF])),
    Turn::Shows(Refinement::Sends(&REFUSED)),
    Turn::Shows(Refinement::Notes(Noted::NoFrames)),
    Turn::Shows(Refinement::IsOver),
];

// It is named again a little later, and is up once the other link has ended.
const IS_SECOND: &[Turn] = &[
    Turn::Does(Act::IsAt(1000)),
    Turn::Does(Act::Comes(&NAMED)),
    Turn::Shows(Refinement::Asks(Request::LinkUp)),
    Turn::Shows(Refinement::Asks(Request::Mark)),
    Turn::Does(Act::Hears(ExpectedReply::Taken)),
    Turn::Shows(Refinement::Notes(Noted::Taken)),
    Turn::Does(Act::Hears(ExpectedReply::Failed)),
    Turn::Shows(Refinement::AsksNothing),
    Turn::Shows(Refinement::IsFull(true)),
    Turn::Does(Act::IsAt(1049)),
    Turn::Shows(Refinement::AsksNothing),
    Turn::Does(Act::IsAt(1050)),
    Turn::Shows(Refinement::Asks(Request::LinkUp)),
    Turn::Shows(Refinement::Asks(Request::Mark)),
    Turn::Does(Act::Hears(ExpectedReply::Failed)),
    Turn::Shows(Refinement::Notes(Noted::LinkUp)),
    Turn::Shows(Refinement::Asks(Request::Frame(&[0x89, 0x04]))),
];

const STAYS_SECOND: &[Turn] = &[
    Turn::Does(Act::Comes(&NAMED)),
    Turn::Shows(Refinement::Asks(Request::LinkUp)),
    Turn::Shows(Refinement::Asks(Request::Mark)),
    Turn::Does(Act::Hears(ExpectedReply::Taken)),
    Turn::Does(Act::Hears(ExpectedReply::Failed)),
    Turn::Shows(Refinement::Closes),
    Turn::Shows(Refinement::IsOver),
];

// That it comes up is put again.
const IS_PUT_AGAIN: &[Turn] = &[
    Turn::Does(Act::Comes(&NAMED)),
    Turn::Does(Act::HandsBack),
    Turn::Shows(Refinement::Asks(Request::LinkUp)),
    Turn::Does(Act::HandsBack),
    Turn::Shows(Refinement::Asks(Request::Mark)),
    Turn::Does(Act::Hears(ExpectedReply::Failed)),
    Turn::Does(Act::HandsBack),
    Turn::Shows(Refinement::AsksNothing),
];

const IS_GIVEN_UP: &[Turn] = &[
    Turn::Does(Act::GivesUp),
    Turn::Shows(Refinement::Sends(&FULL)),
];

// Where numbers have no secrets, a space is no digit.
const HAS_SPACE: &[Turn] = &[
    Turn::Does(Act::Comes(b"\x00\x16447700900456 Pa55word!")),
    Turn::Shows(Refinement::Sends(&REFUSED)),
    Turn::Shows(Refinement::Notes(Noted::NoNumber)),
    Turn::Shows(Refinement::IsOver),
    Turn::Shows(Refinement::AsksNothing),
];

// A course of a link: its name, its turns, and the least number of octets that come at once; 18 come at most.
const COURSES: &[(&str, &[Turn], usize)] = &[
    ("a link is named and brings frames", BRINGS_FRAMES, 1),
    ("frames go behind their lengths", IS_SENT_FRAMES, 18),
    ("a link goes down once", GOES_DOWN, 18),
    ("a first frame is a number", HAS_NO_NUMBER, 18),
    ("a first frame has no secret", HAS_SPACE, 18),
    ("a length that no frame has ends a link", HAS_NO_FRAMES, 18),
    ("a newer link waits for the older one to end", IS_SECOND, 18),
    ("a link that is not up does not go down", STAYS_SECOND, 18),
    ("eight jobs of a link are with the keeper", HAS_EIGHT, 18),
    (
        "that a link is up is put again and a frame is lost",
        IS_PUT_AGAIN,
        18,
    ),
    (
        "who names no handset is told that there is no room",
        IS_GIVEN_UP,
        18,
    ),
];

#[test]
fn courses_of_links_are_as_told(rt: HostRuntime) -> Result<(), Fail> {
    for (name, turns, least) in COURSES {
        for size in *least..19 {
            link_plays(rt.alloc(), LinkAccess::Anyone, size, name, turns)?;
        }
    }
    Ok(())
}

// ---- links with secrets

// The secrets of 447700900456 and 447700900457. Of equal numbers the first counts.
const SECRETS: &[(&[u8], &[u8])] = &[
    (b"447700900456", b"Pa55word!"),
    (b"447700900457", b"other"),
    (b"447700900456", b"later"),
];

fn access(alloc: Global) -> Result<LinkAccess, AllocError> {
    let mut secrets = Vec::new(alloc);
    for (number, secret) in SECRETS {
        secrets.push(LinkSecret {
            number: Octets::copy_of(alloc, number)?,
            secret: Octets::copy_of(alloc, secret)?,
        })?;
    }
    Ok(LinkAccess::Secrets(Listed::from_vec(secrets)))
}

// The number, a space and its secret behind their length, then CP-ACK.
const GIVES_ITS_SECRET: &[Turn] = &[
    Turn::Does(Act::Comes(b"\x00\x16447700900456 Pa55word!\x00\x02\x89\x04")),
    Turn::Shows(Refinement::IsKnown(false)),
    Turn::Shows(Refinement::Asks(Request::LinkUp)),
    Turn::Shows(Refinement::Asks(Request::Mark)),
    Turn::Does(Act::Hears(ExpectedReply::Failed)),
    Turn::Shows(Refinement::Notes(Noted::LinkUp)),
    Turn::Shows(Refinement::IsKnown(true)),
    Turn::Shows(Refinement::Asks(Request::Frame(&[0x89, 0x04]))),
    Turn::Shows(Refinement::AsksNothing),
];

const NUMBER: &[char] = &['4', '4', '7', '7', '0', '0', '9', '0', '0', '4', '5', '6'];

const OTHER_NUMBER: &[char] = &['4', '4', '7', '7', '0', '0', '9', '0', '0', '4', '5', '8'];

// First frames behind their lengths, and what an operator is told of them.
const WRONG: &[(&[u8], Noted)] = &[
    (b"\x00\x0C447700900456", Noted::WrongSecret(NUMBER)),
    (b"\x00\x0D447700900456 ", Noted::WrongSecret(NUMBER)),
    (
        b"\x00\x16447700900456 Pa55word?",
        Noted::WrongSecret(NUMBER),
    ),
    (
        b"\x00\x16447700900456 qa55word!",
        Noted::WrongSecret(NUMBER),
    ),
    (b"\x00\x15447700900456 Pa55word", Noted::WrongSecret(NUMBER)),
    (
        b"\x00\x17447700900456 Pa55word!!",
        Noted::WrongSecret(NUMBER),
    ),
    (
        b"\x00\x17447700900456  Pa55word!",
        Noted::WrongSecret(NUMBER),
    ),
    (
        b"\x00\x17447700900456 Pa55word!\x00",
        Noted::WrongSecret(NUMBER),
    ),
    (b"\x00\x12447700900456 other", Noted::WrongSecret(NUMBER)),
    (b"\x00\x12447700900456 later", Noted::WrongSecret(NUMBER)),
    (
        b"\x00\x16447700900458 Pa55word!",
        Noted::WrongSecret(OTHER_NUMBER),
    ),
    (b"\x00\x0C447700900458", Noted::WrongSecret(OTHER_NUMBER)),
    (b"\x00\x1644770090045A Pa55word!", Noted::NoNumber),
    (b"\x00\x0A Pa55word!", Noted::NoNumber),
];

// It is over before it has the number: the keeper is asked nothing, and no other link is ended for it.
fn is_refused(alloc: Global, size: usize, frame: &'static [u8], noted: Noted) -> Result<(), Fail> {
    let turns = [
        Turn::Does(Act::Comes(frame)),
        Turn::Shows(Refinement::Sends(&REFUSED)),
        Turn::Shows(Refinement::Notes(noted)),
        Turn::Shows(Refinement::IsKnown(false)),
        Turn::Shows(Refinement::IsOver),
        Turn::Shows(Refinement::AsksNothing),
        Turn::Shows(Refinement::Closes),
    ];
    link_plays(alloc, access(alloc)?, size, "a wrong secret", &turns)
}

#[test]
fn a_link_gives_the_secret_of_its_number(rt: HostRuntime) -> Result<(), Fail> {
    let alloc = rt.alloc();
    for size in 1..30 {
        let name = "a link with its secret";
        link_plays(alloc, access(alloc)?, size, name, GIVES_ITS_SECRET)?;
        for (frame, noted) in WRONG {
            is_refused(alloc, size, frame, *noted)?;
        }
    }
    Ok(())
}
