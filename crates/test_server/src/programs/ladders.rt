//! Ladders that were worked out by hand, as text and as pictures.
use crate::rows::holds;
use sms_base::Octets;
use sms_trace_files::ladder::put_ladder;
use sms_trace_files::picture::{Picture, PictureSoFar, Route, Sign, put_picture};
use sms_world::run_ladder;
use std::alloc::{AllocError, Global};
use std::str::from_utf8;
use std::test::Fail;

// A number of twenty digits, a lost frame, and a request that is no UTF-8. The handset of a second number is not touched.
const TWENTY_DIGITS: &[u8] = b"start 1709251198\n\
    centre 447700900000\n\
    account app1 secret 447700900001\n\
    handset 447700900456 1\n\
    handset 12345678901234567890 1\n\
    submit app1 12345678901234567890 0 00 1 - 61\n\
    query app1 \xFF\\0\n";

const TWENTY_DIGITS_LADDER: &str = "\
app1                 centre               12345678901234567890\n\
|------------------->|                    |  1. submit_sm 1: submit app1 12345678901234567890 0 00 1 - 61\n\
|<-------------------|                    |  submit_sm_resp 1: accepted as message 1\n\
|                    |- - - - - x         |  frame 1: data 00, part 1 of message 1\n\
|------------------->|                    |  2. query_sm 2: query app1 \\xFF\\x5C0\n\
|<-------------------|                    |  query_sm_resp 2: ESME_RINVMSGID\n\
frame 1 never arrives\n";

// An owner's act is one row, also where it is refused, and one that is stopped is followed by the stop.
const OWNERS: &[u8] = b"start 1709251198\n\
    centre 447700900000\n\
    account app1 secret 447700900001\n\
    handset 447700900456 1\n\
    handset 447700900789 1\n\
    delete 447700900789 7\n\
    stopped before write 447700900456 447700900789 1 61\n\
    write 447700900456 447700900789 1 61\n\
    deliver 1\n";

const OWNERS_LADDER: &str = "\
centre              447700900456        447700900789\n\
|                   |                   *  1. delete 447700900789 7: refused, H2\n\
|                   *                   |  2. stopped before write 447700900456 447700900789 1 61\n\
|                   X                   |  stopped, and it starts again\n\
|                   *                   |  3. write 447700900456 447700900789 1 61: done\n\
|< - - - - - - - - -|                   |  frame 1: data 00, entry 1\n\
|<------------------|                   |  4. deliver 1\n\
|- - - - - x        |                   |  frame 2: CP-ACK\n\
|- - - - - x        |                   |  frame 3: acknowledgement 00, entry 1\n\
|- - - - - x        |                   |  frame 4: data 00, part 1 of message 1\n\
frame 2 never arrives\n\
frame 3 never arrives\n\
frame 4 never arrives\n";

const SCRIPTS: &[(&[u8], &str, &str)] = &[
    (TWENTY_DIGITS, TWENTY_DIGITS_LADDER, "twenty digits"),
    (OWNERS, OWNERS_LADDER, "owners"),
];

fn is_drawn(alloc: Global, script: &[u8], wanted: &str) -> bool {
    let mut input = script;
    let mut ladder: Vec<u8> = Vec::new(alloc);
    run_ladder(alloc, &mut input, &mut ladder).is_ok() && ladder.as_slice() == wanted.as_bytes()
}

#[test]
fn scripts_are_drawn(rt: HostRuntime) -> Result<(), Fail> {
    for (script, wanted, name) in SCRIPTS {
        holds(is_drawn(rt.alloc(), script, wanted), name)?;
    }
    Ok(())
}

// What crosses four lanes, of which no row touches lane 1. Something crosses lane 2, and frames go both ways.
fn put_rows(picture: &mut PictureSoFar) -> Result<(), AllocError> {
    picture.put_exchange(Route { from: 0, to: 3 }, b"across")?;
    picture.put_departure(Route { from: 3, to: 0 }, false, b"back")?;
    picture.put_departure(Route { from: 2, to: 0 }, false, b"never")?;
    picture.put_arrival(Route { from: 3, to: 0 }, 1, b"arrives")?;
    picture.put_sign(2, Sign::Tick, b"ticks")?;
    picture.put_sign(3, Sign::Act, b"acts")?;
    picture.put_sign(0, Sign::Restart, b"")
}

fn put_between_lanes(picture: &mut PictureSoFar) -> Result<(), AllocError> {
    picture.put_lane(b"one")?;
    picture.put_lane(b"two")?;
    picture.put_lane(b"three")?;
    picture.put_lane(b"four")?;
    put_rows(picture)
}

const LONG: [u8; 1_234] = [b'<'; 1_234];

// A clock that ticks in each of so many rows, with a long note in the first.
fn put_ticks(picture: &mut PictureSoFar, rows: u32) -> Result<(), AllocError> {
    picture.put_lane(b"side")?;
    picture.put_sign(0, Sign::Tick, &LONG)?;
    for _ in 1..rows {
        picture.put_sign(0, Sign::Tick, b"ticks")?;
    }
    Ok(())
}

// What is drawn: four lanes, or so many ticks, as text or as a picture.
#[derive(Clone, Copy)]
enum Drawn {
    TextBetweenLanes,
    BetweenLanes,
    Ticks(u32),
}

fn put_all(picture: &mut PictureSoFar, drawn: Drawn) -> Result<(), AllocError> {
    match drawn {
        Drawn::TextBetweenLanes | Drawn::BetweenLanes => put_between_lanes(picture),
        Drawn::Ticks(rows) => put_ticks(picture, rows),
    }
}

fn picture_of(alloc: Global, drawn: Drawn) -> Result<Picture, AllocError> {
    let mut picture = PictureSoFar::new(alloc);
    put_all(&mut picture, drawn)?;
    Ok(picture.finish())
}

fn put_drawn(
    alloc: Global,
    out: &mut Octets,
    picture: &Picture,
    drawn: Drawn,
) -> Result<(), AllocError> {
    match drawn {
        Drawn::TextBetweenLanes => put_ladder(alloc, out, picture),
        Drawn::BetweenLanes | Drawn::Ticks(_) => put_picture(alloc, out, picture),
    }
}

fn has_text(octets: &[u8], wanted: &str) -> bool {
    match from_utf8(octets) {
        Ok(text) => text.contains(wanted),
        Err(_) => false,
    }
}

// Whether what is drawn has a text, or has it not. A ladder is to be that text.
fn is_shown(octets: &[u8], drawn: Drawn, wanted: &str, is_there: bool) -> bool {
    match drawn {
        Drawn::TextBetweenLanes => octets == wanted.as_bytes(),
        Drawn::BetweenLanes | Drawn::Ticks(_) => has_text(octets, wanted) == is_there,
    }
}

fn has(alloc: Global, picture: &Picture, drawn: Drawn, wanted: &str, is_there: bool) -> bool {
    let mut out = Octets::new(alloc);
    put_drawn(alloc, &mut out, picture, drawn).is_ok()
        && is_shown(out.as_slice(), drawn, wanted, is_there)
}

fn is_picture(alloc: Global, drawn: Drawn, wanted: &str, is_there: bool) -> bool {
    match picture_of(alloc, drawn) {
        Ok(picture) => has(alloc, &picture, drawn, wanted, is_there),
        Err(_) => false,
    }
}

// The whole text.
const BETWEEN_LANES: &str = "\
one                 three               four\n\
|-------------------|------------------>|  across\n\
|< - - - - - - - - -|- - - - - - - - - -|  back\n\
|        x - - - - -|                   |  never\n\
|<------------------|-------------------|  arrives\n\
|                   o                   |  ticks\n\
|                   |                   *  acts\n\
X                   |                   |\n";

const NEVER: &str = "<line class=\"arrow lost\" x1=\"280\" y1=\"108\" x2=\"190\" y2=\"108\"/>\n\
<use href=\"#cross\" x=\"548\" y=\"108\"/>\n\
<text class=\"note\" x=\"560\" y=\"112\">never</text>\n";

const ARRIVES: &str = "<line class=\"arrow\" x1=\"460\" y1=\"84\" x2=\"100\" y2=\"132\"/>\n\
<text class=\"note\" x=\"560\" y=\"136\">arrives</text>\n";

const LANES: &str = "<line class=\"lane\" x1=\"100\" y1=\"40\" x2=\"100\" y2=\"228\"/>\n\
<line class=\"lane\" x1=\"280\" y1=\"40\" x2=\"280\" y2=\"228\"/>\n\
<line class=\"lane\" x1=\"460\" y1=\"40\" x2=\"460\" y2=\"228\"/>\n\
<text class=\"name\" x=\"100\" y=\"30\">one</text>\n\
<text class=\"name\" x=\"280\" y=\"30\">three</text>\n\
<text class=\"name\" x=\"460\" y=\"30\">four</text>\n\
<line class=\"arrow\" x1=\"100\" y1=\"60\" x2=\"460\" y2=\"60\"/>\n";

// Eighty octets of the note, each as its entity.
const CUT: &str = "<text class=\"note\" x=\"200\" y=\"64\">\
&lt;&lt;&lt;&lt;&lt;&lt;&lt;&lt;&lt;&lt;&lt;&lt;&lt;&lt;&lt;&lt;&lt;&lt;&lt;&lt;\
&lt;&lt;&lt;&lt;&lt;&lt;&lt;&lt;&lt;&lt;&lt;&lt;&lt;&lt;&lt;&lt;&lt;&lt;&lt;&lt;\
&lt;&lt;&lt;&lt;&lt;&lt;&lt;&lt;&lt;&lt;&lt;&lt;&lt;&lt;&lt;&lt;&lt;&lt;&lt;&lt;\
&lt;&lt;&lt;&lt;&lt;&lt;&lt;&lt;&lt;&lt;&lt;&lt;&lt;&lt;&lt;&lt;&lt;&lt;&lt;&lt; \
.. (1234 octets)</text>\n";

const SECOND_NAME: &str = "<text class=\"name\" x=\"100\" y=\"1020\">side</text>\n";

const THIRD_NAME: &str = "<text class=\"name\" x=\"100\" y=\"2010\">side</text>\n";

const PICTURES: &[(Drawn, &str, bool, &str)] = &[
    (
        Drawn::TextBetweenLanes,
        BETWEEN_LANES,
        true,
        "a lane that nothing touches is left out",
    ),
    (
        Drawn::BetweenLanes,
        LANES,
        true,
        "the lanes that are touched",
    ),
    (
        Drawn::BetweenLanes,
        NEVER,
        true,
        "a frame that never arrives",
    ),
    (Drawn::BetweenLanes, ARRIVES, true, "a frame that arrives"),
    (Drawn::Ticks(1), CUT, true, "a long note is cut"),
    (
        Drawn::Ticks(1),
        "viewBox=\"0 0 1184 252\"",
        true,
        "the room of a note that is cut",
    ),
    (Drawn::Ticks(40), SECOND_NAME, false, "forty rows"),
    (
        Drawn::Ticks(80),
        SECOND_NAME,
        true,
        "a name behind forty rows",
    ),
    (
        Drawn::Ticks(80),
        "<use href=\"#tick\" x=\"100\" y=\"996\"/>\n",
        true,
        "the fortieth row",
    ),
    (
        Drawn::Ticks(80),
        "<use href=\"#tick\" x=\"100\" y=\"1050\"/>\n",
        true,
        "the row behind it",
    ),
    (Drawn::Ticks(80), THIRD_NAME, false, "eighty rows"),
    (
        Drawn::Ticks(81),
        THIRD_NAME,
        true,
        "a name behind eighty rows",
    ),
];

#[test]
fn pictures_have_texts(rt: HostRuntime) -> Result<(), Fail> {
    for (drawn, wanted, is_there, name) in PICTURES {
        holds(is_picture(rt.alloc(), *drawn, wanted, *is_there), name)?;
    }
    Ok(())
}
