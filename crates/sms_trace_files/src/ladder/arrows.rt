//! Arrows of a ladder, place by place.
ghost use Rattle.std.specs.Prelude.{◌≡◌};
ghost use Rattle.sms_trace_files.specs.ladder.Arrows.{ahead as ahead_of, arrow_at as at_of_arrow, arrow_mark as mark_of_arrow, dash as dash_of};
ghost use Rattle.sms_trace_files.specs.ladder.Arrows.{lost_at as at_of_lost, lost_mark as mark_of_lost, reach as reach_of, tip as tip_of};

// The cross of what never arrives is so far from where it was sent.
const LOST: u32 = 11;

// How far a place is from where the arrow begins, in its direction.
fn ahead(apart: u8, from: u16, to: u16, place: u32) -> u32
    ensures { result ≡ ahead_of apart from to place }
{
    let begin = u32::from(apart) * u32::from(from);
    if from < to {
        place.saturating_sub(begin)
    } else {
        begin.saturating_sub(place)
    }
}

fn reach(apart: u8, from: u16, to: u16) -> u32
    ensures { result ≡ reach_of apart from to }
{
    if from < to {
        u32::from(apart) * u32::from(to - from)
    } else {
        u32::from(apart) * u32::from(from - to)
    }
}

fn tip(from: u16, to: u16) -> u8
    ensures { result ≡ tip_of from to }
{
    if from < to { b'>' } else { b'<' }
}

fn dash(is_whole: bool, distance: u32) -> u8
    ensures { result ≡ dash_of is_whole distance }
{
    if is_whole || distance % 2 == 1 {
        b'-'
    } else {
        b' '
    }
}

fn arrow_mark(is_whole: bool, tip: u8, reach: u32, distance: u32) -> u8
    ensures { result ≡ mark_of_arrow is_whole tip reach distance }
{
    if distance == 0 || reach <= distance {
        b' '
    } else if reach - distance == 1 {
        tip
    } else {
        dash(is_whole, distance)
    }
}

/// What an arrow has at a place between lanes that are so many places apart.
pub(crate) fn arrow_at(is_whole: bool, apart: u8, from: u16, to: u16, place: u32) -> u8
    ensures { result ≡ at_of_arrow is_whole apart from to place }
{
    arrow_mark(
        is_whole,
        tip(from, to),
        reach(apart, from, to),
        ahead(apart, from, to, place),
    )
}

fn lost_mark(distance: u32) -> u8
    ensures { result ≡ mark_of_lost distance }
{
    if distance == 0 || LOST < distance {
        b' '
    } else if distance == LOST {
        b'x'
    } else {
        dash(false, distance)
    }
}

/// What the broken arrow of what never arrives has there.
pub(crate) fn lost_at(apart: u8, from: u16, to: u16, place: u32) -> u8
    ensures { result ≡ at_of_lost apart from to place }
{
    lost_mark(ahead(apart, from, to, place))
}
