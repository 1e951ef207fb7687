//! What a service represents.

use crate::seat_map::SeatMap;
use sms_centre_spec::Rows;
use std::marker::Model;

/// What a service represents, as contracts see it: a centre between events, which handset and session is at which seat,
/// what it forgot since the run began, and for how many seconds it keeps what has ended. No value of it is made.
pub struct Served {
    pub rows: Rows,
    pub seat_map: SeatMap,
    pub keep: Option<u64>,
}

impl Model for Served {
    ghost use Rattle.smsc_service.specs.Seats.{seats_in};
    ghost use Rattle.smsc_service.specs.Course.{Course, begun};
    ghost use Rattle.smsc_service.specs.Serving.{restarted};

    ghost Value = { Course };

    ghost view = { λ s. begun s.keep (restarted s.rows (seats_in s.seat_map)) };
}
