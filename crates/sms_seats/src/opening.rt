//! How the queues and their seats are made.
ghost use Rattle.std.specs.Prelude.{◌≡◌, ◌<◌, ◌+◌, [], IfOk};
ghost use Rattle.std.specs.Arc.{arc_value};
ghost use Rattle.crossbeam_queue.specs.Passes.{view, IsPassOf, ruled_capacity};
ghost use Rattle.sms_seats.specs.declared.seat.Seat.{Seat};
ghost use Rattle.sms_seats.specs.Answers.{taker_view};
ghost use Rattle.sms_seats.specs.Queues.{seats_of, slots_in, HasOneMore, IsUnused};
ghost use Rattle.sms_seats.specs.Seats.{IsNewSeat, IsSeatOf};

use crate::answers::{AnswersPass, AnswersQueue, Roles};
use crate::jobs::{JobsQueue, NextSeat};
use crate::queues::{SeatChannel, SeatQueues};
use crate::seat::Seat;
use std::alloc::{AllocError, Global};
use std::sync::Arc;
use std::thread::Parker;

// A seat's end of the line of its answers.
struct FarEnd<O> {
    answers: Arc<AnswersQueue<O>, Global>,
    taker: AnswersPass<O>,
    bell: Arc<Parker, Global>,
}

fn open_line<O: Drop>(
    alloc: Global,
    slots: usize,
) -> Result<(SeatChannel<O>, FarEnd<O>), AllocError>
    requires { 0 < slots }
    ensures queue { IfOk result (λ r. IsPassOf (arc_value r.1.answers) r.1.taker × (r.1.taker.table_id ≡ r.0.pass.table_id)) }
    ensures slots { IfOk result (λ r. ruled_capacity (arc_value r.1.answers) ≡ slots) }
    ensures empty { IfOk result (λ r. ((view r.0.pass).given ≡ []) × (view r.1.taker ≡ taker_view [])) }
{
    let (queue, mut pass) = AnswersQueue::<O>::ruled(alloc, slots)?;
    let queue = Arc::new(alloc, queue)?;
    let bell = Arc::new(alloc, Parker::new())?;
    let answers = Arc::try_clone(&queue)?;
    let woken = Arc::try_clone(&bell)?;
    let taker = queue.another::<Roles>(&mut pass);
    let line = SeatChannel { queue, pass, bell };
    let end = FarEnd {
        answers,
        taker,
        bell: woken,
    };
    Ok((line, end))
}

impl<J: Drop, O: Drop> SeatQueues<J, O> {
    /// The queues of no seat.
    pub fn open(alloc: Global, slots: usize) -> Result<SeatQueues<J, O>, AllocError>
        requires { 0 < slots }
        ensures new { IfOk result (λ q. IsUnused q × (seats_of q ≡ 0)) }
        ensures slots { IfOk result (λ q. slots_in q ≡ slots) }
    {
        let (queue, pass) = JobsQueue::<J>::ruled(alloc, slots)?;
        let jobs = Arc::new(alloc, queue)?;
        let bell = Arc::new(alloc, Parker::new())?;
        Ok(SeatQueues {
            jobs,
            pass,
            lines: Vec::new(alloc),
            closed: Vec::new(alloc),
            bell,
        })
    }

    /// Makes the next seat, with as many slots for its answers as there are for jobs.
    pub fn add_seat(&mut self, alloc: Global) -> Result<Seat<J, O>, AllocError>
        ensures seat { IfOk result (λ s. IsNewSeat self.new (seats_of self.old) s) }
        ensures more { IfOk result (λ s. HasOneMore self.old self.new) }
        ensures others { IfOk result (λ s. (o : Seat J O) → IsSeatOf self.old o → IsSeatOf self.new o) }
        ensures slots { IfOk result (λ s. slots_in self.new ≡ slots_in self.old) }
    {
        self.lines.reserve(1)?;
        self.closed.reserve(1)?;
        let jobs = Arc::try_clone(&self.jobs)?;
        let keeper = Arc::try_clone(&self.bell)?;
        let (line, end) = open_line(alloc, self.jobs.capacity())?;
        let FarEnd {
            answers,
            taker,
            bell,
        } = end;
        let number = self.lines.len();
        let pass = self.jobs.another::<NextSeat>(&mut self.pass);
        self.lines.push_reserved(line);
        self.closed.push_reserved(false);
        Ok(Seat {
            number,
            jobs,
            pass,
            answers,
            taker,
            bell,
            keeper,
        })
    }
}
