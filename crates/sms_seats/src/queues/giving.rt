//! How answers go in.
ghost use Rattle.std.specs.Prelude.{◌≡◌, ◌<◌, ◌==◌, ℕ, List, [], ◌∷◌, ◌++◌, if◌then◌else◌, IfOk};
ghost use Rattle.crossbeam_queue.specs.Passes.{view};
ghost use Rattle.sms_seats.specs.Answers.{taker_view};
ghost use Rattle.sms_seats.specs.Queues.{given_by, ran_by, seats_of, IsSameQueues};

use super::{SeatChannel, SeatQueues};
use crate::answers::{AnswersPass, gather, give};
use std::alloc::{AllocError, Global};
use std::sync::Wait;
use std::thread::Parker;
use std::time::Duration;

impl<O: Drop> SeatChannel<O> {
    // Gives an answer, and waits while the seat has no room for it.
    fn give<R: Wait>(&mut self, rt: &R, answer: O)
        ensures same { self.new.pass.table_id ≡ self.old.pass.table_id }
        ensures given { (view self.new.pass).given ≡ (view self.old.pass).given ++ answer ∷ [] }
    {
        let mut left = answer;
        for _ in rt.forever() {
            match give(rt, &self.queue, &mut self.pass, left) {
                Ok(()) => {
                    self.bell.unpark();
                    return;
                }
                Err(back) => {
                    left = back;
                    Parker::new().park_timeout(rt, Duration::from_millis(1));
                }
            }
        }
        unreachable!()
    }

    // Takes in what the seat took, and takes what is left in the queue.
    pub(super) fn take_back<R: Wait>(
        &mut self,
        rt: &R,
        alloc: Global,
        taker: AnswersPass<O>,
    ) -> Result<Vec<O>, AllocError>
        requires queue { (taker.table_id ≡ self.old.pass.table_id) × (taker.me.1 ≡ []) }
        requires taker { view taker ≡ taker_view (view taker).taken }
        ensures same { self.new.pass.table_id ≡ self.old.pass.table_id }
        ensures given { (view self.new.pass).given ≡ (view self.old.pass).given }
        ensures taken { (rest : List O) × ((view self.old.pass).given ≡ (view taker).taken ++ rest) }
        ensures all { IfOk result (λ v. (view self.old.pass).given ≡ (view taker).taken ++ v.items) }
    {
        gather(rt, alloc, &self.queue, &mut self.pass, taker)
    }
}

impl<J: Drop, O: Drop> SeatQueues<J, O> {
    /// Gives an answer to the seat of that number, if there is one, and waits while the seat has no room for it.
    pub fn give<R: Wait>(&mut self, rt: &R, seat: usize, answer: O)
        ensures same { IsSameQueues self.old self.new }
        ensures ran { ran_by self.new ≡ ran_by self.old }
        ensures given { (n : ℕ) → n < seats_of self.old → given_by self.new n ≡ given_by self.old n ++ (if n == seat then answer ∷ [] else []) }
    {
        if seat < self.lines.len() {
            self.lines[seat].give(rt, answer);
        }
    }
}
