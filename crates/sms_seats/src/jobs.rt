//! The queue of jobs, which all seats put into and the keeper alone takes from.
ghost use Rattle.std.specs.Prelude.{◌≡◌, List, [], ◌∷◌, ◌++◌, MatchResult, MatchOption};
ghost use Rattle.crossbeam_queue.specs.Passes.{view, IsPassOf, IsSamePass};
ghost use Rattle.sms_seats.specs.declared.jobs.Letter.{Letter};
ghost use Rattle.sms_seats.specs.Jobs.{of, seat_view, keeper_view};

use crossbeam_queue::protocol::{Join, Lesson, Outcome, Protocol, Split};
use crossbeam_queue::{Pass, RuledArrayQueue};
use std::collections::LinkedList;
use std::sync::Wait;

/// What lies in the queue: a job of a seat, or the seat's end mark.
#[derive(Drop)]
pub struct Letter<J> {
    pub seat: usize,
    pub job: Option<J>,
}

/// What a pass may do and what it knows. No value of it is made.
pub struct JobsView<J> {
    /// The pass is the keeper's.
    pub runs: bool,
    /// How many seats were made.
    pub made: u64,
    /// What the keeper popped.
    pub ran: LinkedList<Letter<J>>,
    /// The pass is that of a seat.
    pub puts: bool,
    pub seat: usize,
    /// What the seat put.
    pub put: LinkedList<Option<J>>,
}

/// For each seat, what it put is its part of what the keeper popped, and then its part of the queue.
pub struct InOrder;

impl<J> Protocol<Letter<J>, JobsView<J>> for InOrder {
    ghost use Rattle.std.specs.Prelude.{[]};
    ghost use Rattle.sms_seats.specs.Jobs.{keeper_view, Ordered};

    ghost holds = { Ordered };

    ghost first = { keeper_view 0 [] };
}

/// The keeper's pass makes that of the next seat.
pub struct NextSeat;

impl<J> Split<JobsView<J>> for NextSeat {
    ghost use Rattle.std.specs.Prelude.{[], ◌+◌};
    ghost use Rattle.sms_seats.specs.Jobs.{keeper_view, seat_view};

    ghost left = { λ v. keeper_view (v.made + 1) v.ran };

    ghost right = { λ v. seat_view v.made [] };
}

/// The keeper's pass takes in a seat's.
pub struct TakeSeat;

impl<J> Join<JobsView<J>> for TakeSeat {
    ghost use Rattle.sms_seats.specs.Jobs.{both_view, spent_view};

    ghost both = { λ v w. both_view v w };

    ghost spent = { spent_view };
}

/// The keeper's pass drops a seat's that it took in.
pub struct LeaveSeat;

impl<J> Split<JobsView<J>> for LeaveSeat {
    ghost use Rattle.sms_seats.specs.Jobs.{keeper_view, spent_view};

    ghost left = { λ v. keeper_view v.made v.ran };

    ghost right = { λ v. spent_view };
}

/// A put adds to what the seat put.
pub struct Puts;

impl<J> Outcome<Letter<J>, JobsView<J>> for Puts {
    ghost use Rattle.std.specs.Prelude.{◌≡◌, [], ◌∷◌, ◌++◌};
    ghost use Rattle.sms_seats.specs.Jobs.{seat_view};

    ghost then = { λ v x w. w ≡ seat_view v.seat (v.put ++ x.job ∷ []) };
}

impl<J> Lesson<Letter<J>, JobsView<J>> for Puts {
    ghost use Rattle.std.specs.Prelude.{⊤};

    ghost fact = { λ v items. ⊤ };
}

/// A pop adds to what the keeper popped.
pub struct Runs;

impl<J> Outcome<Letter<J>, JobsView<J>> for Runs {
    ghost use Rattle.std.specs.Prelude.{◌≡◌, [], ◌∷◌, ◌++◌};
    ghost use Rattle.sms_seats.specs.Jobs.{keeper_view};

    ghost then = { λ v x w. w ≡ keeper_view v.made (v.ran ++ x ∷ []) };
}

impl<J> Lesson<Letter<J>, JobsView<J>> for Runs {
    ghost use Rattle.std.specs.Prelude.{⊤};

    ghost fact = { λ v items. ⊤ };
}

/// What a seat put is its part of what was popped, and of what is left.
pub struct Compared;

impl<J> Lesson<Letter<J>, JobsView<J>> for Compared {
    ghost use Rattle.std.specs.Prelude.{◌≡◌, ◌++◌};
    ghost use Rattle.sms_seats.specs.Jobs.{of};

    ghost fact = { λ v items. v.put ≡ of v.seat v.ran ++ of v.seat items };
}

/// No job of a seat that was not made was popped.
pub struct NoOthers;

impl<J> Lesson<Letter<J>, JobsView<J>> for NoOthers {
    ghost use Rattle.std.specs.Prelude.{◌≡◌, ◌≤◌, ℕ, []};
    ghost use Rattle.sms_seats.specs.Jobs.{of};

    ghost fact = { λ v items. (s : ℕ) → v.made ≤ s → of s v.ran ≡ [] };
}

pub type JobsQueue<J> = RuledArrayQueue<Letter<J>, JobsView<J>, InOrder>;

pub type JobsPass<J> = Pass<Letter<J>, JobsView<J>>;

/// A seat puts a job, or its end mark.
pub fn put<J, R: Wait>(
    rt: &R,
    queue: &JobsQueue<J>,
    pass: &mut JobsPass<J>,
    letter: Letter<J>,
) -> Result<(), Letter<J>>
    requires queue { IsPassOf queue.now pass.old }
    requires mine { view pass.old ≡ seat_view letter.seat (view pass.old).put }
    ensures queue { IsSamePass pass.old pass.new }
    ensures put { MatchResult result
        (λ _. view pass.new ≡ seat_view letter.seat ((view pass.old).put ++ letter.job ∷ []))
        (λ x. (x ≡ letter) × (view pass.new ≡ view pass.old)) }
{
    queue.push_as::<Puts, R>(rt, pass, letter)
}

/// The keeper takes the next job or end mark.
pub fn next<J, R: Wait>(rt: &R, queue: &JobsQueue<J>, pass: &mut JobsPass<J>) -> Option<Letter<J>>
    requires queue { IsPassOf queue.now pass.old }
    requires mine { view pass.old ≡ keeper_view (view pass.old).made (view pass.old).ran }
    ensures queue { IsSamePass pass.old pass.new }
    ensures next { MatchOption result
        (view pass.new ≡ view pass.old)
        (λ x. view pass.new ≡ keeper_view (view pass.old).made ((view pass.old).ran ++ x ∷ [])) }
{
    queue.pop_as::<Runs, R>(rt, pass)
}

/// The keeper takes in a seat's pass and drops it. It learns that what the seat put is its part of what was popped and
/// of some rest.
pub fn compare<J>(queue: &JobsQueue<J>, keeper: &mut JobsPass<J>, seat: JobsPass<J>)
    requires queue { IsPassOf queue.now keeper.old × IsPassOf queue.now seat }
    requires keeper { view keeper.old ≡ keeper_view (view keeper.old).made (view keeper.old).ran }
    requires seat { view seat ≡ seat_view (view seat).seat (view seat).put }
    ensures queue { IsSamePass keeper.old keeper.new }
    ensures keeper { view keeper.new ≡ view keeper.old }
    ensures put { (items : List (Letter J)) × ((view seat).put ≡ of (view seat).seat (view keeper.old).ran ++ of (view seat).seat items) }
{
    queue.absorb::<TakeSeat>(keeper, seat);
    queue.learn_as::<Compared>(keeper);
    let _spare = queue.another::<LeaveSeat>(keeper);
}
