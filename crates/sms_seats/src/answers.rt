//! The queue of one seat's answers, which the keeper puts into and the seat takes from.
ghost use Rattle.std.specs.Prelude.{◌≡◌, List, [], ◌∷◌, ◌++◌, MatchOption, MatchResult, IfOk};
ghost use Rattle.crossbeam_queue.specs.Passes.{view, IsPassOf, IsSamePass};
ghost use Rattle.sms_seats.specs.Answers.{giver_view, taker_view, joined_view};

use crossbeam_queue::protocol::{Join, Lesson, Outcome, Protocol, Split};
use crossbeam_queue::{Pass, RuledArrayQueue};
use std::alloc::{AllocError, Global};
use std::collections::LinkedList;
use std::sync::Wait;

/// What a pass may do and what it knows. No value of it is made.
pub struct AnswersView<O> {
    pub gives: bool,
    pub takes: bool,
    pub given: LinkedList<O>,
    pub taken: LinkedList<O>,
}

/// What the keeper gave is what the seat took, and then the queue.
pub struct Handed;

impl<O> Protocol<O, AnswersView<O>> for Handed {
    ghost use Rattle.std.specs.Prelude.{[]};
    ghost use Rattle.sms_seats.specs.Answers.{joined_view, Relayed};

    ghost holds = { Relayed };

    ghost first = { joined_view [] [] };
}

/// A pass that gives and takes is cut into the keeper's and the seat's, and the keeper's takes in the seat's again.
pub struct Roles;

impl<O> Split<AnswersView<O>> for Roles {
    ghost use Rattle.sms_seats.specs.Answers.{giver_view, taker_view};

    ghost left = { λ v. giver_view v.given };

    ghost right = { λ v. taker_view v.taken };
}

impl<O> Join<AnswersView<O>> for Roles {
    ghost use Rattle.sms_seats.specs.Answers.{joined_view, spent_view};

    ghost both = { λ v w. joined_view v.given w.taken };

    ghost spent = { spent_view };
}

/// A push adds to what the keeper gave.
pub struct Gives;

impl<O> Outcome<O, AnswersView<O>> for Gives {
    ghost use Rattle.std.specs.Prelude.{◌≡◌, [], ◌∷◌, ◌++◌};
    ghost use Rattle.sms_seats.specs.Answers.{giver_view};

    ghost then = { λ v x w. w ≡ giver_view (v.given ++ x ∷ []) };
}

impl<O> Lesson<O, AnswersView<O>> for Gives {
    ghost use Rattle.std.specs.Prelude.{⊤};

    ghost fact = { λ v items. ⊤ };
}

/// A pop adds to what the seat took.
pub struct Takes;

impl<O> Outcome<O, AnswersView<O>> for Takes {
    ghost use Rattle.std.specs.Prelude.{◌≡◌, [], ◌∷◌, ◌++◌};
    ghost use Rattle.sms_seats.specs.Answers.{taker_view};

    ghost then = { λ v x w. w ≡ taker_view (v.taken ++ x ∷ []) };
}

impl<O> Lesson<O, AnswersView<O>> for Takes {
    ghost use Rattle.std.specs.Prelude.{⊤};

    ghost fact = { λ v items. ⊤ };
}

/// A pop by the pass that gives and takes. What was given is what was taken, and then the queue.
pub struct TakesRest;

impl<O> Outcome<O, AnswersView<O>> for TakesRest {
    ghost use Rattle.std.specs.Prelude.{◌≡◌, [], ◌∷◌, ◌++◌};
    ghost use Rattle.sms_seats.specs.Answers.{joined_view};

    ghost then = { λ v x w. w ≡ joined_view v.given (v.taken ++ x ∷ []) };
}

impl<O> Lesson<O, AnswersView<O>> for TakesRest {
    ghost use Rattle.std.specs.Prelude.{◌≡◌, ◌++◌};

    ghost fact = { λ v items. v.given ≡ v.taken ++ items };
}

pub type AnswersQueue<O> = RuledArrayQueue<O, AnswersView<O>, Handed>;

pub type AnswersPass<O> = Pass<O, AnswersView<O>>;

/// The keeper gives an answer. It is handed back only if the queue was full at one moment of the call.
pub fn give<O, R: Wait>(
    rt: &R,
    queue: &AnswersQueue<O>,
    pass: &mut AnswersPass<O>,
    answer: O,
) -> Result<(), O>
    requires queue { IsPassOf queue.now pass.old }
    requires mine { view pass.old ≡ giver_view (view pass.old).given }
    ensures queue { IsSamePass pass.old pass.new }
    ensures given { MatchResult result
        (λ _. view pass.new ≡ giver_view ((view pass.old).given ++ answer ∷ []))
        (λ back. (back ≡ answer) × (view pass.new ≡ view pass.old)) }
{
    queue.push_as::<Gives, R>(rt, pass, answer)
}

/// The seat takes an answer. None only if the queue was empty at one moment of the call.
pub fn take<O, R: Wait>(rt: &R, queue: &AnswersQueue<O>, pass: &mut AnswersPass<O>) -> Option<O>
    requires queue { IsPassOf queue.now pass.old }
    requires mine { view pass.old ≡ taker_view (view pass.old).taken }
    ensures queue { IsSamePass pass.old pass.new }
    ensures taken { MatchOption result
        (view pass.new ≡ view pass.old)
        (λ x. view pass.new ≡ taker_view ((view pass.old).taken ++ x ∷ [])) }
{
    queue.pop_as::<Takes, R>(rt, pass)
}

// The joined pass takes an answer. At None all that was given is taken.
fn take_rest<O, R: Wait>(rt: &R, queue: &AnswersQueue<O>, pass: &mut AnswersPass<O>) -> Option<O>
    requires queue { IsPassOf queue.now pass.old }
    requires mine { view pass.old ≡ joined_view (view pass.old).given (view pass.old).taken }
    ensures queue { IsSamePass pass.old pass.new }
    ensures taken { MatchOption result
        ((view pass.new ≡ view pass.old) × ((view pass.old).given ≡ (view pass.old).taken))
        (λ x. view pass.new ≡ joined_view (view pass.old).given ((view pass.old).taken ++ x ∷ [])) }
{
    queue.pop_as::<TakesRest, R>(rt, pass)
}

// The joined pass takes all that is left, into a list that has nothing yet.
fn empty<O: Drop, R: Wait>(
    rt: &R,
    queue: &AnswersQueue<O>,
    pass: &mut AnswersPass<O>,
    rest: &mut Vec<O>,
) -> Result<(), AllocError>
    requires queue { IsPassOf queue.now pass.old }
    requires mine { view pass.old ≡ joined_view (view pass.old).given (view pass.old).taken }
    requires none { rest.old.items ≡ [] }
    ensures queue { IsSamePass pass.old pass.new }
    ensures mine { (taken : List O) × (view pass.new ≡ joined_view (view pass.old).given taken) }
    ensures all { IfOk result (λ v. (view pass.old).given ≡ (view pass.old).taken ++ rest.new.items) }
{
    for _ in rt.forever() {
        rest.reserve(1)?;
        match take_rest(rt, queue, pass) {
            Some(answer) => rest.push_reserved(answer),
            None => return Ok(()),
        }
    }
    unreachable!()
}

/// The keeper takes in the seat's pass and what is left in the queue, and drops the pass.
pub fn gather<O: Drop, R: Wait>(
    rt: &R,
    alloc: Global,
    queue: &AnswersQueue<O>,
    pass: &mut AnswersPass<O>,
    taker: AnswersPass<O>,
) -> Result<Vec<O>, AllocError>
    requires queue { IsPassOf queue.now pass.old × IsPassOf queue.now taker }
    requires giver { view pass.old ≡ giver_view (view pass.old).given }
    requires taker { view taker ≡ taker_view (view taker).taken }
    ensures queue { IsSamePass pass.old pass.new }
    ensures giver { view pass.new ≡ view pass.old }
    ensures taken { (rest : List O) × ((view pass.old).given ≡ (view taker).taken ++ rest) }
    ensures all { IfOk result (λ v. (view pass.old).given ≡ (view taker).taken ++ v.items) }
{
    queue.absorb::<Roles>(pass, taker);
    queue.learn_as::<TakesRest>(pass);
    let mut rest = Vec::new(alloc);
    let emptied = empty(rt, queue, pass, &mut rest);
    let _spare = queue.another::<Roles>(pass);
    match emptied {
        Ok(()) => Ok(rest),
        Err(refused) => Err(refused),
    }
}
