//! The centre as the machine of a hub.
ghost use Rattle.std.specs.Prelude.{◌≡◌, IfOk, IfSome, OnOk, take};
ghost use Rattle.sms_rows.specs.keep.StoreOutcome.{IfHeld, WasHonest};
ghost use Rattle.sms_centre_spec.specs.declared.rows.Rows.{Rows as RowsOf};
ghost use Rattle.sms_centre.specs.Enrolling.{accounts_of};
ghost use Rattle.smsc_service.specs.Accounts.{bare};
ghost use Rattle.smsc_service.specs.Seats.{nobody, seats_in};
ghost use Rattle.smsc_service.specs.Stepping.{OneRefused};
ghost use Rattle.smsc_service.specs.Serving.{Serving, restarted};
ghost use Rattle.smsc_service.specs.Course.{after, gives};
ghost use Rattle.smsc_service.specs.Sparing.{Spares, due_in, errands_of, kept_by};
ghost use Rattle.smsc_service.specs.InService.{HasArchived, HasHonestStore, IfAwaited, IsAwaitedBy, IsBroken, IsRefusedBy, IsRunning, IsServedBy};
ghost use Rattle.smsc_service.specs.InService.{archive_in, refusals_of, store_in};

use crate::causes::cause_told_by;
use crate::cutoff::Cutoff;
use crate::errands::{Errands, rest_behind, walks_to};
use crate::link_board::LinkBoard;
use crate::machine::CentreMachine;
use crate::made::Made;
use crate::refused::part_refused;
use crate::restarting::restarted_from;
use crate::seat_map::SeatMap;
use crate::seated_centre::SeatedCentre;
use crate::served::Served;
use crate::shown_links;
use crate::start_error::StartError;
use crate::stimuli::{asked_by, refused_with_group};
use sms_base::Moment;
use sms_base::lending::put;
use sms_centre::{Archive, Centre};
use sms_centre_group::GroupKeep;
use sms_centre_spec::bodies::CentreStore;
use sms_centre_spec::jobs::{Job, Reply};
use sms_intake::CentreAccount;
use sms_keeper::{Broken, Errand, Gate, Machine, Outs, Step, Stimulus, Unsettled};
use std::alloc::{AllocError, Global};
use std::sync::Arc;

/// The centre over its store, with who sits where.
#[derive(Drop)]
pub struct Service<K: CentreStore + Drop, A: Archive + Drop> {
    pub(crate) seated: SeatedCentre<K>,
    // Who sits where if the group is refused.
    pub(crate) resumed: SeatMap,
    // How many of the centre's accounts there are if the group is refused: those that came in it are let go then.
    pub(crate) accounts: usize,
    // The rows could not be read when they were last to be.
    pub(crate) is_broken: bool,
    // Whether it is to be put down how links are, once the group is committed.
    pub(crate) shows: bool,
    // Where it is put down how links are, if anybody looks.
    pub(crate) board: Option<Arc<LinkBoard>>,
    // Behind it nothing is begun.
    pub(crate) cutoff: Arc<Cutoff>,
    // What it does that no seat asks.
    pub(crate) errands: Errands<A>,
}

// Two maps of nobody.
fn empty_maps(alloc: Global) -> Result<(SeatMap, SeatMap), AllocError>
    ensures first { IfOk result (λ maps. seats_in maps.0 ≡ nobody) }
    ensures second { IfOk result (λ maps. seats_in maps.1 ≡ nobody) }
{
    let seat_map = SeatMap::new(alloc)?;
    match SeatMap::new(alloc) {
        Ok(resumed) => Ok((seat_map, resumed)),
        Err(error) => {
            drop(seat_map);
            Err(error)
        }
    }
}

// The first so many accounts of the centre.
fn first_accounts(centre: &Centre, count: usize) -> Result<Vec<CentreAccount>, StartError>
    ensures { IfOk result (λ first. first.items ≡ take count (accounts_of centre.now)) }
{
    match centre.first_accounts(count) {
        Ok(first) => Ok(first),
        Err(_) => Err(StartError::NoMemory),
    }
}

impl<K: CentreStore + Drop, A: Archive + Drop> Service<K, A> {
    fn of(
        alloc: Global,
        keep: GroupKeep<K>,
        centre: Centre,
        seat_map: SeatMap,
        resumed: SeatMap,
        accounts: usize,
        board: Option<Arc<LinkBoard>>,
        cutoff: Arc<Cutoff>,
        errands: Errands<A>,
    ) -> Service<K, A>
        ensures keep { result.seated.machine.keep ≡ keep }
        ensures centre { result.seated.machine.centre ≡ centre }
        ensures seat_map { result.seated.seat_map ≡ seat_map }
        ensures resumed { result.resumed ≡ resumed }
        ensures accounts { result.accounts ≡ accounts }
        ensures errands { result.errands ≡ errands }
    {
        Service {
            seated: SeatedCentre {
                alloc,
                machine: CentreMachine::new(keep, centre),
                seat_map,
            },
            resumed,
            accounts,
            is_broken: false,
            shows: false,
            board,
            cutoff,
            errands,
        }
    }

    /// The service that starts with the rows of a keep and these accounts, with nobody at any seat. The keep was opened without accounts.
    /// Where there is a board, it puts on it how links are. Behind the cutoff it begins nothing. It does the errands whenever there is one.
    ///
    /// # Errors
    /// The store gave no rows, or they are not sound, or a growth was refused.
    pub fn start(
        alloc: Global,
        keep: K,
        accounts: Vec<CentreAccount>,
        board: Option<Arc<LinkBoard>>,
        cutoff: Arc<Cutoff>,
        errands: Errands<A>,
    ) -> Result<Service<K, A>, StartError>
        ensures served { IfOk result (λ service. (rows : RowsOf) → rows.setup.accounts ≡ accounts.items
            → IfHeld (bare rows) (K.state keep) (K.state (store_in service)) (IsServedBy K.state service (restarted rows nobody))) }
        ensures before { IfOk result (λ service. WasHonest (K.state keep) (K.state (store_in service))) }
        ensures errands { IfOk result (λ service. errands_of service ≡ errands) }
    {
        let Ok((seat_map, resumed)) = empty_maps(alloc) else {
            return Err(StartError::NoMemory);
        };
        let mut group = GroupKeep::over(alloc, keep);
        let centre = restarted_from(alloc, &mut group, accounts, &seat_map)?;
        let count = centre.account_count();
        Ok(Service::of(
            alloc, group, centre, seat_map, resumed, count, board, cutoff, errands,
        ))
    }

    /// Ends the service, and gives the keep of its rows, and the archive of what it forgot.
    pub(crate) fn into_parts(self) -> (K, A)
        ensures keep { result.0 ≡ store_in self }
        ensures archive { result.1 ≡ archive_in self }
    {
        let Service {
            seated,
            resumed,
            board,
            cutoff,
            errands,
            ..
        } = self;
        drop(resumed);
        drop(board);
        drop(cutoff);
        (seated.into_keep(), errands.into_archive())
    }

    // Puts down how the links are, where a step of the group asked for it and anybody looks.
    fn publish(&self) {
        if !self.shows {
            return;
        }
        if let Some(board) = &self.board {
            let seated = &self.seated;
            board.put(&shown_links::shown_links(&seated.machine.centre, &seated.seat_map));
        }
    }

    // Counts the cause by which a handset refuses something, and keeps of which message it refuses a part, where anybody looks. It is what the
    // handset said, whatever becomes of the group. The centre has not taken it yet, so that what is under way is what it answers.
    fn count_cause(&self, stimulus: &Stimulus<Job>) {
        let Some(board) = &self.board else {
            return;
        };
        let Stimulus::Job(seat, job) = stimulus else {
            return;
        };
        if matches!(job, Job::LinkUp { .. }) {
            board.begin_link(*seat);
        }
        if let Some(cause) = cause_told_by(stimulus) {
            board.count(*seat, cause);
        }
        let seated = &self.seated;
        if let Some(part) = part_refused(&seated.machine.centre, &seated.seat_map, stimulus) {
            board.put_refused(part);
        }
    }

    // The centre starts again with the rows of the store. What its group changed is let go, and the accounts that came in it.
    fn restart(&mut self) -> Result<(), StartError>
        ensures served { (r : Serving) → IfAwaited K.state r self.old self.new (OnOk result (IsServedBy K.state self.new r)) }
        ensures resumed { self.new.resumed ≡ self.old.resumed }
        ensures archive { archive_in self.new ≡ archive_in self.old }
        ensures keep { kept_by self.new ≡ kept_by self.old }
        ensures before { HasHonestStore K.state self.new → HasHonestStore K.state self.old }
    {
        let seated = &mut self.seated;
        let accounts = first_accounts(&seated.machine.centre, self.accounts)?;
        let keep = &mut seated.machine.keep;
        let centre = restarted_from(seated.alloc, keep, accounts, &self.resumed)?;
        put(&mut seated.machine.centre, centre);
        seated.seat_map.copy_from(&self.resumed);
        Ok(())
    }
}

impl<K: CentreStore + Drop, A: Archive + Drop> Machine<Job, Reply> for Service<K, A> {
    type State = Served;

    ghost stands = { λ m s r. IsRunning K.state A.keeps m s r };

    ghost resumes = { λ m r. IsAwaitedBy K.state m r.serving × HasArchived A.keeps m r.gone × (kept_by m ≡ r.kept) };

    ghost fails_as = { λ m r. IsRefusedBy m r.serving × HasArchived A.keeps m r.gone × (kept_by m ≡ r.kept) };

    ghost is_honest = { λ m. HasHonestStore K.state m };

    ghost is_broken = { λ m. IsBroken m };

    ghost refuses = { λ before after. OneRefused (refusals_of before) (refusals_of after) };

    ghost gives = { λ s stimulus fate. gives s stimulus fate };

    ghost after = { λ s stimulus fate. after s stimulus fate };

    // No message is forgotten before its time, and no walk goes on before it is due.
    fn errand(&self, now: Moment) -> Option<Errand>
        ensures { IfSome result (Spares (kept_by self.now) (due_in self.now) now) }
    {
        self.errands.next(now)
    }

    fn step(&mut self, stimulus: &Stimulus<Job>) -> Step<Reply> {
        let asked = asked_by(&self.seated.seat_map, stimulus);
        let if_refused = refused_with_group(&mut self.resumed, stimulus);
        let is_late = self.cutoff.is_past();
        let next = walks_to(&self.seated.machine.centre, stimulus);
        let rest = rest_behind(&self.seated.machine.centre);
        self.count_cause(stimulus);
        let archive = &mut self.errands.archive;
        let Made { fate, outs, told } = self.seated.answer(&asked, stimulus, archive, is_late);
        self.errands.note(stimulus, fate, told, next, rest);
        self.shows = shown_links::are_shown_after(self.shows, stimulus);
        Step {
            fate,
            outs,
            if_refused,
        }
    }

    fn settle<G: Gate>(&mut self, gate: &G) -> Result<(), Unsettled> {
        match self.seated.machine.flush(gate) {
            Ok(()) => {
                self.resumed.copy_from(&self.seated.seat_map);
                self.accounts = self.seated.machine.centre.account_count();
                self.publish();
                self.shows = false;
                self.errands.tell(true);
                Ok(())
            }
            Err(_) => Err(Unsettled),
        }
    }

    fn reopen(&mut self) -> Result<(), Broken> {
        self.errands.tell(false);
        match self.restart() {
            Ok(()) => {
                self.is_broken = false;
                Ok(())
            }
            Err(_) => {
                self.is_broken = true;
                Err(Broken)
            }
        }
    }

    fn refuse(&mut self, stimulus: &Stimulus<Job>) -> Outs<Reply> {
        refused_with_group(&mut self.resumed, stimulus)
    }
}
