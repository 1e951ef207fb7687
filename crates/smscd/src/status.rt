//! The status page: a thread of its own, which shows a run to those who ask at a port of this machine.
//!
//! It reads numbers that the run counts and takes the events that the run leaves for it. It never opens the store: it
//! asks the system how long its files are.
use crate::ports::listen;
use sms_base::lending::put;
use sms_base::{MessageId, Moment, Octets};
use smsc_cli::words::VERSION;
use smsc_observer::{
    AccountCounts, Client, Event, Heard, Pending, Refusals, SeatTable, WaitingHandset,
};
use smsc_operation::account_names::AccountNames;
use smsc_operation::feed::{Source, is_of_messages};
use smsc_operation::lines::{cause_word, line_of, number_text, refusal_word};
use smsc_operation::moments::{now, text_of};
use smsc_operation::store_files::{StorePaths, octets_at};
use smsc_operation::summary::without;
use smsc_server::{link_lines, milliseconds};
use smsc_service::{CauseCount, LinkBoard};
use smsc_status::{
    AccountLine, LastCause, LinkLine, MessageCounts, MessageFigures, PendingMessage, RefusedBinds,
    RefusedDeliveries, RefusedSubmits, Sample, Series, SessionLine, StatusView, StoreFigures,
    StuckLine, Wanted, response_to,
};
use std::alloc::{AllocError, Global};
use std::collections::VecDeque;
use std::net::{TcpListener, TcpStream};
use std::sync::atomic::{AtomicBool, Ordering};
use std::sync::{Arc, Wait};
use std::time::{Clock, Duration};
use std::{io, thread};

// So many clients are served at once. Those beyond wait.
const MOST_CLIENTS: usize = 4;

// The page has so many events, and besides so many of messages, so that these leave room for what was refused.
const MOST_EVENTS: usize = 100;

const MOST_OF_MESSAGES: usize = 30;

// The page has so many handsets for which something waits.
const MOST_STUCK: usize = 20;

// So many events are taken in one turn.
const MOST_TAKEN: u32 = 4096;

// So many thousandths of a second lie between two turns: with a client, and without one.
const SHORT_PAUSE: u64 = 5;

const PAUSE: u64 = 50;

/// What a page says that does not change in a run.
#[derive(Drop)]
pub struct About {
    pub centre: String,
    pub start: Moment,
    /// The messages of the store as the run began.
    pub messages: MessageFigures,
    pub paths: StorePaths,
    /// The names of the accounts, by their places.
    pub names: Arc<AccountNames>,
    pub links: Arc<LinkBoard>,
}

// What happened, and when.
#[derive(Clone, Copy)]
struct PastEvent {
    // Its place among all events.
    place: u64,
    moment: Moment,
    event: Event,
}

/// The thread of a status page.
#[derive(Drop)]
pub struct Pages<R> {
    host: HostRuntime,
    rt: R,
    listener: TcpListener,
    about: About,
    source: Source,
    table: SeatTable,
    series: Series,
    events: VecDeque<PastEvent>,
    of_messages: VecDeque<PastEvent>,
    // How many events were taken.
    taken: u64,
    clients: Vec<Option<Client>>,
    // The next client, where each place is taken.
    waiting: Option<TcpStream>,
    files: StoreFigures,
    // The second that began last.
    second: u64,
    over: Arc<AtomicBool>,
}

fn no_clients(alloc: Global) -> Result<Vec<Option<Client>>, AllocError> {
    let mut clients = Vec::with_capacity(alloc, MOST_CLIENTS)?;
    for _ in 0..MOST_CLIENTS {
        clients.push(None)?;
    }
    Ok(clients)
}

fn listen_at(host: &HostRuntime, port: u16) -> io::Result<TcpListener> {
    let listener = listen(host, port)?;
    listener.set_nonblocking(true)?;
    Ok(listener)
}

/// Listens at the port.
pub fn open<R: Clock + Copy>(
    host: HostRuntime,
    rt: R,
    port: u16,
    about: About,
    source: Source,
    over: Arc<AtomicBool>,
) -> io::Result<Pages<R>> {
    let alloc = host.alloc();
    let listener = listen_at(&host, port)?;
    let table = SeatTable::new(alloc)?;
    let series = Series::new(alloc)?;
    let clients = no_clients(alloc)?;
    Ok(Pages {
        host,
        rt,
        listener,
        about,
        source,
        table,
        series,
        events: VecDeque::new(alloc),
        of_messages: VecDeque::new(alloc),
        taken: 0,
        clients,
        waiting: None,
        files: StoreFigures { file: 0, log: 0 },
        second: 0,
        over,
    })
}

fn timed(alloc: Global, moment: Moment, text: &str) -> Result<String, AllocError> {
    let time = text_of(alloc, moment)?;
    Ok(format!(in alloc; "{time} {text}")?)
}

// The oldest message that is pending.
#[derive(Drop)]
struct Oldest {
    id: MessageId,
    handset: String,
    submitted: Moment,
}

// What a page lists.
#[derive(Drop)]
struct Lists {
    sessions: Vec<SessionLine>,
    links: Vec<LinkLine>,
    stuck: Vec<StuckLine>,
    oldest: Option<Oldest>,
    accounts: Vec<AccountLine>,
    refused_submits: Vec<RefusedSubmits>,
    refused_binds: Vec<RefusedBinds>,
    refused_deliveries: Vec<RefusedDeliveries>,
    samples: Vec<Sample>,
    lines: Vec<String>,
}

impl Lists {
    fn new(alloc: Global) -> Lists {
        Lists {
            sessions: Vec::new(alloc),
            links: Vec::new(alloc),
            stuck: Vec::new(alloc),
            oldest: None,
            accounts: Vec::new(alloc),
            refused_submits: Vec::new(alloc),
            refused_binds: Vec::new(alloc),
            refused_deliveries: Vec::new(alloc),
            samples: Vec::new(alloc),
            lines: Vec::new(alloc),
        }
    }
}

// ---- what is stuck

fn link_of<'a>(links: &'a [LinkLine], handset: &str) -> Option<&'a LinkLine> {
    links.iter().find(|link| link.handset.as_str() == handset)
}

fn cause_of(board: &LinkBoard, link: Option<&LinkLine>) -> Option<LastCause> {
    let cause = board.last_cause(link?.seat)?;
    Some(LastCause {
        cause,
        reason: cause_word(cause),
    })
}

// When something is offered next over the link, if there is one; none where the handset has no memory.
fn due_of(due: Moment, link: Option<&LinkLine>) -> Option<Moment> {
    match link {
        Some(link) if !link.is_full => Some(due),
        _ => None,
    }
}

fn stuck_line(
    alloc: Global,
    board: &LinkBoard,
    links: &[LinkLine],
    waiting: &WaitingHandset,
) -> Result<StuckLine, AllocError> {
    let handset = number_text(alloc, &waiting.handset)?;
    let link = link_of(links, handset.as_str());
    let is_linked = link.is_some();
    let cause = cause_of(board, link);
    let due = due_of(waiting.due, link);
    Ok(StuckLine {
        handset,
        waiting: waiting.waiting,
        since: waiting.since,
        failed: u64::from(waiting.failed),
        is_linked,
        cause,
        due,
    })
}

fn stuck_lines(
    alloc: Global,
    board: &LinkBoard,
    links: &[LinkLine],
    handsets: &[WaitingHandset],
) -> Result<Vec<StuckLine>, AllocError> {
    let mut lines = Vec::new(alloc);
    for waiting in handsets {
        lines.push(stuck_line(alloc, board, links, waiting)?)?;
    }
    Ok(lines)
}

fn oldest_of(alloc: Global, pending: Option<Pending>) -> Result<Option<Oldest>, AllocError> {
    let Some(pending) = pending else {
        return Ok(None);
    };
    let handset = number_text(alloc, &pending.handset)?;
    Ok(Some(Oldest {
        id: pending.id,
        handset,
        submitted: pending.submitted,
    }))
}

fn shown_oldest(oldest: &Option<Oldest>) -> Option<PendingMessage<'_>> {
    match oldest {
        Some(oldest) => Some(PendingMessage {
            id: oldest.id,
            handset: oldest.handset.as_str(),
            submitted: oldest.submitted,
        }),
        None => None,
    }
}

// ---- what was refused

// The name of the account at this place; no characters for none.
fn name_of(alloc: Global, names: &AccountNames, account: Option<u8>) -> Result<String, AllocError> {
    let mut text = String::new(alloc);
    if let Some(place) = account {
        if let Some(name) = names.at(usize::from(place)) {
            text.push_str(name)?;
        }
    }
    Ok(text)
}

fn put_accounts(
    alloc: Global,
    names: &AccountNames,
    accounts: &[AccountCounts],
    lines: &mut Vec<AccountLine>,
) -> Result<(), AllocError> {
    for counts in accounts {
        lines.push(AccountLine {
            account: name_of(alloc, names, Some(counts.account))?,
            submits: counts.submits,
            receipts: counts.receipts,
        })?;
    }
    Ok(())
}

fn put_submits(
    alloc: Global,
    names: &AccountNames,
    refusals: &[Refusals],
    lines: &mut Vec<RefusedSubmits>,
) -> Result<(), AllocError> {
    for refused in refusals {
        lines.push(RefusedSubmits {
            account: name_of(alloc, names, refused.account)?,
            status: refused.status,
            count: refused.count,
        })?;
    }
    Ok(())
}

// One more kind of refused binds: several statuses may have one reason.
fn put_bind(
    reason: &'static str,
    count: u64,
    lines: &mut Vec<RefusedBinds>,
) -> Result<(), AllocError> {
    for line in lines.iter_mut() {
        if line.reason == reason {
            line.count = line.count.saturating_add(count);
            return Ok(());
        }
    }
    lines.push(RefusedBinds { reason, count })?;
    Ok(())
}

fn put_binds(refusals: &[Refusals], lines: &mut Vec<RefusedBinds>) -> Result<(), AllocError> {
    for refused in refusals {
        put_bind(refusal_word(refused.status), refused.count, lines)?;
    }
    Ok(())
}

fn put_deliveries(
    causes: &[CauseCount],
    lines: &mut Vec<RefusedDeliveries>,
) -> Result<(), AllocError> {
    for refused in causes {
        lines.push(RefusedDeliveries {
            cause: refused.cause,
            reason: cause_word(refused.cause),
            count: refused.count,
        })?;
    }
    Ok(())
}

// ---- what happened

impl<R: Wait + Clock> Pages<R> {
    fn moment(&self) -> Moment {
        match now(&self.host) {
            Some(moment) => moment,
            None => self.about.start,
        }
    }

    fn text_of_event(&self, event: &Event, moment: Moment) -> Result<Option<String>, AllocError> {
        let alloc = self.host.alloc();
        match line_of(alloc, &*self.about.names, event)? {
            Some(line) => Ok(Some(timed(alloc, moment, line.text.as_str())?)),
            None => Ok(None),
        }
    }

    // One more event of a message. The oldest of these makes room for it.
    fn note_of_message(
        &mut self,
        place: u64,
        event: &Event,
        moment: Moment,
    ) -> Result<(), AllocError> {
        if self.of_messages.len() >= MOST_OF_MESSAGES {
            let _ = self.of_messages.pop_front();
        }
        self.of_messages.push_back(PastEvent {
            place,
            moment,
            event: *event,
        })?;
        Ok(())
    }

    // One more event of another kind. The oldest of these makes room for it.
    fn note_other(&mut self, place: u64, event: &Event, moment: Moment) -> Result<(), AllocError> {
        if self.events.len() >= MOST_EVENTS {
            let _ = self.events.pop_front();
        }
        self.events.push_back(PastEvent {
            place,
            moment,
            event: *event,
        })?;
        Ok(())
    }

    // One more event, behind all others.
    fn note(&mut self, event: &Event, moment: Moment) -> Result<(), AllocError> {
        let place = self.taken.saturating_add(1);
        self.taken = place;
        if is_of_messages(event) {
            self.note_of_message(place, event, moment)
        } else {
            self.note_other(place, event, moment)
        }
    }

    fn put_line(&self, past: &PastEvent, lines: &mut Vec<String>) -> Result<(), AllocError> {
        match self.text_of_event(&past.event, past.moment)? {
            Some(text) => {
                lines.push(text)?;
                Ok(())
            }
            None => Ok(()),
        }
    }

    // The last events, the oldest first.
    fn past_events(&self) -> Result<Vec<PastEvent>, AllocError> {
        let mut events = Vec::new(self.host.alloc());
        for past in self.events.iter() {
            events.push(*past)?;
        }
        for past in self.of_messages.iter() {
            events.push(*past)?;
        }
        events.sort_by_key(|past| past.place)?;
        Ok(events)
    }

    // The lines of the last events, the oldest first.
    fn put_lines(&self, lines: &mut Vec<String>) -> Result<(), AllocError> {
        let events = self.past_events()?;
        for past in events.iter() {
            self.put_line(past, lines)?;
        }
        Ok(())
    }

    fn take(&mut self, event: &Event, moment: Moment) {
        self.table.take(event, moment);
        if self.note(event, moment).is_err() {
            self.source.lost.fetch_add(1, Ordering::SeqCst);
        }
    }

    fn take_all(&mut self, moment: Moment) {
        for _ in 0..MOST_TAKEN {
            let Ok(event) = self.source.seats.try_recv(&self.rt) else {
                break;
            };
            self.take(&event, moment);
        }
        self.take_messages(moment);
        for _ in 0..MOST_TAKEN {
            let Ok(event) = self.source.others.try_recv(&self.rt) else {
                break;
            };
            self.take(&event, moment);
        }
    }

    fn take_messages(&mut self, moment: Moment) {
        for _ in 0..MOST_TAKEN {
            let Ok(event) = self.source.messages.try_recv(&self.rt) else {
                return;
            };
            self.take(&event, moment);
        }
    }

    // A second has ended, if one has.
    fn tick(&mut self, now: u64) {
        let second = now / 1000;
        if second == self.second {
            return;
        }
        self.second = second;
        let counts = self.source.counters.messages();
        let commits = self.source.counters.commits().count();
        self.series.end_second(&counts, commits);
        self.files = StoreFigures {
            file: octets_at(&self.host, self.about.paths.file.as_str()),
            log: octets_at(&self.host, self.about.paths.log.as_str()),
        };
    }
}

// ---- clients

impl<R: Wait + Clock> Pages<R> {
    fn sessions(&self) -> Result<Vec<SessionLine>, AllocError> {
        let alloc = self.host.alloc();
        let names = self.about.names.all(alloc)?;
        let counters = &*self.source.counters;
        let sessions = self.table.sessions(alloc, names.as_slice(), counters);
        drop(names);
        sessions
    }

    fn put_seats(&self, lists: &mut Lists) -> Result<(), AllocError> {
        let alloc = self.host.alloc();
        put(&mut lists.sessions, self.sessions()?);
        let mut links = link_lines(alloc, &self.table, &self.about.links)?;
        // Those for whom most waits come first.
        links.sort_by_key(|link| u64::MAX - link.waiting)?;
        put(&mut lists.links, links);
        Ok(())
    }

    fn put_pending(&self, lists: &mut Lists) -> Result<(), AllocError> {
        let alloc = self.host.alloc();
        let pending = &*self.source.pending;
        let handsets = pending.most(&self.rt, alloc, MOST_STUCK)?;
        let board = &self.about.links;
        let stuck = stuck_lines(alloc, board, lists.links.as_slice(), handsets.as_slice())?;
        put(&mut lists.stuck, stuck);
        let oldest = oldest_of(alloc, pending.oldest(&self.rt))?;
        put(&mut lists.oldest, oldest);
        Ok(())
    }

    fn put_lists(&self, lists: &mut Lists) -> Result<(), AllocError> {
        let alloc = self.host.alloc();
        let names = &*self.about.names;
        let counters = &*self.source.counters;
        self.put_seats(lists)?;
        self.put_pending(lists)?;
        let accounts = counters.accounts(alloc)?;
        put_accounts(alloc, names, accounts.as_slice(), &mut lists.accounts)?;
        let submits = counters.submits_refused(alloc)?;
        put_submits(alloc, names, submits.as_slice(), &mut lists.refused_submits)?;
        let binds = counters.binds_refused(alloc)?;
        put_binds(binds.as_slice(), &mut lists.refused_binds)?;
        let causes = self.about.links.causes(alloc)?;
        put_deliveries(causes.as_slice(), &mut lists.refused_deliveries)?;
        put(&mut lists.samples, self.series.samples(alloc)?);
        self.put_lines(&mut lists.lines)
    }

    // The messages of the store: those that the run forgot are gone.
    fn stored(&self, counts: &MessageCounts) -> MessageFigures {
        let all = self.about.messages.with(counts);
        without(&all, &self.source.gone.figures(&self.rt))
    }

    fn view<'a>(&'a self, lists: &'a Lists) -> StatusView<'a> {
        let counters = &*self.source.counters;
        let counts = counters.messages();
        StatusView {
            centre: self.about.centre.as_str(),
            version: VERSION,
            start: self.about.start,
            now: self.moment(),
            messages: self.stored(&counts),
            counts,
            sessions: lists.sessions.as_slice(),
            links: lists.links.as_slice(),
            stuck: lists.stuck.as_slice(),
            oldest: shown_oldest(&lists.oldest),
            accounts: lists.accounts.as_slice(),
            refused_submits: lists.refused_submits.as_slice(),
            refused_binds: lists.refused_binds.as_slice(),
            refused_deliveries: lists.refused_deliveries.as_slice(),
            samples: lists.samples.as_slice(),
            events: lists.lines.as_slice(),
            lost_events: self.source.lost.load(Ordering::SeqCst),
            lost_lines: self.source.lost_lines.load(Ordering::SeqCst),
            store: self.files,
            commits: counters.commits(),
            groups: counters.groups(),
        }
    }

    fn response(&self, wanted: Wanted) -> Result<Option<Octets>, AllocError> {
        let mut lists = Lists::new(self.host.alloc());
        self.put_lists(&mut lists)?;
        response_to(self.host.alloc(), wanted, &self.view(&lists))
    }

    // Hears a client, and makes its response once it has asked. Says whether it stays.
    fn hear(&self, client: &mut Client) -> bool {
        match client.hear() {
            Heard::Nothing => true,
            Heard::Left => false,
            Heard::Asked(wanted) => match self.response(wanted) {
                Ok(Some(octets)) => {
                    client.answer(octets);
                    true
                }
                Ok(None) | Err(_) => false,
            },
        }
    }

    fn attend(&self, client: &mut Client, now: u64) -> bool {
        if client.is_late(now, self.waiting.is_some()) {
            return false;
        }
        if !client.is_answered() && !self.hear(client) {
            return false;
        }
        client.send()
    }

    fn accept(&self) -> Option<TcpStream> {
        match self.listener.accept() {
            Ok((stream, _)) => Some(stream),
            Err(_) => None,
        }
    }

    // Takes the next client that waits, if there is one. Its time begins.
    fn next_client(&mut self, now: u64) -> Option<Client> {
        let stream = match self.waiting.take() {
            Some(stream) => stream,
            None => self.accept()?,
        };
        Client::new(self.host.alloc(), stream, now).ok()
    }

    fn has_place(&self) -> bool {
        for client in self.clients.iter() {
            if client.is_none() {
                return true;
            }
        }
        false
    }

    // Where each place is taken, it is seen whether somebody waits for one.
    fn see_next(&mut self) {
        if self.waiting.is_none() && !self.has_place() {
            let next = self.accept();
            put(&mut self.waiting, next);
        }
    }

    // Attends the client at this place, or takes one there.
    fn attend_at(&mut self, place: usize, now: u64) {
        if place >= self.clients.len() {
            return;
        }
        let client = match self.clients[place].take() {
            Some(client) => Some(client),
            None => self.next_client(now),
        };
        if let Some(client) = client {
            let mut client = client;
            if self.attend(&mut client, now) && place < self.clients.len() {
                put(&mut self.clients[place], Some(client));
            }
        }
    }

    fn has_clients(&self) -> bool {
        for client in self.clients.iter() {
            if client.is_some() {
                return true;
            }
        }
        false
    }

    fn turn(&mut self) {
        let now = milliseconds(&self.rt);
        self.tick(now);
        let moment = self.moment();
        self.take_all(moment);
        for place in 0..MOST_CLIENTS {
            self.attend_at(place, now);
        }
        self.see_next();
    }

    /// Shows the run to those who ask, until it has ended.
    pub fn serve_all(&mut self) {
        for _ in 0..u64::MAX {
            if self.over.load(Ordering::SeqCst) {
                return;
            }
            self.turn();
            let pause = if self.has_clients() {
                SHORT_PAUSE
            } else {
                PAUSE
            };
            thread::sleep(&self.host, Duration::from_millis(pause));
        }
    }
}
