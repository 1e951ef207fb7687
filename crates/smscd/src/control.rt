//! Orders of an operator, over a Unix socket that its owner alone may use.
//!
//! One thread reads all who are connected, in turns, so that nobody who says nothing holds up the others.
use crate::reloading::Reloader;
use sms_base::lending::put;
use sms_base::{FinalState, MessageId, Octets};
use smsc_operation::readiness;
use smsc_operation::run_fault::{Paths, RunFault};
use smsc_server::Orders;
use smsc_service::{Order, OrderOutcome};
use std::alloc::{AllocError, Global};
use std::fs::{self, Permissions};
use std::io::{self, Read, Write};
use std::os::fd::IntoRawFd;
use std::os::unix::fs::{FileTypeExt, PermissionsExt};
use std::os::unix::net::{UnixListener, UnixStream};
use std::sync::atomic::{AtomicBool, Ordering};
use std::sync::{Arc, Wait};
use std::thread;
use std::time::{Clock, Duration};
use thiserror::Error;

// So many thousandths of a second lie between two turns.
const PAUSE: u64 = 50;

// So many are connected at once. Those beyond wait to be accepted.
const MOST_CLIENTS: usize = 32;

// So many turns somebody may take to say what is ordered.
const MOST_TURNS: u32 = 40;

// A line has so many octets at most.
const MOST_OCTETS: usize = 64;

// And an answer.
const MOST_ANSWERED: usize = 1024;

// The answer to an order that is done.
const DONE: &[u8] = b"done\n";

/// What can be ordered.
#[derive(Clone, Copy, PartialEq, Eq)]
pub enum Command {
    /// The run ends in good order.
    Stop,
    /// The connection at the seat of this number ends.
    End(u32),
    /// The accounts' file is read again.
    Reload,
    /// What waits of the message of this number is due now.
    Retry(MessageId),
    /// The message of this number is deleted.
    Cancel(MessageId),
}

// ---- the server's side

// The octets before the first line feed, where there is one.
fn line_in(octets: &[u8]) -> Option<&[u8]> {
    let end = octets.iter().position(|octet| *octet == b'\n')?;
    octets.get(..end)
}

// What is ordered by the octets of a line.
fn command_of(octets: &[u8]) -> Option<Command> {
    let text = std::str::from_utf8(octets).ok()?;
    match text.trim_end() {
        "stop" => Some(Command::Stop),
        "reload" => Some(Command::Reload),
        line => numbered(line),
    }
}

// What a word and a number order.
fn numbered(line: &str) -> Option<Command> {
    let (word, number) = line.split_once(' ')?;
    match word {
        "end" => {
            let seat: u32 = number.parse().ok()?;
            Some(Command::End(seat))
        }
        "retry" => Some(Command::Retry(MessageId::read(number.as_bytes())?)),
        "cancel" => Some(Command::Cancel(MessageId::read(number.as_bytes())?)),
        _ => None,
    }
}

// Whether it is ordered of a message.
fn is_of_message(command: Option<Command>) -> bool {
    matches!(command, Some(Command::Retry(_) | Command::Cancel(_)))
}

// Puts what is ordered of a message. False where another order is not done yet.
fn put_order(orders: &Orders, command: Command) -> bool {
    match command {
        Command::Retry(id) => orders.order(Order::Retry, id),
        Command::Cancel(id) => orders.order(Order::Delete, id),
        Command::Stop | Command::End(_) | Command::Reload => true,
    }
}

// What is told to whoever ordered something of a message.
fn told_of(outcome: OrderOutcome) -> &'static [u8] {
    match outcome {
        OrderOutcome::Waits | OrderOutcome::Deleted | OrderOutcome::Enrolled => DONE,
        OrderOutcome::Ended(FinalState::Delivered) => b"smscd: the message was delivered\n",
        OrderOutcome::Ended(FinalState::Expired) => b"smscd: the message has expired\n",
        OrderOutcome::Ended(FinalState::Deleted) => b"smscd: the message was deleted\n",
        OrderOutcome::Ended(FinalState::Undeliverable) => b"smscd: the message was refused\n",
        OrderOutcome::HasEnded => b"smscd: the message has ended\n",
        OrderOutcome::Unknown => b"smscd: no message has that number\n",
        OrderOutcome::Failed => b"smscd: the centre has not done it\n",
    }
}

// Why the accounts' file changed nothing.
fn reload_text(alloc: Global, path: &str, fault: &RunFault) -> Result<String, AllocError> {
    fault.text(
        alloc,
        &Paths {
            store: "",
            accounts: path,
            secrets: "",
            control: "",
        },
    )
}

// Says how the accounts' file was taken over.
fn say_reloaded(
    alloc: Global,
    path: &str,
    ended: Result<(), RunFault>,
    stream: &mut UnixStream,
) -> bool {
    let Err(fault) = ended else {
        return stream.write_all(DONE).is_ok();
    };
    match reload_text(alloc, path, &fault) {
        Ok(text) => stream.write_all(text.as_str().as_bytes()).is_ok(),
        Err(_) => stream.write_all(b"smscd: out of memory\n").is_ok(),
    }
}

// Does what is ordered of the run itself, and gives the answer.
fn obey(host: &HostRuntime, orders: &Orders, command: Option<Command>) -> &'static [u8] {
    match command {
        Some(Command::Stop) => {
            orders.stop();
            readiness::tell(host, readiness::ENDS);
            DONE
        }
        Some(Command::End(seat)) if orders.end(seat as usize) => DONE,
        Some(Command::End(_)) => b"nobody is at that seat\n",
        Some(Command::Reload) => b"smscd: the run has no file of accounts\n",
        Some(Command::Retry(_) | Command::Cancel(_)) | None => b"no such order\n",
    }
}

// Whether the same may be tried again.
fn is_later(error: &io::Error) -> bool {
    matches!(
        error.kind(),
        io::ErrorKind::WouldBlock | io::ErrorKind::Interrupted
    )
}

// How far it is that the accounts' file is read again.
#[derive(Clone, Copy, PartialEq, Eq)]
enum Reloading {
    // Nobody ordered it.
    Nobody,
    // It waits until another one is done.
    Waits,
    // The file was read, and is being taken over.
    Runs,
}

// Who is connected.
#[derive(Drop)]
struct Client {
    stream: UnixStream,
    // What it said.
    received: Octets,
    // The turns that it had.
    turns: u32,
    // It ordered a stop, and waits for the end of the run.
    is_waiting: bool,
    // What it ordered of a message, until the centre takes that.
    order: Option<Command>,
    // The centre has its order, and it waits for the outcome.
    is_ordering: bool,
    // It ordered that the accounts' file is read again.
    reloading: Reloading,
}

// What was heard of somebody.
enum Heard {
    // No whole line yet.
    Nothing,
    // A line.
    Line,
    // Nobody is there any more.
    Left,
}

impl Client {
    fn new(alloc: Global, stream: UnixStream) -> io::Result<Client> {
        stream.set_nonblocking(true)?;
        Ok(Client {
            stream,
            received: Octets::new(alloc),
            turns: 0,
            is_waiting: false,
            order: None,
            is_ordering: false,
            reloading: Reloading::Nobody,
        })
    }

    fn take(&mut self, octets: &[u8]) -> Heard {
        if self.received.append(octets).is_err() {
            return Heard::Left;
        }
        let received = self.received.as_slice();
        if received.len() >= MOST_OCTETS || line_in(received).is_some() {
            Heard::Line
        } else {
            Heard::Nothing
        }
    }

    fn hear(&mut self) -> Heard {
        let mut room = [0u8; MOST_OCTETS];
        match self.stream.read(&mut room) {
            Ok(0) => Heard::Left,
            Ok(count) => self.take(&room[..count]),
            Err(error) if is_later(&error) => Heard::Nothing,
            Err(_) => Heard::Left,
        }
    }

    // What the line orders.
    fn command(&self) -> Option<Command> {
        command_of(line_in(self.received.as_slice())?)
    }

    // Does what the line orders. Only who ordered a stop stays.
    fn do_line<R: Wait + Clock>(
        &mut self,
        host: &HostRuntime,
        rt: &R,
        orders: &Orders,
        reloader: &mut Option<Reloader>,
    ) -> bool {
        let command = self.command();
        if is_of_message(command) {
            self.order = command;
            return self.pursue(orders);
        }
        match reloader {
            Some(reloader) if command == Some(Command::Reload) => {
                self.reloading = Reloading::Waits;
                self.pursue_reload(host, rt, orders, reloader)
            }
            _ => self.do_command(host, orders, command),
        }
    }

    // Reads the accounts' file once no other such order is under way. It stays until that is taken over, as accounts may have to come first.
    fn pursue_reload<R: Wait + Clock>(
        &mut self,
        host: &HostRuntime,
        rt: &R,
        orders: &Orders,
        reloader: &mut Reloader,
    ) -> bool {
        let ended = match self.reloading {
            Reloading::Runs => reloader.pursue(rt, orders),
            Reloading::Waits if reloader.is_busy() => None,
            Reloading::Waits | Reloading::Nobody => self.begin_reload(reloader),
        };
        match ended {
            Some(ended) => {
                let _ = say_reloaded(host.alloc(), reloader.path(), ended, &mut self.stream);
                false
            }
            None => true,
        }
    }

    fn begin_reload(&mut self, reloader: &mut Reloader) -> Option<Result<(), RunFault>> {
        self.reloading = Reloading::Runs;
        match reloader.begin() {
            Ok(()) => None,
            Err(fault) => Some(Err(fault)),
        }
    }

    // Puts what it ordered of a message, and tells the outcome. It stays until then, as the next order waits for that.
    fn pursue(&mut self, orders: &Orders) -> bool {
        if let Some(command) = self.order {
            if put_order(orders, command) {
                self.order = None;
                self.is_ordering = true;
            }
            return true;
        }
        match orders.outcome() {
            Some(outcome) => {
                let _ = self.stream.write_all(told_of(outcome));
                false
            }
            None => true,
        }
    }

    // Does what is ordered of the run itself.
    fn do_command(
        &mut self,
        host: &HostRuntime,
        orders: &Orders,
        command: Option<Command>,
    ) -> bool {
        let answer = obey(host, orders, command);
        self.is_waiting = command == Some(Command::Stop);
        self.stream.write_all(answer).is_ok() && self.is_waiting
    }

    fn has_time(&mut self) -> bool {
        self.turns = self.turns.saturating_add(1);
        self.turns < MOST_TURNS
    }

    // Attends it for a turn, and says whether it stays.
    fn attend<R: Wait + Clock>(
        &mut self,
        host: &HostRuntime,
        rt: &R,
        orders: &Orders,
        reloader: &mut Option<Reloader>,
    ) -> bool {
        if self.is_ordering || self.order.is_some() {
            return self.pursue(orders);
        }
        if self.reloading != Reloading::Nobody {
            return match reloader {
                Some(reloader) => self.pursue_reload(host, rt, orders, reloader),
                None => false,
            };
        }
        match self.hear() {
            Heard::Left => false,
            Heard::Line if !self.is_waiting => self.do_line(host, rt, orders, reloader),
            Heard::Line | Heard::Nothing => self.is_waiting || self.has_time(),
        }
    }

    // Who waits for the end of the run stays connected until the process has ended: the system ends the connection then.
    fn leave(self) {
        let Client {
            stream,
            is_waiting,
            ..
        } = self;
        if is_waiting {
            let _ = stream.into_raw_fd();
        }
    }
}

/// Who takes the orders.
#[derive(Drop)]
pub struct Control {
    host: HostRuntime,
    listener: UnixListener,
    path: String,
    clients: Vec<Option<Client>>,
    orders: Arc<Orders>,
    // Who reads the accounts' file again, where there is one.
    reloader: Option<Reloader>,
    over: Arc<AtomicBool>,
}

fn is_socket_or_free(host: &HostRuntime, path: &str) -> bool {
    match fs::symlink_metadata(host, path) {
        Ok(found) => found.file_type().is_socket(),
        Err(_) => true,
    }
}

// Refuses a place where somebody takes orders, or what is no socket.
fn judge_place(host: &HostRuntime, path: &str) -> io::Result<()> {
    if !is_socket_or_free(host, path) {
        return Err(io::Error::from(io::ErrorKind::AlreadyExists));
    }
    match UnixStream::connect(host, path) {
        Ok(_) => Err(io::Error::from(io::ErrorKind::AddrInUse)),
        Err(error) if is_nobody(&error) => Ok(()),
        Err(error) => Err(error),
    }
}

// Whether nothing is there, or a socket that a run has left.
fn is_nobody(error: &io::Error) -> bool {
    matches!(
        error.kind(),
        io::ErrorKind::NotFound | io::ErrorKind::ConnectionRefused
    )
}

fn make_private(host: &HostRuntime, listener: &UnixListener, path: &str) -> io::Result<()> {
    listener.set_nonblocking(true)?;
    fs::set_permissions(host, path, Permissions::from_mode(0o600))
}

fn listen_beside(host: &HostRuntime, beside: &str) -> io::Result<UnixListener> {
    let _ = fs::remove_file(host, beside);
    let listener = UnixListener::bind(host, beside)?;
    make_private(host, &listener, beside)?;
    Ok(listener)
}

// The socket is made beside its place, closed to others, and put there then. One that a run has left at either place is replaced.
fn listen_by(host: &HostRuntime, path: &str, beside: &str) -> io::Result<UnixListener> {
    judge_place(host, path)?;
    judge_place(host, beside)?;
    let listener = listen_beside(host, beside)?;
    fs::rename(host, beside, path)?;
    Ok(listener)
}

fn listen(host: &HostRuntime, path: &str) -> io::Result<UnixListener> {
    let beside = format!(in host.alloc(); "{path}.new")?;
    listen_by(host, path, beside.as_str())
}

fn owned(alloc: Global, text: &str) -> io::Result<String> {
    let mut own = String::new(alloc);
    own.push_str(text)?;
    Ok(own)
}

fn no_clients(alloc: Global) -> Result<Vec<Option<Client>>, AllocError> {
    let mut clients = Vec::with_capacity(alloc, MOST_CLIENTS)?;
    for _ in 0..MOST_CLIENTS {
        clients.push(None)?;
    }
    Ok(clients)
}

impl Control {
    /// Listens at the path.
    pub fn open(
        host: HostRuntime,
        path: &str,
        orders: Arc<Orders>,
        reloader: Option<Reloader>,
        over: Arc<AtomicBool>,
    ) -> io::Result<Control> {
        let clients = no_clients(host.alloc())?;
        let own = owned(host.alloc(), path)?;
        let listener = listen(&host, path)?;
        Ok(Control {
            host,
            listener,
            path: own,
            clients,
            orders,
            reloader,
            over,
        })
    }

    // Takes the next one that waits, if there is one.
    fn accept(&self) -> Option<Client> {
        match self.listener.accept() {
            Ok((stream, _)) => Client::new(self.host.alloc(), stream).ok(),
            Err(_) => None,
        }
    }

    // Takes the next one that waits to this place, if both are there. Says whether more may wait.
    fn accept_at(&mut self, place: usize) -> bool {
        if place >= self.clients.len() || self.clients[place].is_some() {
            return true;
        }
        match self.accept() {
            Some(client) => {
                put(&mut self.clients[place], Some(client));
                true
            }
            None => false,
        }
    }

    fn accept_all(&mut self) {
        for place in 0..MOST_CLIENTS {
            if !self.accept_at(place) {
                return;
            }
        }
    }

    // Attends the one at this place, if somebody is there.
    fn attend_at<R: Wait + Clock>(&mut self, rt: &R, place: usize) {
        if place >= self.clients.len() {
            return;
        }
        if let Some(client) = self.clients[place].take() {
            let mut client = client;
            if client.attend(&self.host, rt, &self.orders, &mut self.reloader) {
                put(&mut self.clients[place], Some(client));
            }
        }
    }

    // Nobody is attended any more.
    fn leave_at(&mut self, place: usize) {
        if place >= self.clients.len() {
            return;
        }
        if let Some(client) = self.clients[place].take() {
            client.leave();
        }
    }

    fn turn<R: Wait + Clock>(&mut self, rt: &R) {
        self.accept_all();
        for place in 0..MOST_CLIENTS {
            self.attend_at(rt, place);
        }
    }

    fn end(&mut self) {
        let _ = fs::remove_file(&self.host, self.path.as_str());
        for place in 0..MOST_CLIENTS {
            self.leave_at(place);
        }
    }

    /// Takes orders until the run has ended.
    pub fn attend_all<R: Wait + Clock>(&mut self, rt: &R) {
        for _ in 0..u64::MAX {
            if self.over.load(Ordering::SeqCst) {
                self.end();
                return;
            }
            self.turn(rt);
            thread::sleep(&self.host, Duration::from_millis(PAUSE));
        }
    }
}

// ---- the side of who orders

/// Why an order was not done.
#[derive(Debug, Drop, Error)]
pub enum OrderFault {
    /// Nobody takes orders there.
    #[error("{0}")]
    Nobody(io::Error),
    /// The server refused it, and said this.
    #[error("{0}")]
    Refused(String),
    /// The run has not ended in time.
    #[error("the run has not ended")]
    NotEnded,
}

fn words_of(host: &HostRuntime, command: Command) -> Result<String, AllocError> {
    let alloc = host.alloc();
    match command {
        Command::Stop => Ok(format!(in alloc; "stop\n")?),
        Command::End(seat) => Ok(format!(in alloc; "end {seat}\n")?),
        Command::Reload => Ok(format!(in alloc; "reload\n")?),
        Command::Retry(id) => message_words(alloc, "retry", id),
        Command::Cancel(id) => message_words(alloc, "cancel", id),
    }
}

fn message_words(alloc: Global, word: &str, id: MessageId) -> Result<String, AllocError> {
    let digits = id.digits();
    let number = std::str::from_utf8(&digits).unwrap_or("");
    Ok(format!(in alloc; "{word} {number}\n")?)
}

fn tell(host: &HostRuntime, stream: &mut UnixStream, command: Command) -> io::Result<()> {
    let words = words_of(host, command)?;
    stream.write_all(words.as_str().as_bytes())
}

// What the server says, where that is not that the order is done.
fn refusal_in(alloc: Global, stream: &mut UnixStream) -> io::Result<Option<String>> {
    let mut room = [0u8; MOST_ANSWERED];
    let count = stream.read(&mut room)?;
    if count == 0 {
        return Err(io::Error::from(io::ErrorKind::UnexpectedEof));
    }
    let answer = &room[..count];
    if answer.starts_with(DONE) {
        return Ok(None);
    }
    let text = std::str::from_utf8(answer).unwrap_or("smscd: the order was not done\n");
    Ok(Some(owned(alloc, text)?))
}

// Waits until the server is gone.
fn wait_for_end(stream: &mut UnixStream) -> Result<(), OrderFault> {
    let mut room = [0u8; 64];
    match stream.read(&mut room) {
        Err(error) if is_later(&error) => Err(OrderFault::NotEnded),
        Ok(_) | Err(_) => Ok(()),
    }
}

fn ask(host: &HostRuntime, path: &str, command: Command, wait: u32) -> io::Result<UnixStream> {
    let mut stream = UnixStream::connect(host, path)?;
    stream.set_read_timeout(Some(Duration::from_secs(u64::from(wait.max(1)))))?;
    tell(host, &mut stream, command)?;
    Ok(stream)
}

fn take_answer(alloc: Global, stream: UnixStream, waits: bool) -> Result<(), OrderFault> {
    let mut stream = stream;
    match refusal_in(alloc, &mut stream) {
        Ok(None) if waits => wait_for_end(&mut stream),
        Ok(None) => Ok(()),
        Ok(Some(text)) => Err(OrderFault::Refused(text)),
        Err(error) if waits && is_later(&error) => Err(OrderFault::NotEnded),
        Err(error) => Err(OrderFault::Nobody(error)),
    }
}

/// Orders this of the server that takes orders at the path. A stop is done once the run has ended: it is waited for so many seconds. Where
/// that is none, it is done once the server was told.
pub fn order(
    host: &HostRuntime,
    path: &str,
    command: Command,
    wait: u32,
) -> Result<(), OrderFault> {
    match ask(host, path, command, wait) {
        Ok(stream) => take_answer(host.alloc(), stream, command == Command::Stop && wait > 0),
        Err(error) => Err(OrderFault::Nobody(error)),
    }
}
