//! The figures in JSON (RFC 8259).
ghost use Rattle.std.specs.Prelude.{◌≡◌, ◌++◌, ℕ, List, IfOk, OnOk, string_bytes};
ghost use Rattle.smsc_status.specs.Commits.{IsQuantile};
ghost use Rattle.smsc_status.specs.Json.{account_text, array_end, array_start, array_text, comma, commits_text, counts_text, elements};
ghost use Rattle.smsc_status.specs.Json.{first_places, json_text, last_place};
ghost use Rattle.smsc_status.specs.Json.{link_text, lists_text, lost_text, messages_text, place_text, refusals_text, refused_binds_text};
ghost use Rattle.smsc_status.specs.Json.{refused_deliveries_text, refused_submits_text, run_text};
ghost use Rattle.smsc_status.specs.Json.{due_text, last_cause_text, moment_string, oldest_text, pending_text, refusal_text, stuck_counts, stuck_line};
ghost use Rattle.smsc_status.specs.Json.{stuck_text, whose_text};
ghost use Rattle.smsc_status.specs.Json.{sample_text, session_text, store_text, truth_text};
ghost use Rattle.smsc_status.specs.Quoting.{string};
ghost use Rattle.smsc_status.specs.declared.commits.Quantile.{Quantile as QuantileOf};

use crate::commits::{CommitFigures, LIMITS, Quantile};
use crate::figures::{
    AccountLine, LastCause, LinkLine, MessageCounts, MessageFigures, PendingMessage, RefusedBinds,
    RefusedDeliveries, RefusedSubmits, Sample, SessionLine, StatusView, StoreFigures, StuckLine,
};
use crate::numbers::put_id;
use crate::pieces::{Piece, put_pieces};
use crate::quoting::put_string;
use sms_base::{Moment, Octets};
use std::alloc::{AllocError, Global};

// ---- arrays

#[tactic(auto, unfolding(crate::specs::Json::array_start))]
fn begin_array(out: &mut Octets, name: &[u8]) -> Result<(), AllocError>
    ensures { OnOk result (out.new ≡ out.old ++ array_start name.now) }
{
    put_pieces(
        out,
        &[Piece::Text(b",\""), Piece::Text(name), Piece::Text(b"\":[")],
    )
}

#[tactic(auto, unfolding(crate::specs::Json::array_end))]
fn end_array(out: &mut Octets) -> Result<(), AllocError>
    ensures { OnOk result (out.new ≡ out.old ++ array_end) }
{
    out.append(b"]")
}

// What precedes an element of an array: a comma, but for the first.
fn comma_before(place: usize) -> &'static [u8]
    ensures { result.now ≡ comma place }
{
    if place > 0 { b"," } else { b"" }
}

/// What may be an element of an array.
pub(crate) trait Element {
    ghost text: { Self → List ℕ };

    /// Puts its text behind what is there.
    fn put(&self, out: &mut Octets) -> Result<(), AllocError>
        ensures { OnOk result (out.new ≡ out.old ++ text self.now) };
}

fn put_element<T: Element>(out: &mut Octets, before: &[u8], element: &T) -> Result<(), AllocError>
    ensures { OnOk result (out.new ≡ out.old ++ (before.now ++ T.text element.now)) }
{
    out.append(before)?;
    element.put(out)
}

#[tactic(auto, using(crate::proofs::Elements::one_more, crate::proofs::Elements::none_left))]
fn put_elements<T: Element>(out: &mut Octets, list: &[T]) -> Result<(), AllocError>
    ensures { OnOk result (out.new ≡ out.old ++ elements T.text list.now) }
{
    for i in 0..list.len() {
        put_element(out, comma_before(i), &list[i])?;
    }
    Ok(())
}

#[tactic(auto, unfolding(crate::specs::Json::array_text))]
fn put_array<T: Element>(out: &mut Octets, name: &[u8], list: &[T]) -> Result<(), AllocError>
    ensures { OnOk result (out.new ≡ out.old ++ array_text name.now T.text list.now) }
{
    begin_array(out, name)?;
    put_elements(out, list)?;
    end_array(out)
}

// ---- the run and its messages

#[tactic(auto, unfolding(crate::specs::Json::run_text))]
fn put_run(out: &mut Octets, view: &StatusView<'_>) -> Result<(), AllocError>
    ensures { OnOk result (out.new ≡ out.old ++ run_text view.entry.now) }
{
    put_pieces(
        out,
        &[
            Piece::Text(b"{\"centre\":"),
            Piece::Quoted(view.centre.as_bytes()),
            Piece::Text(b",\"version\":"),
            Piece::Quoted(view.version.trim_end().as_bytes()),
            Piece::Text(b",\"start\":\""),
            Piece::Moment(view.start),
            Piece::Text(b"\",\"now\":\""),
            Piece::Moment(view.now),
            Piece::Text(b"\""),
        ],
    )
}

#[tactic(auto, unfolding(crate::specs::Json::messages_text))]
fn put_messages(out: &mut Octets, messages: &MessageFigures) -> Result<(), AllocError>
    ensures { OnOk result (out.new ≡ out.old ++ messages_text messages.now) }
{
    put_pieces(
        out,
        &[
            Piece::Text(b",\"messages\":{\"enroute\":"),
            Piece::Number(messages.enroute),
            Piece::Text(b",\"delivered\":"),
            Piece::Number(messages.delivered),
            Piece::Text(b",\"expired\":"),
            Piece::Number(messages.expired),
            Piece::Text(b",\"deleted\":"),
            Piece::Number(messages.deleted),
            Piece::Text(b",\"undeliverable\":"),
            Piece::Number(messages.undeliverable),
            Piece::Text(b"}"),
        ],
    )
}

#[tactic(auto, unfolding(crate::specs::Json::counts_text))]
fn put_counts(out: &mut Octets, counts: &MessageCounts) -> Result<(), AllocError>
    ensures { OnOk result (out.new ≡ out.old ++ counts_text counts.now) }
{
    put_pieces(
        out,
        &[
            Piece::Text(b",\"since_start\":{\"accepted\":"),
            Piece::Number(counts.accepted),
            Piece::Text(b",\"delivered\":"),
            Piece::Number(counts.delivered),
            Piece::Text(b",\"expired\":"),
            Piece::Number(counts.expired),
            Piece::Text(b",\"deleted\":"),
            Piece::Number(counts.deleted),
            Piece::Text(b",\"undeliverable\":"),
            Piece::Number(counts.undeliverable),
            Piece::Text(b"}"),
        ],
    )
}

impl Element for Sample {
    ghost text = { sample_text };

    #[tactic(auto, unfolding(crate::specs::Json::sample_text))]
    fn put(&self, out: &mut Octets) -> Result<(), AllocError> {
        put_pieces(
            out,
            &[
                Piece::Text(b"["),
                Piece::Number(self.submissions),
                Piece::Text(b","),
                Piece::Number(self.deliveries),
                Piece::Text(b","),
                Piece::Number(self.commits),
                Piece::Text(b"]"),
            ],
        )
    }
}

// ---- sessions and links

impl Element for SessionLine {
    ghost text = { session_text };

    #[tactic(auto, unfolding(crate::specs::Json::session_text))]
    fn put(&self, out: &mut Octets) -> Result<(), AllocError> {
        put_pieces(
            out,
            &[
                Piece::Text(b"{\"seat\":"),
                Piece::Number(self.seat as u64),
                Piece::Text(b",\"account\":"),
                Piece::Quoted(self.account.as_bytes()),
                Piece::Text(b",\"kind\":\""),
                Piece::Text(self.kind.word().as_bytes()),
                Piece::Text(b"\",\"since\":\""),
                Piece::Moment(self.since),
                Piece::Text(b"\",\"submits\":"),
                Piece::Number(self.submits),
                Piece::Text(b",\"receipts\":"),
                Piece::Number(self.receipts),
                Piece::Text(b",\"window\":"),
                Piece::Number(self.window),
                Piece::Text(b"}"),
            ],
        )
    }
}

fn truth(is_so: bool) -> &'static [u8]
    ensures { result.now ≡ truth_text is_so }
{
    if is_so { b"true" } else { b"false" }
}

impl Element for LinkLine {
    ghost text = { link_text };

    #[tactic(auto, unfolding(crate::specs::Json::link_text))]
    fn put(&self, out: &mut Octets) -> Result<(), AllocError> {
        put_pieces(
            out,
            &[
                Piece::Text(b"{\"seat\":"),
                Piece::Number(self.seat as u64),
                Piece::Text(b",\"handset\":"),
                Piece::Quoted(self.handset.as_bytes()),
                Piece::Text(b",\"since\":\""),
                Piece::Moment(self.since),
                Piece::Text(b"\",\"waiting\":"),
                Piece::Number(self.waiting),
                Piece::Text(b",\"full\":"),
                Piece::Text(truth(self.is_full)),
                Piece::Text(b",\"under_way\":"),
                Piece::Text(truth(self.is_under_way)),
                Piece::Text(b"}"),
            ],
        )
    }
}

#[tactic(auto, unfolding(crate::specs::Json::lists_text))]
fn put_lists(out: &mut Octets, view: &StatusView<'_>) -> Result<(), AllocError>
    ensures { OnOk result (out.new ≡ out.old ++ lists_text view.entry.now) }
{
    put_array(out, b"seconds", view.samples)?;
    put_array(out, b"sessions", view.sessions)?;
    put_array(out, b"links", view.links)
}

// ---- what is stuck

#[tactic(auto, unfolding(crate::specs::Json::refusal_text))]
fn put_refusal(out: &mut Octets, cause: LastCause) -> Result<(), AllocError>
    ensures { OnOk result (out.new ≡ out.old ++ refusal_text cause) }
{
    put_pieces(
        out,
        &[
            Piece::Text(b"{\"cause\":"),
            Piece::Number(cause.cause as u64),
            Piece::Text(b",\"reason\":\""),
            Piece::Text(cause.reason.as_bytes()),
            Piece::Text(b"\"}"),
        ],
    )
}

fn put_last_cause(out: &mut Octets, cause: Option<LastCause>) -> Result<(), AllocError>
    ensures { OnOk result (out.new ≡ out.old ++ last_cause_text cause) }
{
    match cause {
        Some(cause) => put_refusal(out, cause),
        None => out.append(b"null"),
    }
}

#[tactic(auto, unfolding(crate::specs::Json::moment_string))]
fn put_moment_string(out: &mut Octets, moment: Moment) -> Result<(), AllocError>
    ensures { OnOk result (out.new ≡ out.old ++ moment_string moment) }
{
    put_pieces(
        out,
        &[
            Piece::Text(b"\""),
            Piece::Moment(moment),
            Piece::Text(b"\""),
        ],
    )
}

fn put_due(out: &mut Octets, due: Option<Moment>) -> Result<(), AllocError>
    ensures { OnOk result (out.new ≡ out.old ++ due_text due) }
{
    match due {
        Some(due) => put_moment_string(out, due),
        None => out.append(b"null"),
    }
}

#[tactic(auto, unfolding(crate::specs::Json::stuck_counts))]
fn put_stuck_counts(out: &mut Octets, line: &StuckLine) -> Result<(), AllocError>
    ensures { OnOk result (out.new ≡ out.old ++ stuck_counts line.now) }
{
    put_pieces(
        out,
        &[
            Piece::Text(b"{\"handset\":"),
            Piece::Quoted(line.handset.as_bytes()),
            Piece::Text(b",\"waiting\":"),
            Piece::Number(line.waiting),
            Piece::Text(b",\"since\":\""),
            Piece::Moment(line.since),
            Piece::Text(b"\",\"failed\":"),
            Piece::Number(line.failed),
            Piece::Text(b",\"linked\":"),
            Piece::Text(truth(line.is_linked)),
            Piece::Text(b",\"last_cause\":"),
        ],
    )
}

impl Element for StuckLine {
    ghost text = { stuck_line };

    #[tactic(auto, unfolding(crate::specs::Json::stuck_line))]
    fn put(&self, out: &mut Octets) -> Result<(), AllocError> {
        put_stuck_counts(out, self)?;
        put_last_cause(out, self.cause)?;
        out.append(b",\"due\":")?;
        put_due(out, self.due)?;
        out.append(b"}")
    }
}

#[tactic(auto, unfolding(crate::specs::Json::whose_text))]
fn put_whose(out: &mut Octets, message: &PendingMessage<'_>) -> Result<(), AllocError>
    ensures { OnOk result (out.new ≡ out.old ++ whose_text message.entry.now) }
{
    put_pieces(
        out,
        &[
            Piece::Text(b"\",\"handset\":"),
            Piece::Quoted(message.handset.as_bytes()),
            Piece::Text(b",\"submitted\":\""),
            Piece::Moment(message.submitted),
            Piece::Text(b"\"}"),
        ],
    )
}

#[tactic(auto, unfolding(crate::specs::Json::pending_text))]
fn put_pending(out: &mut Octets, message: &PendingMessage<'_>) -> Result<(), AllocError>
    ensures { OnOk result (out.new ≡ out.old ++ pending_text message.entry.now) }
{
    out.append(b"{\"id\":\"")?;
    put_id(out, message.id)?;
    put_whose(out, message)
}

fn put_oldest(out: &mut Octets, oldest: &Option<PendingMessage<'_>>) -> Result<(), AllocError>
    ensures { OnOk result (out.new ≡ out.old ++ oldest_text oldest.entry.now) }
{
    match oldest {
        Some(message) => put_pending(out, message),
        None => out.append(b"null"),
    }
}

#[tactic(auto, unfolding(crate::specs::Json::stuck_text))]
fn put_stuck(out: &mut Octets, view: &StatusView<'_>) -> Result<(), AllocError>
    ensures { OnOk result (out.new ≡ out.old ++ stuck_text view.entry.now) }
{
    put_array(out, b"stuck", view.stuck)?;
    out.append(b",\"oldest\":")?;
    put_oldest(out, &view.oldest)
}

// ---- accounts

impl Element for AccountLine {
    ghost text = { account_text };

    #[tactic(auto, unfolding(crate::specs::Json::account_text))]
    fn put(&self, out: &mut Octets) -> Result<(), AllocError> {
        put_pieces(
            out,
            &[
                Piece::Text(b"{\"account\":"),
                Piece::Quoted(self.account.as_bytes()),
                Piece::Text(b",\"submits\":"),
                Piece::Number(self.submits),
                Piece::Text(b",\"receipts\":"),
                Piece::Number(self.receipts),
                Piece::Text(b"}"),
            ],
        )
    }
}

// ---- what was refused

impl Element for RefusedSubmits {
    ghost text = { refused_submits_text };

    #[tactic(auto, unfolding(crate::specs::Json::refused_submits_text))]
    fn put(&self, out: &mut Octets) -> Result<(), AllocError> {
        put_pieces(
            out,
            &[
                Piece::Text(b"{\"account\":"),
                Piece::Quoted(self.account.as_bytes()),
                Piece::Text(b",\"status\":"),
                Piece::Number(self.status as u64),
                Piece::Text(b",\"count\":"),
                Piece::Number(self.count),
                Piece::Text(b"}"),
            ],
        )
    }
}

impl Element for RefusedBinds {
    ghost text = { refused_binds_text };

    #[tactic(auto, unfolding(crate::specs::Json::refused_binds_text))]
    fn put(&self, out: &mut Octets) -> Result<(), AllocError> {
        put_pieces(
            out,
            &[
                Piece::Text(b"{\"reason\":\""),
                Piece::Text(self.reason.as_bytes()),
                Piece::Text(b"\",\"count\":"),
                Piece::Number(self.count),
                Piece::Text(b"}"),
            ],
        )
    }
}

impl Element for RefusedDeliveries {
    ghost text = { refused_deliveries_text };

    #[tactic(auto, unfolding(crate::specs::Json::refused_deliveries_text))]
    fn put(&self, out: &mut Octets) -> Result<(), AllocError> {
        put_pieces(
            out,
            &[
                Piece::Text(b"{\"cause\":"),
                Piece::Number(self.cause as u64),
                Piece::Text(b",\"reason\":\""),
                Piece::Text(self.reason.as_bytes()),
                Piece::Text(b"\",\"count\":"),
                Piece::Number(self.count),
                Piece::Text(b"}"),
            ],
        )
    }
}

#[tactic(auto, unfolding(crate::specs::Json::refusals_text))]
fn put_refusals(out: &mut Octets, view: &StatusView<'_>) -> Result<(), AllocError>
    ensures { OnOk result (out.new ≡ out.old ++ refusals_text view.entry.now) }
{
    put_array(out, b"refused_submits", view.refused_submits)?;
    put_array(out, b"refused_binds", view.refused_binds)?;
    put_array(out, b"refused_deliveries", view.refused_deliveries)
}

// ---- the store

#[tactic(auto, unfolding(crate::specs::Json::place_text))]
fn put_place(out: &mut Octets, limit: u64, count: u64) -> Result<(), AllocError>
    ensures { OnOk result (out.new ≡ out.old ++ place_text limit count) }
{
    put_pieces(
        out,
        &[
            Piece::Text(b"["),
            Piece::Number(limit),
            Piece::Text(b","),
            Piece::Number(count),
            Piece::Text(b"],"),
        ],
    )
}

#[tactic(auto, using(crate::proofs::Elements::no_place, crate::proofs::Elements::one_more_place))]
fn put_places(out: &mut Octets, commits: &CommitFigures) -> Result<(), AllocError>
    ensures { OnOk result (out.new ≡ out.old ++ first_places commits.now.counts 13) }
{
    for place in 0..LIMITS.len() {
        put_place(out, LIMITS[place], commits.counts[place])?;
    }
    Ok(())
}

#[tactic(auto, unfolding(crate::specs::Json::last_place))]
fn put_last_place(out: &mut Octets, count: u64) -> Result<(), AllocError>
    ensures { OnOk result (out.new ≡ out.old ++ last_place count) }
{
    put_pieces(
        out,
        &[
            Piece::Text(b"[null,"),
            Piece::Number(count),
            Piece::Text(b"]]}"),
        ],
    )
}

#[tactic(auto, unfolding(crate::specs::Json::store_text))]
fn put_store(
    out: &mut Octets,
    store: &StoreFigures,
    commits: &CommitFigures,
    median: Quantile,
    most: Quantile,
) -> Result<(), AllocError>
    ensures { OnOk result (out.new ≡ out.old ++ store_text store.now commits.now median most) }
{
    put_pieces(
        out,
        &[
            Piece::Text(b",\"store\":{\"octets\":"),
            Piece::Number(store.file),
            Piece::Text(b",\"log_octets\":"),
            Piece::Number(store.log),
            Piece::Text(b",\"commits\":"),
            Piece::Number(commits.count()),
            Piece::Text(b",\"commits_refused\":"),
            Piece::Number(commits.refused),
            Piece::Text(b",\"commit_micros\":"),
            Piece::Number(commits.micros),
            Piece::Text(b",\"median_at_most_micros\":"),
            Piece::Limit(median),
            Piece::Text(b",\"percentile_99_at_most_micros\":"),
            Piece::Limit(most),
            Piece::Text(b",\"at_most_micros\":["),
        ],
    )
}

#[tactic(auto, unfolding(crate::specs::Json::commits_text))]
fn put_commits(
    out: &mut Octets,
    store: &StoreFigures,
    commits: &CommitFigures,
    median: Quantile,
    most: Quantile,
) -> Result<(), AllocError>
    ensures { OnOk result (out.new ≡ out.old ++ commits_text store.now commits.now median most) }
{
    put_store(out, store, commits, median, most)?;
    put_places(out, commits)?;
    put_last_place(out, commits.counts[LIMITS.len()])
}

// ---- events

// An event of the log.
impl Element for String {
    ghost text = { λ event. string (string_bytes event) };

    fn put(&self, out: &mut Octets) -> Result<(), AllocError> {
        put_string(out, self.as_bytes())
    }
}

#[tactic(auto, unfolding(crate::specs::Json::lost_text))]
fn put_lost(out: &mut Octets, events: u64, lines: u64) -> Result<(), AllocError>
    ensures { OnOk result (out.new ≡ out.old ++ lost_text events lines) }
{
    put_pieces(
        out,
        &[
            Piece::Text(b",\"lost_events\":"),
            Piece::Number(events),
            Piece::Text(b",\"lost_log_lines\":"),
            Piece::Number(lines),
            Piece::Text(b"}\n"),
        ],
    )
}

// ---- the whole

#[tactic(auto, unfolding(crate::specs::Json::json_text))]
fn put_json(
    out: &mut Octets,
    view: &StatusView<'_>,
    median: Quantile,
    most: Quantile,
) -> Result<(), AllocError>
    ensures { OnOk result (out.new ≡ out.old ++ json_text view.entry.now median most) }
{
    put_run(out, view)?;
    put_messages(out, &view.messages)?;
    put_counts(out, &view.counts)?;
    put_lists(out, view)?;
    put_stuck(out, view)?;
    put_array(out, b"accounts", view.accounts)?;
    put_refusals(out, view)?;
    put_commits(out, &view.store, &view.commits, median, most)?;
    put_array(out, b"events", view.events)?;
    put_lost(out, view.lost_events, view.lost_lines)
}

/// The figures of the page, in JSON.
pub fn json_of(alloc: Global, view: &StatusView<'_>) -> Result<Octets, AllocError>
    ensures { IfOk result (λ json. (median : QuantileOf) × (most : QuantileOf) × IsQuantile view.entry.now.commits.counts 50 median
        × IsQuantile view.entry.now.commits.counts 99 most × (json ≡ json_text view.entry.now median most)) }
{
    let median = view.commits.quantile(50);
    let most = view.commits.quantile(99);
    let mut out = Octets::with_capacity(alloc, 16_384)?;
    put_json(&mut out, view, median, most)?;
    Ok(out)
}
