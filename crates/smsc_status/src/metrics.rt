//! The figures in Prometheus' text format.
ghost use Rattle.std.specs.Prelude.{◌≡◌, ◌++◌, ◌<◌, ℕ, List, IfOk, OnOk, codes, flat_map, string_bytes};
ghost use Rattle.smsc_status.specs.Metrics.{account_receipts, account_submits, accounts_metrics, binds_sample, bucket, commits_metrics, counts_metric};
ghost use Rattle.smsc_status.specs.Metrics.{deliveries_sample, first_buckets, groups_metrics, labelled_sample, line_text, lines_text, link_number, link_samples};
ghost use Rattle.smsc_status.specs.Metrics.{links_metrics};
ghost use Rattle.smsc_status.specs.Metrics.{lost_metrics, messages_metric, metric, metrics_text, oldest_metric, oldest_sample, plain_sample, refusals_metrics};
ghost use Rattle.smsc_status.specs.Metrics.{run_metrics, session_number};
ghost use Rattle.smsc_status.specs.Metrics.{session_sample, session_samples, sessions_metrics, store_metrics, submits_sample, totals};

use crate::commits::{CommitFigures, LIMITS};
use crate::figures::{
    AccountLine, LinkLine, MessageCounts, MessageFigures, PendingMessage, RefusedBinds,
    RefusedDeliveries, RefusedSubmits, SessionLine, StatusView, StoreFigures,
};
use crate::groups::GroupFigures;
use crate::pieces::{Piece, put_pieces};
use sms_base::Octets;
use std::alloc::{AllocError, Global};

// What precedes the samples of a metric: its help and its type.
#[tactic(auto, unfolding(crate::specs::Metrics::metric))]
fn put_metric<'a>(
    out: &mut Octets,
    name: &'a [u8],
    kind: &'a [u8],
    help: &'a [u8],
) -> Result<(), AllocError>
    ensures { OnOk result (out.new ≡ out.old ++ metric name.now kind.now help.now) }
{
    put_pieces(
        out,
        &[
            Piece::Text(b"# HELP "),
            Piece::Text(name),
            Piece::Text(b" "),
            Piece::Text(help),
            Piece::Text(b"\n# TYPE "),
            Piece::Text(name),
            Piece::Text(b" "),
            Piece::Text(kind),
            Piece::Text(b"\n"),
        ],
    )
}

#[tactic(auto, unfolding(crate::specs::Metrics::plain_sample))]
fn put_plain(out: &mut Octets, name: &[u8], value: u64) -> Result<(), AllocError>
    ensures { OnOk result (out.new ≡ out.old ++ plain_sample name.now value) }
{
    put_pieces(
        out,
        &[
            Piece::Text(name),
            Piece::Text(b" "),
            Piece::Number(value),
            Piece::Text(b"\n"),
        ],
    )
}

#[tactic(auto, unfolding(crate::specs::Metrics::labelled_sample))]
fn put_labelled<'a>(
    out: &mut Octets,
    name: &'a [u8],
    label: &'a [u8],
    text: &'a [u8],
    value: u64,
) -> Result<(), AllocError>
    ensures { OnOk result (out.new ≡ out.old ++ labelled_sample name.now label.now text.now value) }
{
    put_pieces(
        out,
        &[
            Piece::Text(name),
            Piece::Text(b"{"),
            Piece::Text(label),
            Piece::Text(b"="),
            Piece::Quoted(text),
            Piece::Text(b"} "),
            Piece::Number(value),
            Piece::Text(b"\n"),
        ],
    )
}

/// What is written one behind another.
pub(crate) trait Written {
    ghost text: { Self → List ℕ };

    /// Puts its text behind what is there.
    fn put(&self, out: &mut Octets) -> Result<(), AllocError>
        ensures { OnOk result (out.new ≡ out.old ++ text self.now) };
}

fn put_each<T: Written>(out: &mut Octets, list: &[T]) -> Result<(), AllocError>
    ensures { OnOk result (out.new ≡ out.old ++ flat_map T.text list.now) }
{
    for some in list {
        some.put(out)?;
    }
    Ok(())
}

/// A line of metrics.
#[derive(Clone, Copy)]
enum Line<'a> {
    /// A metric's name, its type and its help.
    Head(&'a [u8], &'a [u8], &'a [u8]),
    /// A sample without labels.
    Plain(&'a [u8], u64),
    /// A sample with a label: the metric's name, the label's, its text and the sample.
    Labelled(&'a [u8], &'a [u8], &'a [u8], u64),
}

impl Written for Line<'_> {
    ghost text = { line_text };

    fn put(&self, out: &mut Octets) -> Result<(), AllocError> {
        match self {
            Line::Head(name, kind, help) => put_metric(out, name, kind, help),
            Line::Plain(name, value) => put_plain(out, name, *value),
            Line::Labelled(name, label, text, value) => {
                put_labelled(out, name, label, text, *value)
            }
        }
    }
}

fn put_lines(out: &mut Octets, lines: &[Line<'_>]) -> Result<(), AllocError>
    ensures { OnOk result (out.new ≡ out.old ++ lines_text lines.now) }
{
    put_each(out, lines)
}

// ---- messages

#[tactic(auto, unfolding(crate::specs::Metrics::counts_metric))]
fn put_counts(out: &mut Octets, counts: &MessageCounts) -> Result<(), AllocError>
    ensures { OnOk result (out.new ≡ out.old ++ counts_metric counts.now) }
{
    let name = b"smsc_messages_total";
    put_lines(
        out,
        &[
            Line::Head(
                name,
                b"counter",
                b"Messages that reached this state since the run began.",
            ),
            Line::Labelled(name, b"state", b"accepted", counts.accepted),
            Line::Labelled(name, b"state", b"delivered", counts.delivered),
            Line::Labelled(name, b"state", b"expired", counts.expired),
            Line::Labelled(name, b"state", b"deleted", counts.deleted),
            Line::Labelled(name, b"state", b"undeliverable", counts.undeliverable),
        ],
    )
}

#[tactic(auto, unfolding(crate::specs::Metrics::messages_metric))]
fn put_stored(out: &mut Octets, messages: &MessageFigures) -> Result<(), AllocError>
    ensures { OnOk result (out.new ≡ out.old ++ messages_metric messages.now) }
{
    let name = b"smsc_store_messages";
    put_lines(
        out,
        &[
            Line::Head(
                name,
                b"gauge",
                b"Messages of the store that are in this state.",
            ),
            Line::Labelled(name, b"state", b"enroute", messages.enroute),
            Line::Labelled(name, b"state", b"delivered", messages.delivered),
            Line::Labelled(name, b"state", b"expired", messages.expired),
            Line::Labelled(name, b"state", b"deleted", messages.deleted),
            Line::Labelled(name, b"state", b"undeliverable", messages.undeliverable),
        ],
    )
}

// ---- sessions and links

// What a metric says of a session.
#[derive(Clone, Copy)]
enum SessionMetric {
    Submits,
    Receipts,
    Window,
}

fn value_of(session: &SessionLine, metric: SessionMetric) -> u64
    ensures { result ≡ session_number metric session.now }
{
    match metric {
        SessionMetric::Submits => session.submits,
        SessionMetric::Receipts => session.receipts,
        SessionMetric::Window => session.window,
    }
}

#[tactic(auto, unfolding(crate::specs::Metrics::session_sample))]
fn put_session<'a>(
    out: &mut Octets,
    name: &'a [u8],
    session: &'a SessionLine,
    metric: SessionMetric,
) -> Result<(), AllocError>
    ensures { OnOk result (out.new ≡ out.old ++ session_sample name.now metric session.now) }
{
    put_pieces(
        out,
        &[
            Piece::Text(name),
            Piece::Text(b"{account="),
            Piece::Quoted(session.account.as_bytes()),
            Piece::Text(b",kind=\""),
            Piece::Text(session.kind.word().as_bytes()),
            Piece::Text(b"\",seat=\""),
            Piece::Number(session.seat as u64),
            Piece::Text(b"\"} "),
            Piece::Number(value_of(session, metric)),
            Piece::Text(b"\n"),
        ],
    )
}

fn put_each_session(
    out: &mut Octets,
    name: &[u8],
    sessions: &[SessionLine],
    metric: SessionMetric,
) -> Result<(), AllocError>
    ensures { OnOk result (out.new ≡ out.old ++ session_samples name.now metric sessions.now) }
{
    for session in sessions {
        put_session(out, name, session, metric)?;
    }
    Ok(())
}

#[tactic(auto, unfolding(crate::specs::Metrics::sessions_metrics))]
fn put_sessions(out: &mut Octets, sessions: &[SessionLine]) -> Result<(), AllocError>
    ensures { OnOk result (out.new ≡ out.old ++ sessions_metrics sessions.now) }
{
    let name = b"smsc_sessions";
    put_metric(out, name, b"gauge", b"Sessions that are bound.")?;
    put_plain(out, name, sessions.len() as u64)?;
    let name = b"smsc_session_submits_total";
    put_metric(out, name, b"counter", b"Requests submit_sm of a session.")?;
    put_each_session(out, name, sessions, SessionMetric::Submits)?;
    let name = b"smsc_session_receipts_total";
    put_metric(out, name, b"counter", b"Receipts that a session was sent.")?;
    put_each_session(out, name, sessions, SessionMetric::Receipts)?;
    let name = b"smsc_session_window";
    put_metric(
        out,
        name,
        b"gauge",
        b"Requests of a session that have no answer yet.",
    )?;
    put_each_session(out, name, sessions, SessionMetric::Window)
}

// What a metric says of a link.
#[derive(Clone, Copy)]
enum LinkMetric {
    Waiting,
    Full,
    UnderWay,
}

fn link_value(link: &LinkLine, metric: LinkMetric) -> u64
    ensures { result ≡ link_number metric link.now }
{
    match metric {
        LinkMetric::Waiting => link.waiting,
        LinkMetric::Full => u64::from(link.is_full),
        LinkMetric::UnderWay => u64::from(link.is_under_way),
    }
}

fn put_each_link(
    out: &mut Octets,
    name: &[u8],
    links: &[LinkLine],
    metric: LinkMetric,
) -> Result<(), AllocError>
    ensures { OnOk result (out.new ≡ out.old ++ link_samples name.now metric links.now) }
{
    for link in links {
        put_labelled(
            out,
            name,
            b"handset",
            link.handset.as_bytes(),
            link_value(link, metric),
        )?;
    }
    Ok(())
}

#[tactic(auto, unfolding(crate::specs::Metrics::links_metrics))]
fn put_links(out: &mut Octets, links: &[LinkLine]) -> Result<(), AllocError>
    ensures { OnOk result (out.new ≡ out.old ++ links_metrics links.now) }
{
    let name = b"smsc_links";
    put_metric(out, name, b"gauge", b"Handsets with a link.")?;
    put_plain(out, name, links.len() as u64)?;
    let name = b"smsc_link_waiting";
    put_metric(
        out,
        name,
        b"gauge",
        b"Parts and status reports that wait for a handset.",
    )?;
    put_each_link(out, name, links, LinkMetric::Waiting)?;
    let name = b"smsc_link_full";
    put_metric(
        out,
        name,
        b"gauge",
        b"Whether a handset said that it has no memory.",
    )?;
    put_each_link(out, name, links, LinkMetric::Full)?;
    let name = b"smsc_link_under_way";
    put_metric(
        out,
        name,
        b"gauge",
        b"Whether something to a handset is under way.",
    )?;
    put_each_link(out, name, links, LinkMetric::UnderWay)
}

// ---- accounts

fn put_account_submits(
    out: &mut Octets,
    name: &[u8],
    accounts: &[AccountLine],
) -> Result<(), AllocError>
    ensures { OnOk result (out.new ≡ out.old ++ account_submits name.now accounts.now) }
{
    for line in accounts {
        put_labelled(out, name, b"account", line.account.as_bytes(), line.submits)?;
    }
    Ok(())
}

fn put_account_receipts(
    out: &mut Octets,
    name: &[u8],
    accounts: &[AccountLine],
) -> Result<(), AllocError>
    ensures { OnOk result (out.new ≡ out.old ++ account_receipts name.now accounts.now) }
{
    for line in accounts {
        put_labelled(
            out,
            name,
            b"account",
            line.account.as_bytes(),
            line.receipts,
        )?;
    }
    Ok(())
}

#[tactic(auto, unfolding(crate::specs::Metrics::accounts_metrics))]
fn put_accounts(out: &mut Octets, accounts: &[AccountLine]) -> Result<(), AllocError>
    ensures { OnOk result (out.new ≡ out.old ++ accounts_metrics accounts.now) }
{
    put_metric(
        out,
        b"smsc_account_submits_total",
        b"counter",
        b"Requests submit_sm of an account since the run began.",
    )?;
    put_account_submits(out, b"smsc_account_submits_total", accounts)?;
    put_metric(
        out,
        b"smsc_account_receipts_total",
        b"counter",
        b"Receipts that an account was sent since the run began.",
    )?;
    put_account_receipts(out, b"smsc_account_receipts_total", accounts)
}

// ---- what was refused

impl Written for RefusedSubmits {
    ghost text = { submits_sample };

    #[tactic(auto, unfolding(crate::specs::Metrics::submits_sample))]
    fn put(&self, out: &mut Octets) -> Result<(), AllocError> {
        put_pieces(
            out,
            &[
                Piece::Text(b"smsc_submits_refused_total{account="),
                Piece::Quoted(self.account.as_bytes()),
                Piece::Text(b",status=\""),
                Piece::Number(self.status as u64),
                Piece::Text(b"\"} "),
                Piece::Number(self.count),
                Piece::Text(b"\n"),
            ],
        )
    }
}

impl Written for RefusedBinds {
    ghost text = { binds_sample };

    #[tactic(auto, unfolding(crate::specs::Metrics::binds_sample))]
    fn put(&self, out: &mut Octets) -> Result<(), AllocError> {
        put_pieces(
            out,
            &[
                Piece::Text(b"smsc_binds_refused_total{reason=\""),
                Piece::Text(self.reason.as_bytes()),
                Piece::Text(b"\"} "),
                Piece::Number(self.count),
                Piece::Text(b"\n"),
            ],
        )
    }
}

impl Written for RefusedDeliveries {
    ghost text = { deliveries_sample };

    #[tactic(auto, unfolding(crate::specs::Metrics::deliveries_sample))]
    fn put(&self, out: &mut Octets) -> Result<(), AllocError> {
        put_pieces(
            out,
            &[
                Piece::Text(b"smsc_deliver_attempts_failed_total{cause=\""),
                Piece::Number(self.cause as u64),
                Piece::Text(b"\"} "),
                Piece::Number(self.count),
                Piece::Text(b"\n"),
            ],
        )
    }
}

#[tactic(auto, unfolding(crate::specs::Metrics::refusals_metrics))]
fn put_refusals(out: &mut Octets, view: &StatusView<'_>) -> Result<(), AllocError>
    ensures { OnOk result (out.new ≡ out.old ++ refusals_metrics view.entry.now) }
{
    put_metric(
        out,
        b"smsc_submits_refused_total",
        b"counter",
        b"Requests submit_sm of an account that were refused with this command_status.",
    )?;
    put_each(out, view.refused_submits)?;
    put_metric(
        out,
        b"smsc_binds_refused_total",
        b"counter",
        b"Binds that were refused for this reason.",
    )?;
    put_each(out, view.refused_binds)?;
    put_metric(
        out,
        b"smsc_deliver_attempts_failed_total",
        b"counter",
        b"What handsets refused with this RP cause of what was delivered to them.",
    )?;
    put_each(out, view.refused_deliveries)
}

// ---- the store

#[tactic(auto, unfolding(crate::specs::Metrics::bucket))]
fn put_bucket(out: &mut Octets, limit: u64, so_far: u64) -> Result<(), AllocError>
    ensures { OnOk result (out.new ≡ out.old ++ bucket limit so_far) }
{
    put_pieces(
        out,
        &[
            Piece::Text(b"smsc_commit_seconds_bucket{le=\""),
            Piece::Seconds(limit),
            Piece::Text(b"\"} "),
            Piece::Number(so_far),
            Piece::Text(b"\n"),
        ],
    )
}

#[tactic(auto, using(crate::proofs::Elements::no_bucket, crate::proofs::Elements::one_more_bucket, crate::proofs::Counts::one_more_counted))]
fn put_buckets(out: &mut Octets, commits: &CommitFigures) -> Result<(), AllocError>
    ensures { OnOk result (out.new ≡ out.old ++ first_buckets commits.now.counts 13) }
{
    let mut so_far = 0u64;
    for place in 0..LIMITS.len() {
        so_far = so_far.saturating_add(commits.counts[place]);
        put_bucket(out, LIMITS[place], so_far)?;
    }
    Ok(())
}

#[tactic(auto, unfolding(crate::specs::Metrics::totals))]
fn put_totals(out: &mut Octets, commits: &CommitFigures) -> Result<(), AllocError>
    ensures { OnOk result (out.new ≡ out.old ++ totals commits.now) }
{
    let count = commits.count();
    put_pieces(
        out,
        &[
            Piece::Text(b"smsc_commit_seconds_bucket{le=\"+Inf\"} "),
            Piece::Number(count),
            Piece::Text(b"\nsmsc_commit_seconds_sum "),
            Piece::Seconds(commits.micros),
            Piece::Text(b"\nsmsc_commit_seconds_count "),
            Piece::Number(count),
            Piece::Text(b"\n"),
        ],
    )
}

#[tactic(auto, unfolding(crate::specs::Metrics::commits_metrics))]
fn put_commits(out: &mut Octets, commits: &CommitFigures) -> Result<(), AllocError>
    ensures { OnOk result (out.new ≡ out.old ++ commits_metrics commits.now) }
{
    put_metric(
        out,
        b"smsc_commit_seconds",
        b"histogram",
        b"How long a commit took.",
    )?;
    put_buckets(out, commits)?;
    put_totals(out, commits)?;
    let name = b"smsc_commits_refused_total";
    put_metric(out, name, b"counter", b"Commits that the store refused.")?;
    put_plain(out, name, commits.refused)
}

#[tactic(auto, unfolding(crate::specs::Metrics::groups_metrics))]
fn put_groups(out: &mut Octets, groups: &GroupFigures) -> Result<(), AllocError>
    ensures { OnOk result (out.new ≡ out.old ++ groups_metrics groups.now) }
{
    let bucket = b"smsc_group_items_bucket";
    put_lines(
        out,
        &[
            Line::Head(
                b"smsc_group_items",
                b"histogram",
                b"How many items were committed at once.",
            ),
            Line::Labelled(bucket, b"le", b"1", groups.of_1),
            Line::Labelled(bucket, b"le", b"2", groups.up_to_2),
            Line::Labelled(bucket, b"le", b"4", groups.up_to_4),
            Line::Labelled(bucket, b"le", b"8", groups.up_to_8),
            Line::Labelled(bucket, b"le", b"16", groups.up_to_16),
            Line::Labelled(bucket, b"le", b"32", groups.up_to_32),
            Line::Labelled(bucket, b"le", b"64", groups.up_to_64),
            Line::Labelled(bucket, b"le", b"+Inf", groups.up_to_64),
            Line::Plain(b"smsc_group_items_sum", groups.items),
            Line::Plain(b"smsc_group_items_count", groups.up_to_64),
        ],
    )
}

#[tactic(auto, unfolding(crate::specs::Metrics::store_metrics))]
fn put_store(out: &mut Octets, store: &StoreFigures) -> Result<(), AllocError>
    ensures { OnOk result (out.new ≡ out.old ++ store_metrics store.now) }
{
    let file = b"smsc_store_bytes";
    let log = b"smsc_store_log_bytes";
    put_lines(
        out,
        &[
            Line::Head(file, b"gauge", b"Octets of the store's file."),
            Line::Plain(file, store.file),
            Line::Head(log, b"gauge", b"Octets of the store's log."),
            Line::Plain(log, store.log),
        ],
    )
}

// ---- the run

#[tactic(auto, unfolding(crate::specs::Metrics::run_metrics))]
fn put_run(out: &mut Octets, view: &StatusView<'_>) -> Result<(), AllocError>
    ensures { OnOk result (out.new ≡ out.old ++ run_metrics view.entry.now) }
{
    let name = b"smsc_build_info";
    put_metric(
        out,
        name,
        b"gauge",
        b"What proves the program's sources, and which builds are proved.",
    )?;
    put_labelled(out, name, b"proof", view.version.trim_end().as_bytes(), 1)?;
    let name = b"smsc_start_time_seconds";
    put_metric(out, name, b"gauge", b"When the run began, since 1970.")?;
    put_plain(out, name, view.start.seconds())
}

fn put_oldest_sample(
    out: &mut Octets,
    name: &[u8],
    oldest: &Option<PendingMessage<'_>>,
) -> Result<(), AllocError>
    ensures { OnOk result (out.new ≡ out.old ++ oldest_sample name.now oldest.entry.now) }
{
    match oldest {
        Some(message) => put_plain(out, name, message.submitted.seconds()),
        None => Ok(()),
    }
}

#[tactic(auto, unfolding(crate::specs::Metrics::oldest_metric))]
fn put_oldest(out: &mut Octets, oldest: &Option<PendingMessage<'_>>) -> Result<(), AllocError>
    ensures { OnOk result (out.new ≡ out.old ++ oldest_metric oldest.entry.now) }
{
    let name = b"smsc_oldest_pending_time_seconds";
    put_metric(
        out,
        name,
        b"gauge",
        b"When the oldest message that is pending was submitted, since 1970.",
    )?;
    put_oldest_sample(out, name, oldest)
}

#[tactic(auto, unfolding(crate::specs::Metrics::lost_metrics))]
fn put_lost(out: &mut Octets, events: u64, lines: u64) -> Result<(), AllocError>
    ensures { OnOk result (out.new ≡ out.old ++ lost_metrics events lines) }
{
    let in_list = b"smsc_status_events_lost_total";
    let in_log = b"smsc_log_lines_lost_total";
    put_lines(
        out,
        &[
            Line::Head(
                in_list,
                b"counter",
                b"Events that found no room in the status page's list.",
            ),
            Line::Plain(in_list, events),
            Line::Head(
                in_log,
                b"counter",
                b"Lines of the log that found no room or could not be written.",
            ),
            Line::Plain(in_log, lines),
        ],
    )
}

#[tactic(auto, unfolding(crate::specs::Metrics::metrics_text))]
fn put_metrics(out: &mut Octets, view: &StatusView<'_>) -> Result<(), AllocError>
    ensures { OnOk result (out.new ≡ out.old ++ metrics_text view.entry.now) }
{
    put_run(out, view)?;
    put_lost(out, view.lost_events, view.lost_lines)?;
    put_counts(out, &view.counts)?;
    put_stored(out, &view.messages)?;
    put_oldest(out, &view.oldest)?;
    put_sessions(out, view.sessions)?;
    put_links(out, view.links)?;
    put_accounts(out, view.accounts)?;
    put_refusals(out, view)?;
    put_store(out, &view.store)?;
    put_commits(out, &view.commits)?;
    put_groups(out, &view.groups)
}

/// The figures in Prometheus' text format, version 0.0.4.
pub fn metrics_of(alloc: Global, view: &StatusView<'_>) -> Result<Octets, AllocError>
    ensures { IfOk result (λ metrics. metrics ≡ metrics_text view.entry.now) }
{
    let mut out = Octets::with_capacity(alloc, 8192)?;
    put_metrics(&mut out, view)?;
    Ok(out)
}
