//! The status page: one document of HTML, which shows itself anew every five seconds, and needs neither script nor anything else.
//!
//! A text that somebody outside chose is an escaped piece, so no browser takes it for markup.
ghost use Rattle.std.specs.Prelude.{◌≡◌, ◌-◌, ◌++◌, ℕ, List, IfOk, OnOk, flat_map, map, reverse, string_bytes};
ghost use Rattle.std.specs.Str.{trim_end};
ghost use Rattle.smsc_status.specs.Commits.{IsQuantile};
ghost use Rattle.smsc_status.specs.Page.{account_row, bad_or_not, binds_row, charts_text, deliveries_row, event_item, events_begin, events_end};
ghost use Rattle.smsc_status.specs.Page.{events_list};
ghost use Rattle.smsc_status.specs.Page.{foot_text, graded_tile, groups_tiles, heading_text, is_nothing_refused as is_nothing_refused_of, link_row};
ghost use Rattle.smsc_status.specs.Page.{lost_text, mark, messages_tiles, none_cell, none_row, page_text, refusals_table};
ghost use Rattle.smsc_status.specs.Page.{seats_tiles, session_row, store_tiles, submits_row, table_end, table_text, tile, tile_text, tiles_begin, tiles_end};
ghost use Rattle.smsc_status.specs.Page.{tiles_text, yes_or_no};
ghost use Rattle.smsc_status.specs.Page.{last_cause_text, link_word as link_word_of, next_try_text, oldest_text, pending_text, refusal_text, stuck_counts};
ghost use Rattle.smsc_status.specs.Page.{stuck_row, stuck_text, wait_word as wait_word_of, whose_text};
ghost use Rattle.smsc_status.specs.Pieces.{piece_text};
ghost use Rattle.smsc_status.specs.declared.commits.Quantile.{Quantile as QuantileOf};
ghost use Rattle.smsc_status.specs.declared.figures.Sample.{Sample as SampleOf};

use crate::chart::put_chart;
use crate::commits::{CommitFigures, Quantile};
use crate::figures::{
    AccountLine, LastCause, LinkLine, MessageFigures, PendingMessage, RefusedBinds,
    RefusedDeliveries, RefusedSubmits, Sample, SessionLine, StatusView, StoreFigures, StuckLine,
};
use crate::groups::GroupFigures;
use crate::numbers::put_id;
use crate::pieces::{Piece, put_piece, put_pieces};
use crate::series::commits_a_second;
use sms_base::{Moment, Octets};
use std::alloc::{AllocError, Global};

const HEAD: &[u8] =
    b"<!DOCTYPE html>\n<html lang=\"en\"><head><meta charset=\"utf-8\"><meta name=\"viewport\" content=\"width=device-width, initial-scale=1\">\
<meta http-equiv=\"refresh\" content=\"5\"><title>smscd</title><style>\n\
body{font:15px/1.4 system-ui,sans-serif;color:#1d2430;background:#f4f6f9;margin:0 auto;padding:12px;max-width:900px}\n\
h1{font-size:22px;margin:0}h2{font-size:16px;margin:22px 0 6px}p{margin:2px 0;color:#5a6577}\n\
.tiles{display:flex;flex-wrap:wrap;gap:8px}.tile{flex:1 1 110px;background:#fff;border:1px solid #d9dfe8;border-radius:6px;padding:8px 10px}\n\
.tile b{display:block;font-size:22px}.tile span{color:#5a6577;font-size:12px}\n\
.charts{display:flex;flex-wrap:wrap;gap:8px;margin-top:8px}figure{flex:1 1 260px;margin:0;background:#fff;border:1px solid #d9dfe8;border-radius:6px;padding:8px 10px}\n\
figcaption{font-size:13px}.most{color:#5a6577;font-size:12px}svg{width:100%;height:90px;display:block}\n\
polyline{fill:none;stroke:#1f5fa8;stroke-width:1.5;vector-effect:non-scaling-stroke}path{stroke:#d9dfe8;vector-effect:non-scaling-stroke}\n\
.plot{display:flex;gap:6px}.scale{display:flex;flex-direction:column;justify-content:space-between;text-align:right;min-width:24px}\n\
.times{display:flex;justify-content:space-between;margin-left:30px}.scale,.times{color:#5a6577;font-size:11px}\n\
.more{display:none;font-size:12px}@media(max-width:700px){.more{display:block}}\n\
.wide{overflow-x:auto;background:#fff;border:1px solid #d9dfe8;border-radius:6px}table{border-collapse:collapse;width:100%;font-size:13px}\n\
th,td{text-align:left;padding:4px 10px;border-bottom:1px solid #eef1f5;white-space:nowrap}th{color:#5a6577;font-weight:600}.n{text-align:right}\n\
ol{margin:0;padding:8px 10px 8px 44px;font:12px/1.5 ui-monospace,monospace}li{white-space:nowrap}.bad{color:#b00020}\n\
</style></head><body>\n";

const SESSIONS_HEAD: &[u8] =
    b"<h2>Sessions</h2><p class=\"more\">a wide table: drag it sideways</p><div class=\"wide\"><table><tr><th>account</th><th>kind</th><th class=\"n\">submits</th><th class=\"n\">receipts</th>\
<th class=\"n\">window</th><th>since</th><th class=\"n\">seat</th></tr>\n";

const LINKS_HEAD: &[u8] =
    b"<h2>Links</h2><p class=\"more\">a wide table: drag it sideways</p><div class=\"wide\"><table><tr><th>handset</th><th class=\"n\">waiting</th><th>full</th><th>under way</th><th>since</th>\
<th class=\"n\">seat</th></tr>\n";

const STUCK_HEAD: &[u8] =
    b"<p class=\"more\">a wide table: drag it sideways</p><div class=\"wide\"><table><tr><th>handset</th><th class=\"n\">waiting</th><th>since</th>\
<th class=\"n\">failed</th><th>last cause</th><th>next try</th></tr>\n";

const ACCOUNTS_HEAD: &[u8] =
    b"<h2>Accounts, since the run began</h2><div class=\"wide\"><table><tr><th>account</th><th class=\"n\">submits</th><th class=\"n\">receipts</th></tr>\n";

const REFUSALS_HEAD: &[u8] =
    b"<h2>Refused</h2><p class=\"more\">a wide table: drag it sideways</p><div class=\"wide\"><table><tr><th>request</th><th>account</th><th>why</th><th class=\"n\">count</th></tr>\n";

// ---- the head

#[tactic(auto, unfolding(crate::specs::Page::heading_text))]
fn put_heading(out: &mut Octets, view: &StatusView<'_>) -> Result<(), AllocError>
    ensures { OnOk result (out.new ≡ out.old ++ heading_text view.entry.now) }
{
    put_pieces(
        out,
        &[
            Piece::Text(b"<h1>smscd</h1><p>centre "),
            Piece::Escaped(view.centre.as_bytes()),
            Piece::Text(b", at "),
            Piece::Moment(view.now),
            Piece::Text(b"</p><p>since "),
            Piece::Moment(view.start),
            Piece::Text(b"; this page shows itself anew every five seconds</p>\n"),
        ],
    )
}

// ---- rows

/// What is written one behind another: rows of a table, tiles.
pub(crate) trait Row {
    ghost text: { Self → List ℕ };

    /// Puts its text behind what is there.
    fn put(&self, out: &mut Octets) -> Result<(), AllocError>
        ensures { OnOk result (out.new ≡ out.old ++ text self.now) };
}

fn put_rows<T: Row>(out: &mut Octets, rows: &[T]) -> Result<(), AllocError>
    ensures { OnOk result (out.new ≡ out.old ++ flat_map T.text rows.now) }
{
    for some in rows {
        some.put(out)?;
    }
    Ok(())
}

// ---- tiles

/// A figure over its word.
#[derive(Clone, Copy)]
enum Tile<'a> {
    Figure(Piece<'a>, &'a [u8]),
    /// A number that stands out where it is not 0.
    Graded(u64, &'a [u8]),
}

#[tactic(auto, unfolding(crate::specs::Page::tile))]
fn put_figure(out: &mut Octets, figure: &Piece<'_>, word: &[u8]) -> Result<(), AllocError>
    ensures { OnOk result (out.new ≡ out.old ++ tile (piece_text figure.entry.now) word.now) }
{
    out.append(b"<div class=\"tile\"><b>")?;
    put_piece(out, figure)?;
    put_pieces(
        out,
        &[
            Piece::Text(b"</b><span>"),
            Piece::Text(word),
            Piece::Text(b"</span></div>"),
        ],
    )
}

// What makes a figure stand out that is bad where it is not 0.
fn mark_of(number: u64) -> &'static [u8]
    ensures { result.now ≡ mark number }
{
    if number == 0 { b"" } else { b" class=\"bad\"" }
}

#[tactic(auto, unfolding(crate::specs::Page::graded_tile))]
fn put_graded_tile(out: &mut Octets, number: u64, word: &[u8]) -> Result<(), AllocError>
    ensures { OnOk result (out.new ≡ out.old ++ graded_tile number word.now) }
{
    put_pieces(
        out,
        &[
            Piece::Text(b"<div class=\"tile\"><b"),
            Piece::Text(mark_of(number)),
            Piece::Text(b">"),
            Piece::Number(number),
            Piece::Text(b"</b><span>"),
            Piece::Text(word),
            Piece::Text(b"</span></div>"),
        ],
    )
}

impl Row for Tile<'_> {
    ghost text = { tile_text };

    fn put(&self, out: &mut Octets) -> Result<(), AllocError> {
        match self {
            Tile::Figure(figure, word) => put_figure(out, figure, word),
            Tile::Graded(number, word) => put_graded_tile(out, *number, word),
        }
    }
}

#[tactic(auto, unfolding(crate::specs::Page::tiles_begin))]
fn begin_tiles(out: &mut Octets, title: &[u8]) -> Result<(), AllocError>
    ensures { OnOk result (out.new ≡ out.old ++ tiles_begin title.now) }
{
    put_pieces(
        out,
        &[
            Piece::Text(b"<h2>"),
            Piece::Text(title),
            Piece::Text(b"</h2><div class=\"tiles\">"),
        ],
    )
}

#[tactic(auto, unfolding(crate::specs::Page::tiles_end))]
fn end_tiles(out: &mut Octets) -> Result<(), AllocError>
    ensures { OnOk result (out.new ≡ out.old ++ tiles_end) }
{
    out.append(b"</div>\n")
}

// Tiles under their title.
fn put_tiles(out: &mut Octets, title: &[u8], tiles: &[Tile<'_>]) -> Result<(), AllocError>
    ensures { OnOk result (out.new ≡ out.old ++ (tiles_begin title.now ++ tiles_text tiles.now)) }
{
    begin_tiles(out, title)?;
    put_rows(out, tiles)?;
    end_tiles(out)
}

// ---- messages

#[tactic(auto, unfolding(crate::specs::Page::messages_tiles))]
fn put_messages(out: &mut Octets, messages: &MessageFigures) -> Result<(), AllocError>
    ensures { OnOk result (out.new ≡ out.old ++ messages_tiles messages.now) }
{
    put_tiles(
        out,
        b"Messages",
        &[
            Tile::Figure(Piece::Number(messages.enroute), b"ENROUTE"),
            Tile::Figure(Piece::Number(messages.delivered), b"DELIVRD"),
            Tile::Graded(messages.expired, b"EXPIRED"),
            Tile::Figure(Piece::Number(messages.deleted), b"DELETED"),
            Tile::Graded(messages.undeliverable, b"UNDELIV"),
        ],
    )
}

// ---- seats

// How many seats there are.
const SEATS: u64 = 32;

// How many seats are left.
fn free_of(sessions: u64, links: u64) -> u64
    ensures { result ≡ 32 - sessions - links }
{
    SEATS.saturating_sub(sessions).saturating_sub(links)
}

#[tactic(auto, unfolding(crate::specs::Page::seats_tiles))]
fn put_seats(out: &mut Octets, sessions: u64, links: u64) -> Result<(), AllocError>
    ensures { OnOk result (out.new ≡ out.old ++ seats_tiles sessions links) }
{
    put_tiles(
        out,
        b"Seats",
        &[
            Tile::Figure(Piece::Number(sessions), b"sessions"),
            Tile::Figure(Piece::Number(links), b"links"),
            Tile::Figure(Piece::Number(free_of(sessions, links)), b"free of 32"),
        ],
    )
}

// ---- the last ten minutes

fn submissions_of(alloc: Global, samples: &[Sample]) -> Result<Vec<u64>, AllocError>
    ensures { IfOk result (λ values. values.items ≡ map (λ (s : SampleOf). s.submissions) samples.now) }
{
    let mut values = Vec::with_capacity(alloc, samples.len())?;
    for sample in samples {
        values.push(sample.submissions)?;
    }
    Ok(values)
}

fn deliveries_of(alloc: Global, samples: &[Sample]) -> Result<Vec<u64>, AllocError>
    ensures { IfOk result (λ values. values.items ≡ map (λ (s : SampleOf). s.deliveries) samples.now) }
{
    let mut values = Vec::with_capacity(alloc, samples.len())?;
    for sample in samples {
        values.push(sample.deliveries)?;
    }
    Ok(values)
}

#[tactic(auto, unfolding(crate::specs::Page::charts_text))]
fn put_both_charts(
    out: &mut Octets,
    submissions: &[u64],
    deliveries: &[u64],
) -> Result<(), AllocError>
    ensures { OnOk result (out.new ≡ out.old ++ charts_text submissions.now deliveries.now) }
{
    out.append(b"<div class=\"charts\">")?;
    put_chart(out, b"Submissions, ten minutes", submissions)?;
    put_chart(out, b"Deliveries, ten minutes", deliveries)?;
    end_tiles(out)
}

fn put_charts(alloc: Global, out: &mut Octets, samples: &[Sample]) -> Result<(), AllocError>
    ensures { OnOk result (out.new ≡ out.old ++ charts_text (map (λ (s : SampleOf). s.submissions) samples.now)
        (map (λ (s : SampleOf). s.deliveries) samples.now)) }
{
    let submissions = submissions_of(alloc, samples)?;
    let deliveries = deliveries_of(alloc, samples)?;
    put_both_charts(out, submissions.as_slice(), deliveries.as_slice())
}

// ---- tables

#[tactic(auto, unfolding(crate::specs::Page::table_end))]
fn end_table(out: &mut Octets) -> Result<(), AllocError>
    ensures { OnOk result (out.new ≡ out.old ++ table_end) }
{
    out.append(b"</table></div>\n")
}

#[tactic(auto, unfolding(crate::specs::Page::none_cell))]
fn put_none_cell(out: &mut Octets, columns: &[u8]) -> Result<(), AllocError>
    ensures { OnOk result (out.new ≡ out.old ++ none_cell columns.now) }
{
    put_pieces(
        out,
        &[
            Piece::Text(b"<tr><td colspan=\""),
            Piece::Text(columns),
            Piece::Text(b"\">none</td></tr>\n"),
        ],
    )
}

fn put_none(out: &mut Octets, is_none: bool, columns: &[u8]) -> Result<(), AllocError>
    ensures { OnOk result (out.new ≡ out.old ++ none_row is_none columns.now) }
{
    if is_none {
        put_none_cell(out, columns)
    } else {
        Ok(())
    }
}

// Behind the head of a table, its rows and its end.
#[tactic(auto, unfolding(crate::specs::Page::table_text))]
fn put_table<T: Row>(
    out: &mut Octets,
    head: &[u8],
    rows: &[T],
    columns: &[u8],
) -> Result<(), AllocError>
    ensures { OnOk result (out.new ≡ out.old ++ table_text head.now T.text rows.now columns.now) }
{
    out.append(head)?;
    put_rows(out, rows)?;
    put_none(out, rows.is_empty(), columns)?;
    end_table(out)
}

impl Row for SessionLine {
    ghost text = { session_row };

    #[tactic(auto, unfolding(crate::specs::Page::session_row))]
    fn put(&self, out: &mut Octets) -> Result<(), AllocError> {
        put_pieces(
            out,
            &[
                Piece::Text(b"<tr><td>"),
                Piece::Escaped(self.account.as_bytes()),
                Piece::Text(b"</td><td>"),
                Piece::Text(self.kind.word().as_bytes()),
                Piece::Text(b"</td><td class=\"n\">"),
                Piece::Number(self.submits),
                Piece::Text(b"</td><td class=\"n\">"),
                Piece::Number(self.receipts),
                Piece::Text(b"</td><td class=\"n\">"),
                Piece::Number(self.window),
                Piece::Text(b"</td><td>"),
                Piece::Moment(self.since),
                Piece::Text(b"</td><td class=\"n\">"),
                Piece::Number(self.seat as u64),
                Piece::Text(b"</td></tr>\n"),
            ],
        )
    }
}

fn word_of(is_so: bool) -> &'static [u8]
    ensures { result.now ≡ yes_or_no is_so }
{
    if is_so { b"yes" } else { b"no" }
}

fn bad_word_of(is_so: bool) -> &'static [u8]
    ensures { result.now ≡ bad_or_not is_so }
{
    if is_so {
        b"<span class=\"bad\">yes</span>"
    } else {
        b"no"
    }
}

impl Row for LinkLine {
    ghost text = { link_row };

    #[tactic(auto, unfolding(crate::specs::Page::link_row))]
    fn put(&self, out: &mut Octets) -> Result<(), AllocError> {
        put_pieces(
            out,
            &[
                Piece::Text(b"<tr><td>"),
                Piece::Escaped(self.handset.as_bytes()),
                Piece::Text(b"</td><td class=\"n\">"),
                Piece::Number(self.waiting),
                Piece::Text(b"</td><td>"),
                Piece::Text(bad_word_of(self.is_full)),
                Piece::Text(b"</td><td>"),
                Piece::Text(word_of(self.is_under_way)),
                Piece::Text(b"</td><td>"),
                Piece::Moment(self.since),
                Piece::Text(b"</td><td class=\"n\">"),
                Piece::Number(self.seat as u64),
                Piece::Text(b"</td></tr>\n"),
            ],
        )
    }
}

// ---- what is stuck

#[tactic(auto, unfolding(crate::specs::Page::whose_text))]
fn put_whose(out: &mut Octets, message: &PendingMessage<'_>) -> Result<(), AllocError>
    ensures { OnOk result (out.new ≡ out.old ++ whose_text message.entry.now) }
{
    put_pieces(
        out,
        &[
            Piece::Text(b" to "),
            Piece::Escaped(message.handset.as_bytes()),
            Piece::Text(b", submitted "),
            Piece::Moment(message.submitted),
            Piece::Text(b"</p>"),
        ],
    )
}

#[tactic(auto, unfolding(crate::specs::Page::pending_text))]
fn put_pending(out: &mut Octets, message: &PendingMessage<'_>) -> Result<(), AllocError>
    ensures { OnOk result (out.new ≡ out.old ++ pending_text message.entry.now) }
{
    out.append(b"the oldest message that is pending: ")?;
    put_id(out, message.id)?;
    put_whose(out, message)
}

fn put_oldest(out: &mut Octets, oldest: &Option<PendingMessage<'_>>) -> Result<(), AllocError>
    ensures { OnOk result (out.new ≡ out.old ++ oldest_text oldest.entry.now) }
{
    match oldest {
        Some(message) => put_pending(out, message),
        None => out.append(b"no message is pending</p>"),
    }
}

fn link_word(is_linked: bool) -> &'static [u8]
    ensures { result.now ≡ link_word_of is_linked }
{
    if is_linked {
        b"none</td><td>"
    } else {
        b"no link</td><td>"
    }
}

#[tactic(auto, unfolding(crate::specs::Page::refusal_text))]
fn put_refusal(out: &mut Octets, cause: LastCause) -> Result<(), AllocError>
    ensures { OnOk result (out.new ≡ out.old ++ refusal_text cause) }
{
    put_pieces(
        out,
        &[
            Piece::Text(b"RP cause "),
            Piece::Number(cause.cause as u64),
            Piece::Text(b", "),
            Piece::Escaped(cause.reason.as_bytes()),
            Piece::Text(b"</td><td>"),
        ],
    )
}

fn put_last_cause(
    out: &mut Octets,
    is_linked: bool,
    cause: Option<LastCause>,
) -> Result<(), AllocError>
    ensures { OnOk result (out.new ≡ out.old ++ last_cause_text is_linked cause) }
{
    match cause {
        Some(cause) => put_refusal(out, cause),
        None => out.append(link_word(is_linked)),
    }
}

fn wait_word(is_linked: bool) -> &'static [u8]
    ensures { result.now ≡ wait_word_of is_linked }
{
    if is_linked {
        b"once it has memory"
    } else {
        b"once it has a link"
    }
}

fn put_next_try(out: &mut Octets, is_linked: bool, due: Option<Moment>) -> Result<(), AllocError>
    ensures { OnOk result (out.new ≡ out.old ++ next_try_text is_linked due) }
{
    match due {
        Some(due) => put_pieces(out, &[Piece::Moment(due)]),
        None => out.append(wait_word(is_linked)),
    }
}

#[tactic(auto, unfolding(crate::specs::Page::stuck_counts))]
fn put_stuck_counts(out: &mut Octets, line: &StuckLine) -> Result<(), AllocError>
    ensures { OnOk result (out.new ≡ out.old ++ stuck_counts line.now) }
{
    put_pieces(
        out,
        &[
            Piece::Text(b"<tr><td>"),
            Piece::Escaped(line.handset.as_bytes()),
            Piece::Text(b"</td><td class=\"n\">"),
            Piece::Number(line.waiting),
            Piece::Text(b"</td><td>"),
            Piece::Moment(line.since),
            Piece::Text(b"</td><td class=\"n\">"),
            Piece::Number(line.failed),
            Piece::Text(b"</td><td>"),
        ],
    )
}

impl Row for StuckLine {
    ghost text = { stuck_row };

    #[tactic(auto, unfolding(crate::specs::Page::stuck_row))]
    fn put(&self, out: &mut Octets) -> Result<(), AllocError> {
        put_stuck_counts(out, self)?;
        put_last_cause(out, self.is_linked, self.cause)?;
        put_next_try(out, self.is_linked, self.due)?;
        out.append(b"</td></tr>\n")
    }
}

#[tactic(auto, unfolding(crate::specs::Page::stuck_text))]
fn put_stuck(out: &mut Octets, view: &StatusView<'_>) -> Result<(), AllocError>
    ensures { OnOk result (out.new ≡ out.old ++ stuck_text view.entry.now) }
{
    out.append(b"<h2>What is stuck</h2><p>")?;
    put_oldest(out, &view.oldest)?;
    put_table(out, STUCK_HEAD, view.stuck, b"6")
}

// ---- accounts

impl Row for AccountLine {
    ghost text = { account_row };

    #[tactic(auto, unfolding(crate::specs::Page::account_row))]
    fn put(&self, out: &mut Octets) -> Result<(), AllocError> {
        put_pieces(
            out,
            &[
                Piece::Text(b"<tr><td>"),
                Piece::Escaped(self.account.as_bytes()),
                Piece::Text(b"</td><td class=\"n\">"),
                Piece::Number(self.submits),
                Piece::Text(b"</td><td class=\"n\">"),
                Piece::Number(self.receipts),
                Piece::Text(b"</td></tr>\n"),
            ],
        )
    }
}

// ---- what was refused

impl Row for RefusedSubmits {
    ghost text = { submits_row };

    #[tactic(auto, unfolding(crate::specs::Page::submits_row))]
    fn put(&self, out: &mut Octets) -> Result<(), AllocError> {
        put_pieces(
            out,
            &[
                Piece::Text(b"<tr><td>submit_sm</td><td>"),
                Piece::Escaped(self.account.as_bytes()),
                Piece::Text(b"</td><td>command_status "),
                Piece::Number(self.status as u64),
                Piece::Text(b"</td><td class=\"n\">"),
                Piece::Number(self.count),
                Piece::Text(b"</td></tr>\n"),
            ],
        )
    }
}

impl Row for RefusedBinds {
    ghost text = { binds_row };

    #[tactic(auto, unfolding(crate::specs::Page::binds_row))]
    fn put(&self, out: &mut Octets) -> Result<(), AllocError> {
        put_pieces(
            out,
            &[
                Piece::Text(b"<tr><td>bind</td><td></td><td>"),
                Piece::Escaped(self.reason.as_bytes()),
                Piece::Text(b"</td><td class=\"n\">"),
                Piece::Number(self.count),
                Piece::Text(b"</td></tr>\n"),
            ],
        )
    }
}

impl Row for RefusedDeliveries {
    ghost text = { deliveries_row };

    #[tactic(auto, unfolding(crate::specs::Page::deliveries_row))]
    fn put(&self, out: &mut Octets) -> Result<(), AllocError> {
        put_pieces(
            out,
            &[
                Piece::Text(b"<tr><td>delivery</td><td></td><td>RP cause "),
                Piece::Number(self.cause as u64),
                Piece::Text(b", "),
                Piece::Escaped(self.reason.as_bytes()),
                Piece::Text(b"</td><td class=\"n\">"),
                Piece::Number(self.count),
                Piece::Text(b"</td></tr>\n"),
            ],
        )
    }
}

fn is_nothing_refused(view: &StatusView<'_>) -> bool
    ensures { result ≡ is_nothing_refused_of view.entry.now }
{
    view.refused_submits.is_empty()
        && (view.refused_binds.is_empty() && view.refused_deliveries.is_empty())
}

#[tactic(auto, unfolding(crate::specs::Page::refusals_table))]
fn put_refusals(out: &mut Octets, view: &StatusView<'_>) -> Result<(), AllocError>
    ensures { OnOk result (out.new ≡ out.old ++ refusals_table view.entry.now) }
{
    out.append(REFUSALS_HEAD)?;
    put_rows(out, view.refused_submits)?;
    put_rows(out, view.refused_binds)?;
    put_rows(out, view.refused_deliveries)?;
    put_none(out, is_nothing_refused(view), b"4")?;
    end_table(out)
}

// ---- the store

#[tactic(auto, unfolding(crate::specs::Page::store_tiles))]
fn put_store(
    out: &mut Octets,
    store: &StoreFigures,
    commits: &CommitFigures,
    samples: &[Sample],
    median: Quantile,
    most: Quantile,
) -> Result<(), AllocError>
    ensures { OnOk result (out.new ≡ out.old ++ store_tiles store.now commits.now samples.now median most) }
{
    put_tiles(
        out,
        b"Store",
        &[
            Tile::Figure(Piece::Size(store.file), b"file"),
            Tile::Figure(Piece::Size(store.log), b"its log"),
            Tile::Figure(
                Piece::Number(commits_a_second(samples)),
                b"commits a second",
            ),
            Tile::Figure(Piece::Quantile(median), b"median of a commit"),
            Tile::Figure(Piece::Quantile(most), b"99 of 100 commits"),
            Tile::Graded(commits.refused, b"commits refused"),
        ],
    )
}

#[tactic(auto, unfolding(crate::specs::Page::groups_tiles))]
fn put_groups(out: &mut Octets, groups: &GroupFigures) -> Result<(), AllocError>
    ensures { OnOk result (out.new ≡ out.old ++ groups_tiles groups.now) }
{
    put_tiles(
        out,
        b"Groups of requests that were committed at once",
        &[
            Tile::Figure(Piece::Number(groups.up_to_64), b"groups"),
            Tile::Figure(Piece::Number(groups.of_1), b"of 1"),
            Tile::Figure(Piece::Number(groups.up_to_2), b"of 2 at most"),
            Tile::Figure(Piece::Number(groups.up_to_4), b"of 4 at most"),
            Tile::Figure(Piece::Number(groups.up_to_8), b"of 8 at most"),
            Tile::Figure(Piece::Number(groups.up_to_16), b"of 16 at most"),
            Tile::Figure(Piece::Number(groups.up_to_32), b"of 32 at most"),
            Tile::Figure(Piece::Number(groups.items), b"items of all"),
        ],
    )
}

// ---- events

#[tactic(auto, unfolding(crate::specs::Page::event_item))]
fn put_event(out: &mut Octets, event: &str) -> Result<(), AllocError>
    ensures { OnOk result (out.new ≡ out.old ++ event_item event.now) }
{
    put_pieces(
        out,
        &[
            Piece::Text(b"<li>"),
            Piece::Escaped(event.as_bytes()),
            Piece::Text(b"</li>\n"),
        ],
    )
}

// The latest first.
#[tactic(auto, using(crate::proofs::Elements::one_more_back))]
fn put_event_items(out: &mut Octets, events: &[String]) -> Result<(), AllocError>
    ensures { OnOk result (out.new ≡ out.old ++ flat_map (λ event. event_item (string_bytes event)) (reverse events.now)) }
{
    let count = events.len();
    for i in 0..count {
        put_event(out, events[count - 1 - i].as_str())?;
    }
    Ok(())
}

fn put_lost(out: &mut Octets, what: &[u8], count: u64) -> Result<(), AllocError>
    ensures { OnOk result (out.new ≡ out.old ++ lost_text what.now count) }
{
    if count == 0 {
        return Ok(());
    }
    put_pieces(
        out,
        &[
            Piece::Text(b"<p class=\"bad\">"),
            Piece::Text(what),
            Piece::Text(b": "),
            Piece::Number(count),
            Piece::Text(b"</p>\n"),
        ],
    )
}

#[tactic(auto, unfolding(crate::specs::Page::events_begin))]
fn begin_events(out: &mut Octets) -> Result<(), AllocError>
    ensures { OnOk result (out.new ≡ out.old ++ events_begin) }
{
    out.append(b"<h2>Events, the latest first</h2><div class=\"wide\"><ol>\n")
}

#[tactic(auto, unfolding(crate::specs::Page::events_end))]
fn end_events(out: &mut Octets) -> Result<(), AllocError>
    ensures { OnOk result (out.new ≡ out.old ++ events_end) }
{
    out.append(b"</ol></div>\n")
}

#[tactic(auto, unfolding(crate::specs::Page::events_list))]
fn put_events(out: &mut Octets, view: &StatusView<'_>) -> Result<(), AllocError>
    ensures { OnOk result (out.new ≡ out.old ++ events_list view.entry.now) }
{
    begin_events(out)?;
    put_event_items(out, view.events)?;
    end_events(out)?;
    put_lost(out, b"events that found no room", view.lost_events)?;
    put_lost(out, b"lines of the log that were lost", view.lost_lines)
}

// ---- the whole

#[tactic(auto, unfolding(crate::specs::Page::foot_text))]
fn put_foot(out: &mut Octets, view: &StatusView<'_>) -> Result<(), AllocError>
    ensures { OnOk result (out.new ≡ out.old ++ foot_text (trim_end view.entry.now.version.now)) }
{
    put_pieces(
        out,
        &[
            Piece::Text(b"<h2>Program</h2><p>"),
            Piece::Escaped(view.version.trim_end().as_bytes()),
            Piece::Text(
                b"</p><p><a href=\"/metrics\">/metrics</a> <a href=\"/status.json\">/status.json</a></p>\n</body></html>\n",
            ),
        ],
    )
}

#[tactic(auto, unfolding(crate::specs::Page::page_text))]
fn put_page(
    alloc: Global,
    out: &mut Octets,
    view: &StatusView<'_>,
    median: Quantile,
    most: Quantile,
) -> Result<(), AllocError>
    ensures { OnOk result (out.new ≡ out.old ++ page_text view.entry.now median most) }
{
    out.append(HEAD)?;
    put_heading(out, view)?;
    put_messages(out, &view.messages)?;
    put_charts(alloc, out, view.samples)?;
    put_seats(out, view.sessions.len() as u64, view.links.len() as u64)?;
    put_table(out, SESSIONS_HEAD, view.sessions, b"7")?;
    put_table(out, LINKS_HEAD, view.links, b"6")?;
    put_stuck(out, view)?;
    put_table(out, ACCOUNTS_HEAD, view.accounts, b"3")?;
    put_refusals(out, view)?;
    put_store(out, &view.store, &view.commits, view.samples, median, most)?;
    put_groups(out, &view.groups)?;
    put_events(out, view)?;
    put_foot(out, view)
}

/// The page.
pub fn page_of(alloc: Global, view: &StatusView<'_>) -> Result<Octets, AllocError>
    ensures { IfOk result (λ page. (median : QuantileOf) × (most : QuantileOf) × IsQuantile view.entry.now.commits.counts 50 median
        × IsQuantile view.entry.now.commits.counts 99 most × (page ≡ page_text view.entry.now median most)) }
{
    let median = view.commits.quantile(50);
    let most = view.commits.quantile(99);
    let mut out = Octets::with_capacity(alloc, 32_768)?;
    put_page(alloc, &mut out, view, median, most)?;
    Ok(out)
}
