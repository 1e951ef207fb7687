//! Names from outside, in the page, in the metrics and in the JSON, and the bodies of responses.
use crate::rows::holds;
use sms_base::{MessageId, Moment, Octets};
use smsc_status::{
    AccountLine, CommitFigures, GroupFigures, LastCause, MessageCounts, MessageFigures,
    PendingMessage, RefusedBinds, RefusedDeliveries, RefusedSubmits, Resource, SessionKind,
    SessionLine, StatusView, StoreFigures, StuckLine, Wanted, response_to,
};
use std::alloc::{AllocError, Global};
use std::test::Fail;

const NAME: &str = "<b>&\"\\\x07x";

// 2026-11-26T04:46:01Z, by `date -u -d @1795668361`.
const MOMENT: u64 = 1_795_668_361;

fn text_of(alloc: Global, text: &str) -> Result<String, AllocError> {
    String::from_str(alloc, text)
}

fn session(alloc: Global, since: Moment) -> Result<SessionLine, AllocError> {
    let account = text_of(alloc, NAME)?;
    Ok(SessionLine {
        seat: 3,
        account,
        kind: SessionKind::Receiver,
        since,
        submits: 7,
        receipts: 6,
        window: 1,
    })
}

// What all sessions of that account did, also those that have ended.
fn account_line(alloc: Global) -> Result<AccountLine, AllocError> {
    let account = text_of(alloc, NAME)?;
    Ok(AccountLine {
        account,
        submits: 19,
        receipts: 17,
    })
}

// Three requests of the same account, each refused with RMSGQFUL (SMPP v3.4 5.1.3).
fn refused(alloc: Global) -> Result<RefusedSubmits, AllocError> {
    let account = text_of(alloc, NAME)?;
    Ok(RefusedSubmits {
        account,
        status: 0x14,
        count: 3,
    })
}

// What waits for a handset of that number.
fn stuck_line(
    alloc: Global,
    since: Moment,
    handset: &str,
    is_linked: bool,
    cause: Option<LastCause>,
    due: Option<Moment>,
) -> Result<StuckLine, AllocError> {
    let handset = text_of(alloc, handset)?;
    Ok(StuckLine {
        handset,
        waiting: 12,
        since,
        failed: 3,
        is_linked,
        cause,
        due,
    })
}

// One without a link, one whose memory is full, and one that is tried again.
fn put_stuck(alloc: Global, lines: &mut Vec<StuckLine>, moment: Moment) -> Result<(), AllocError> {
    let full = LastCause {
        cause: 22,
        reason: "memory capacity exceeded",
    };
    lines.push(stuck_line(alloc, moment, "447700900999", false, None, None)?)?;
    lines.push(stuck_line(alloc, moment, "447700900998", true, Some(full), None)?)?;
    lines.push(stuck_line(alloc, moment, "447700900997", true, None, Some(moment))?)?;
    Ok(())
}

const BINDS: &[RefusedBinds] = &[RefusedBinds {
    reason: "wrong_password",
    count: 2,
}];

// A full memory (3GPP TS 24.011 8.2.5.4).
const DELIVERIES: &[RefusedDeliveries] = &[RefusedDeliveries {
    cause: 22,
    reason: "memory capacity exceeded",
    count: 6,
}];

// Groups of 1, 2, 3, 9 and 64 items.
const GROUPS: GroupFigures = GroupFigures {
    of_1: 1,
    up_to_2: 2,
    up_to_4: 3,
    up_to_8: 3,
    up_to_16: 4,
    up_to_32: 4,
    up_to_64: 5,
    items: 79,
};

fn no_messages() -> (MessageFigures, MessageCounts) {
    let figures = MessageFigures {
        enroute: 1,
        delivered: 2,
        expired: 3,
        deleted: 4,
        undeliverable: 5,
    };
    let counts = MessageCounts {
        accepted: 15,
        delivered: 2,
        expired: 3,
        deleted: 4,
        undeliverable: 5,
    };
    (figures, counts)
}

// What a response shows.
#[derive(Drop)]
struct Shown {
    sessions: Vec<SessionLine>,
    accounts: Vec<AccountLine>,
    refused: Vec<RefusedSubmits>,
    stuck: Vec<StuckLine>,
}

fn put_shown(alloc: Global, shown: &mut Shown, moment: Moment) -> Result<(), AllocError> {
    shown.sessions.push(session(alloc, moment)?)?;
    shown.accounts.push(account_line(alloc)?)?;
    shown.refused.push(refused(alloc)?)?;
    put_stuck(alloc, &mut shown.stuck, moment)
}

fn response(
    alloc: Global,
    wanted: Wanted,
    shown: &Shown,
    oldest: MessageId,
    moment: Moment,
) -> Option<Octets> {
    let (messages, counts) = no_messages();
    let view = StatusView {
        centre: "447700900000",
        version: "proved\n",
        start: moment,
        now: moment,
        messages,
        counts,
        sessions: shown.sessions.as_slice(),
        links: &[],
        stuck: shown.stuck.as_slice(),
        oldest: Some(PendingMessage {
            id: oldest,
            handset: "447700900999",
            submitted: moment,
        }),
        accounts: shown.accounts.as_slice(),
        refused_submits: shown.refused.as_slice(),
        refused_binds: BINDS,
        refused_deliveries: DELIVERIES,
        samples: &[],
        events: &[],
        lost_events: 0,
        lost_lines: 9,
        store: StoreFigures { file: 4096, log: 0 },
        commits: CommitFigures {
            counts: [0; 14],
            micros: 200,
            refused: 0,
        },
        groups: GROUPS,
    };
    response_to(alloc, wanted, &view).ok()?
}

fn has(octets: &Octets, text: &str) -> bool {
    match std::str::from_utf8(octets.as_slice()) {
        Ok(all) => all.contains(text),
        Err(_) => false,
    }
}

// What is wanted, a text that its response has or has not, how the response ends, and a name.
type Row = (Wanted, &'static str, bool, &'static [u8], &'static str);

const PAGE: Wanted = Wanted::Resource(Resource::Page, false);

const METRICS: Wanted = Wanted::Resource(Resource::Metrics, false);

const JSON: Wanted = Wanted::Resource(Resource::Json, false);

// The fields of a HEAD's response are those of a GET's (RFC 9110, 9.3.2).
const RESPONSES: &[Row] = &[
    (
        PAGE,
        "<td>&lt;b&gt;&amp;&quot;\\?x</td><td>receiver</td><td class=\"n\">7</td>",
        true,
        b"",
        "the page escapes names",
    ),
    (PAGE, "<td><b>", false, b"", "no markup of a name"),
    (
        PAGE,
        "<b class=\"bad\">5</b><span>UNDELIV</span>",
        true,
        b"",
        "a bad figure stands out",
    ),
    (
        PAGE,
        "<b>2</b><span>DELIVRD</span>",
        true,
        b"",
        "messages in a state",
    ),
    (
        PAGE,
        "<b>0</b><span>commits refused</span>",
        true,
        b"",
        "no bad figure",
    ),
    (PAGE, "<b>31</b><span>free of 32</span>", true, b"", "seats"),
    (
        PAGE,
        "<tr><td>&lt;b&gt;&amp;&quot;\\?x</td><td class=\"n\">19</td><td class=\"n\">17</td></tr>\n",
        true,
        b"",
        "an account in the page",
    ),
    (
        METRICS,
        "\nsmsc_account_submits_total{account=\"<b>&\\\"\\\\?x\"} 19\n",
        true,
        b"",
        "submits of an account",
    ),
    (
        METRICS,
        "\nsmsc_account_receipts_total{account=\"<b>&\\\"\\\\?x\"} 17\n",
        true,
        b"",
        "receipts of an account",
    ),
    (
        JSON,
        "\"accounts\":[{\"account\":\"<b>&\\\"\\\\?x\",\"submits\":19,\"receipts\":17}],\"refused_submits\":[",
        true,
        b"",
        "an account in the JSON",
    ),
    (
        METRICS,
        "smsc_session_submits_total{account=\"<b>&\\\"\\\\?x\",kind=\"receiver\",seat=\"3\"} 7\n",
        true,
        b"",
        "the metrics quote names",
    ),
    (
        METRICS,
        "smsc_commit_seconds_sum 0.000200\n",
        true,
        b"",
        "seconds",
    ),
    (
        METRICS,
        "smsc_group_items_bucket{le=\"8\"} 3\nsmsc_group_items_bucket{le=\"16\"} 4\nsmsc_group_items_bucket{le=\"32\"} 4\nsmsc_group_items_bucket{le=\"64\"} 5\nsmsc_group_items_bucket{le=\"+Inf\"} 5\nsmsc_group_items_sum 79\nsmsc_group_items_count 5\n",
        true,
        b"smsc_group_items_count 5\n",
        "group sizes",
    ),
    (
        PAGE,
        "<b>3</b><span>of 8 at most</span>",
        true,
        b"",
        "group sizes in the page",
    ),
    (
        METRICS,
        "smsc_messages_total{state=\"accepted\"} 15\n",
        true,
        b"",
        "messages",
    ),
    (
        JSON,
        "{\"seat\":3,\"account\":\"<b>&\\\"\\\\?x\",\"kind\":\"receiver\",\"since\":\"2026-11-26T04:46:01Z\",\"submits\":7,\"receipts\":6,\"window\":1}",
        true,
        b"",
        "the JSON quotes names",
    ),
    (
        PAGE,
        "<tr><td>submit_sm</td><td>&lt;b&gt;&amp;&quot;\\?x</td><td>command_status 20</td><td class=\"n\">3</td></tr>\n",
        true,
        b"",
        "refused requests in the page",
    ),
    (
        PAGE,
        "<h2>What is stuck</h2><p>the oldest message that is pending: 0000000042 to 447700900999, submitted 2026-11-26T04:46:01Z</p>",
        true,
        b"",
        "the oldest pending message in the page",
    ),
    (
        PAGE,
        "<tr><td>447700900999</td><td class=\"n\">12</td><td>2026-11-26T04:46:01Z</td><td class=\"n\">3</td><td>no link</td><td>once it has a link</td></tr>\n",
        true,
        b"",
        "a handset without a link",
    ),
    (
        PAGE,
        "<td class=\"n\">3</td><td>RP cause 22, memory capacity exceeded</td><td>once it has memory</td></tr>\n",
        true,
        b"",
        "a handset without memory",
    ),
    (
        PAGE,
        "<td class=\"n\">3</td><td>none</td><td>2026-11-26T04:46:01Z</td></tr>\n",
        true,
        b"",
        "a handset that is tried again",
    ),
    (
        METRICS,
        "\nsmsc_oldest_pending_time_seconds 1795668361\n",
        true,
        b"",
        "the oldest pending message in the metrics",
    ),
    (
        JSON,
        "\"stuck\":[{\"handset\":\"447700900999\",\"waiting\":12,\"since\":\"2026-11-26T04:46:01Z\",\"failed\":3,\"linked\":false,\"last_cause\":null,\"due\":null},{",
        true,
        b"",
        "a handset without a link in the JSON",
    ),
    (
        JSON,
        "\"linked\":true,\"last_cause\":{\"cause\":22,\"reason\":\"memory capacity exceeded\"},\"due\":null},{",
        true,
        b"",
        "a handset without memory in the JSON",
    ),
    (
        JSON,
        "\"last_cause\":null,\"due\":\"2026-11-26T04:46:01Z\"}],\"oldest\":{\"id\":\"0000000042\",\"handset\":\"447700900999\",\"submitted\":\"2026-11-26T04:46:01Z\"},\"accounts\":[",
        true,
        b"",
        "the oldest pending message in the JSON",
    ),
    (
        PAGE,
        "<p class=\"bad\">lines of the log that were lost: 9</p>",
        true,
        b"",
        "lost lines in the page",
    ),
    (
        PAGE,
        "events that found no room",
        false,
        b"",
        "no event was lost",
    ),
    (
        METRICS,
        "smsc_submits_refused_total{account=\"<b>&\\\"\\\\?x\",status=\"20\"} 3\n",
        true,
        b"",
        "refused requests in the metrics",
    ),
    (
        METRICS,
        "smsc_binds_refused_total{reason=\"wrong_password\"} 2\n",
        true,
        b"",
        "refused binds in the metrics",
    ),
    (
        METRICS,
        "\nsmsc_log_lines_lost_total 9\n",
        true,
        b"",
        "lost lines in the metrics",
    ),
    (
        JSON,
        "\"refused_binds\":[{\"reason\":\"wrong_password\",\"count\":2}],\"refused_deliveries\":[",
        true,
        b"",
        "refused binds in the JSON",
    ),
    (
        PAGE,
        "<tr><td>delivery</td><td></td><td>RP cause 22, memory capacity exceeded</td><td class=\"n\">6</td></tr>\n",
        true,
        b"",
        "refused deliveries in the page",
    ),
    (
        METRICS,
        "\nsmsc_deliver_attempts_failed_total{cause=\"22\"} 6\n",
        true,
        b"",
        "refused deliveries in the metrics",
    ),
    (
        JSON,
        "\"refused_deliveries\":[{\"cause\":22,\"reason\":\"memory capacity exceeded\",\"count\":6}],\"store\":{\"octets\":4096,",
        true,
        b"",
        "refused deliveries in the JSON",
    ),
    (
        Wanted::NotFound(false),
        "\r\nContent-Length: 14\r\n",
        true,
        b"\r\n\r\n404 Not Found\n",
        "a body",
    ),
    (
        Wanted::NotFound(true),
        "\r\nContent-Length: 14\r\n",
        true,
        b"\r\n\r\n",
        "a refused head has no body",
    ),
    (
        Wanted::OtherHost(true),
        "\r\nContent-Length: 24\r\n",
        true,
        b"\r\n\r\n",
        "that of another host",
    ),
];

fn is_response(alloc: Global, shown: &Shown, oldest: MessageId, moment: Moment, row: &Row) -> bool {
    let (wanted, text, is_there, end, _) = row;
    match response(alloc, *wanted, shown, oldest, moment) {
        Some(response) => {
            has(&response, text) == *is_there && response.as_slice().ends_with(end)
        }
        None => false,
    }
}

fn are_responses(alloc: Global, shown: &mut Shown, moment: Moment) -> Result<(), Fail> {
    let Some(oldest) = MessageId::new(42) else {
        return Err(Fail::new("a number"));
    };
    holds(put_shown(alloc, shown, moment).is_ok(), "what is shown")?;
    for row in RESPONSES {
        holds(is_response(alloc, shown, oldest, moment, row), row.4)?;
    }
    Ok(())
}

#[test]
fn responses_have_texts_and_ends(rt: HostRuntime) -> Result<(), Fail> {
    let alloc = rt.alloc();
    let moment = Moment::from_seconds(MOMENT)?;
    let mut shown = Shown {
        sessions: Vec::new(alloc),
        accounts: Vec::new(alloc),
        refused: Vec::new(alloc),
        stuck: Vec::new(alloc),
    };
    are_responses(alloc, &mut shown, moment)
}
