// Calls of the accounts at the limits of refusals 22 and 25: the answer, and the record that comes back.
use crate::records::{Sends, Stats};
use crate::samples::COUNTER_LIMIT;
use accounts::{DirectionStats, LatencyStats, SendAccountant};
use output::Answered;
use std::io;
use std::io::Write;

// Packets around the default slot width, which is no limit here, then of the longest length and of one byte more; the length is judged before the counters.
pub fn lengths<W: Write>(out: &mut W) -> io::Result<()> {
    send(out, "len=2048", sent(0), 2048)?;
    send(out, "len=2049", sent(0), 2049)?;
    send(out, "len=9216", sent(0), 9216)?;
    send(out, "len=9217", sent(0), 9217)?;
    send(out, "len=9217 sent_pkts=2^60", sent(COUNTER_LIMIT), 9217)
}

// Counters of the accountant: the greatest that is taken, and the least that is refused.
pub fn sends<W: Write>(out: &mut W) -> io::Result<()> {
    let rebinds = SendAccountant {
        nat_rebinds: COUNTER_LIMIT,
        ..SendAccountant::default()
    };
    send(out, "len=0 sent_pkts=2^60-1", sent(COUNTER_LIMIT - 1), 0)?;
    send(out, "len=0 sent_pkts=2^60", sent(COUNTER_LIMIT), 0)?;
    send(out, "len=0 nat_rebinds=2^60", rebinds, 0)?;
    send(out, "len=0 hist[11]=2^60", last_bucket(COUNTER_LIMIT), 0)
}

// Counters of the statistics, whether the call changes them or not.
pub fn deliveries<W: Write>(out: &mut W) -> io::Result<()> {
    deliver(out, "tcp_rst_kills=2^60-1", resets(COUNTER_LIMIT - 1))?;
    deliver(out, "tcp_rst_kills=2^60", resets(COUNTER_LIMIT))?;
    deliver(out, "received_pkts=2^60", received(COUNTER_LIMIT))
}

// A merge judges the counters of both records.
pub fn merges<W: Write>(out: &mut W) -> io::Result<()> {
    merge(
        out,
        "sent_pkts=2^60-1 received_pkts=2^60-1",
        sent(COUNTER_LIMIT - 1),
        received(COUNTER_LIMIT - 1),
    )?;
    merge(
        out,
        "hist[11]=2^60 received_pkts=0",
        last_bucket(COUNTER_LIMIT),
        received(0),
    )?;
    merge(
        out,
        "hist[11]=0 received_pkts=2^60",
        last_bucket(0),
        received(COUNTER_LIMIT),
    )
}

fn send<W: Write>(out: &mut W, name: &str, a: SendAccountant, len: usize) -> io::Result<()> {
    let (after, sent) = a.on_send(len, 1.0);
    write!(
        out,
        "refusal on_send {name} {}",
        Answered(sent.map(|_| "done"))
    )?;
    writeln!(out, "{}", Sends(&after))
}

// What record_delivered and total_dropped answer.
fn deliver<W: Write>(out: &mut W, name: &str, s: DirectionStats) -> io::Result<()> {
    let (after, delivered) = s.record_delivered(1.0);
    write!(
        out,
        "refusal record_delivered {name} {}",
        Answered(delivered.map(|_| "done"))
    )?;
    writeln!(out, "{}", Stats(&after))?;
    writeln!(
        out,
        "refusal total_dropped {name} {}",
        Answered(s.total_dropped())
    )
}

fn merge<W: Write>(
    out: &mut W,
    name: &str,
    a: SendAccountant,
    s: DirectionStats,
) -> io::Result<()> {
    let (after, merged) = a.merge_into(s);
    write!(
        out,
        "refusal merge_into {name} {}",
        Answered(merged.map(|_| "done"))
    )?;
    writeln!(out, "{}", Stats(&after))
}

fn sent(sent_pkts: u64) -> SendAccountant {
    SendAccountant {
        sent_pkts,
        ..SendAccountant::default()
    }
}

fn last_bucket(n: u64) -> SendAccountant {
    SendAccountant {
        latency: LatencyStats {
            hist: [0, 0, 0, 0, 0, 0, 0, 0, 0, 0, 0, n],
            ..LatencyStats::default()
        },
        ..SendAccountant::default()
    }
}

fn received(received_pkts: u64) -> DirectionStats {
    DirectionStats {
        received_pkts,
        ..DirectionStats::default()
    }
}

fn resets(tcp_rst_kills: u64) -> DirectionStats {
    DirectionStats {
        tcp_rst_kills,
        ..DirectionStats::default()
    }
}
