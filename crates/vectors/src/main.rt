// Runs vectors from outside and prints what the port makes of them; the file stdout has what is expected.
#![tactic(auto)]

mod accounts_run;
mod document;
mod floats;
mod fold;
mod generators;
mod held;
mod latencies;
mod oracle_accounts;
mod oracle_draws;
mod oracle_windows;
mod papers;
mod records;
mod refusals;
mod samples;

use output::Lossy;
use std::io;
use std::io::{BufWriter, Write};

fn main(rt: HostRuntime) -> io::Result<()> {
    let mut out = BufWriter::new(rt.alloc(), Lossy(io::writer(&rt)))?;
    papers::splitmix64(&mut out)?;
    papers::xorshift64star(&mut out)?;
    document::seed_one(&mut out)?;
    document::instants(&mut out)?;
    document::buckets(&mut out)?;
    refusals::lengths(&mut out)?;
    refusals::sends(&mut out)?;
    refusals::deliveries(&mut out)?;
    refusals::merges(&mut out)?;
    oracle_draws::draws(&mut out)?;
    oracle_draws::extremes(&mut out)?;
    oracle_accounts::runs(&mut out)?;
    oracle_accounts::pairs(&mut out)?;
    oracle_accounts::full_records(&mut out)?;
    oracle_accounts::totals(&mut out)?;
    oracle_accounts::long_runs(&mut out)?;
    oracle_accounts::wide_packets(&mut out)?;
    oracle_windows::windows(&mut out)?;
    out.flush()
}
