// A report for a person: what came, what became of it, the latencies, and whether the count comes out.
use crate::bars;
use crate::bars::Bar;
use crate::decimal::Thousandths;
use crate::report_line::{Latencies, Report, Traffic};
use std::io::Write;
use std::{fmt, io};

// The latencies of each bucket.
const RANGES: [&str; 12] = [
    "under 1",
    "1 to 2",
    "2 to 5",
    "5 to 10",
    "10 to 20",
    "20 to 50",
    "50 to 100",
    "100 to 200",
    "200 to 500",
    "500 to 1000",
    "1000 to 5000",
    "5000 and more",
];

// Shows the report whose numbers `rest` has.
pub fn show<W: Write>(out: &mut W, number: u64, rest: &[u8]) -> io::Result<()> {
    match Report::read(rest) {
        Some(report) => writeln!(out, "line {number}, report\n\n{report}"),
        None => writeln!(out, "line {number} is not a report that replay gives\n"),
    }
}

impl fmt::Display for Report {
    fn fmt<W: fmt::Write>(&self, f: &mut fmt::Formatter<W>) -> fmt::Result {
        writeln!(f, "{:24}{:>12}{:>12}", "", "packets", "bytes")?;
        writeln!(f, "{:24}{}", "received", self.received)?;
        writeln!(f, "{:24}{}\n", "sent", self.sent)?;
        say_rows(f, &self.ends())?;
        writeln!(f)?;
        say_rows(f, &self.others())?;
        writeln!(f, "{}", self.latencies)?;
        self.say_verdict(f)
    }
}

// A count by its name.
#[derive(Clone, Copy)]
struct Row(&'static str, u64);

fn say_rows<W: fmt::Write>(f: &mut fmt::Formatter<W>, rows: &[Row]) -> fmt::Result {
    for Row(name, count) in rows {
        writeln!(f, "{name:24}{count:>12}")?;
    }
    Ok(())
}

impl fmt::Display for Traffic {
    fn fmt<W: fmt::Write>(&self, f: &mut fmt::Formatter<W>) -> fmt::Result {
        write!(f, "{:>12}{:>12}", self.packets, self.bytes)
    }
}

// Where there are no latencies, nothing more is said of them.
impl fmt::Display for Latencies {
    fn fmt<W: fmt::Write>(&self, f: &mut fmt::Formatter<W>) -> fmt::Result {
        say_rows(f, &[Row("latencies", self.count)])?;
        if self.count == 0 {
            return Ok(());
        }
        writeln!(f, "  least, in ms          {}", Thousandths(self.least))?;
        writeln!(f, "  mean, in ms           {}", Thousandths(self.mean()))?;
        writeln!(f, "  greatest, in ms       {}", Thousandths(self.greatest))?;
        writeln!(f, "  sum, in ms            {}\n", Thousandths(self.sum))?;
        self.say_buckets(f)
    }
}

impl Latencies {
    fn mean(&self) -> f64 {
        self.sum / numbers::float_of(self.count)
    }

    fn say_buckets<W: fmt::Write>(&self, f: &mut fmt::Formatter<W>) -> fmt::Result {
        let fullest = self.buckets.iter().copied().max().unwrap_or(0);
        let per_sign = bars::packets_per_sign(fullest);
        writeln!(
            f,
            "latency in ms                packets  # stands for up to {per_sign} packets"
        )?;
        for (range, packets) in RANGES.iter().zip(self.buckets.iter()) {
            let packets = *packets;
            writeln!(f, "  {range:22}{}", Bar { packets, per_sign })?;
        }
        Ok(())
    }
}

impl Report {
    // What became of packets that were not sent.
    fn ends(&self) -> [Row; 8] {
        [
            Row("dropped at random", self.dropped.random),
            Row("dropped by burst loss", self.dropped.burst),
            Row("dropped over the MTU", self.dropped.mtu),
            Row("dropped in a blackout", self.dropped.blackout),
            Row("overflowed", self.overflowed),
            Row("reset", self.reset),
            Row("torn down", self.torn),
            Row("still held", self.held),
        ]
    }

    fn others(&self) -> [Row; 4] {
        [
            Row("duplicated", self.duplicated),
            Row("reordered", self.reordered),
            Row("deferred by the rate", self.deferred),
            Row("changes of address", self.changes_of_address),
        ]
    }

    fn all_dropped(&self) -> u64 {
        let dropped = self.dropped;
        sum(&[dropped.random, dropped.burst, dropped.mtu, dropped.blackout])
    }

    // Whether what came, with the duplicates, is what became of it.
    fn say_verdict<W: fmt::Write>(&self, f: &mut fmt::Formatter<W>) -> fmt::Result {
        let (received, duplicated) = (self.received.packets, self.duplicated);
        let came = sum(&[received, duplicated]);
        let became = sum(&[
            self.sent.packets,
            self.all_dropped(),
            self.overflowed,
            self.reset,
            self.torn,
            self.held,
        ]);
        if came == became {
            write!(
                f,
                "The count comes out: {received} received and {duplicated} duplicated are "
            )?;
            self.say_ends(f)?;
            writeln!(f, ".")
        } else {
            write!(
                f,
                "The count does not come out: {received} received and {duplicated} duplicated make {came}, but "
            )?;
            self.say_ends(f)?;
            writeln!(f, " make {became}.")
        }
    }

    // What became of the packets.
    fn say_ends<W: fmt::Write>(&self, f: &mut fmt::Formatter<W>) -> fmt::Result {
        write!(
            f,
            "{} sent, {} dropped, ",
            self.sent.packets,
            self.all_dropped()
        )?;
        write!(f, "{} overflowed, {} reset, ", self.overflowed, self.reset)?;
        write!(f, "{} torn down and {} held", self.torn, self.held)
    }
}

// The sum of counts, of which no report has one of 2^60 or more.
fn sum(counts: &[u64]) -> u64 {
    counts
        .iter()
        .fold(0, |all: u64, count| all.wrapping_add(*count))
}
