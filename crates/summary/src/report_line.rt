// The numbers of a report line.
use script::patterns;
use script::words::Words;

// Packets and their bytes.
#[derive(Clone, Copy)]
pub struct Traffic {
    pub packets: u64,
    pub bytes: u64,
}

// Packets that were dropped, by the cause.
#[derive(Clone, Copy)]
pub struct Drops {
    pub random: u64,
    pub burst: u64,
    pub mtu: u64,
    pub blackout: u64,
}

// The latencies of what was sent: how many, how many in each bucket, and their sum, least and greatest in milliseconds. Not `accounts::LatencyStats`: so the
// reader of answers needs no crate of the engine.
#[derive(Clone, Copy)]
pub struct Latencies {
    pub count: u64,
    pub buckets: [u64; 12],
    pub sum: f64,
    pub least: f64,
    pub greatest: f64,
}

#[derive(Clone, Copy)]
pub struct Report {
    pub received: Traffic,
    pub sent: Traffic,
    pub dropped: Drops,
    pub overflowed: u64,
    pub duplicated: u64,
    pub reordered: u64,
    pub deferred: u64,
    pub changes_of_address: u64,
    pub reset: u64,
    pub latencies: Latencies,
    pub held: u64,
    pub torn: u64,
}

impl Report {
    // What stands behind the first word of a report line, in the order of its words.
    pub fn read(line: &[u8]) -> Option<Self> {
        let mut words = Words::new(line);
        let report = Report {
            received: Traffic::read(&mut words)?,
            sent: Traffic::read(&mut words)?,
            dropped: Drops::read(&mut words)?,
            overflowed: count(&mut words)?,
            duplicated: count(&mut words)?,
            reordered: count(&mut words)?,
            deferred: count(&mut words)?,
            changes_of_address: count(&mut words)?,
            reset: count(&mut words)?,
            latencies: Latencies::read(&mut words)?,
            held: count_named(&mut words, b"held")?,
            torn: count_named(&mut words, b"torn")?,
        };
        words.is_empty().then_some(report)
    }
}

impl Traffic {
    fn read(words: &mut Words) -> Option<Self> {
        Some(Traffic {
            packets: count(words)?,
            bytes: count(words)?,
        })
    }
}

impl Drops {
    fn read(words: &mut Words) -> Option<Self> {
        Some(Drops {
            random: count(words)?,
            burst: count(words)?,
            mtu: count(words)?,
            blackout: count(words)?,
        })
    }
}

impl Latencies {
    fn read(words: &mut Words) -> Option<Self> {
        Some(Latencies {
            count: count(words)?,
            buckets: buckets(words)?,
            sum: time(words)?,
            least: time(words)?,
            greatest: time(words)?,
        })
    }
}

// A count below 2^60: no report has another, and so no sum of counts wraps.
fn count(words: &mut Words) -> Option<u64> {
    words.whole().filter(|count| numbers::is_counter(*count))
}

fn count_named(words: &mut Words, name: &[u8]) -> Option<u64> {
    if words.next()? == name {
        count(words)
    } else {
        None
    }
}

// A time by its bits, or the word nan.
fn time(words: &mut Words) -> Option<f64> {
    match words.next()? {
        b"nan" => Some(f64::NAN),
        word => patterns::float_of(word),
    }
}

fn buckets(words: &mut Words) -> Option<[u64; 12]> {
    let mut buckets = [0; 12];
    for bucket in buckets.iter_mut() {
        *bucket = count(words)?;
    }
    Some(buckets)
}
