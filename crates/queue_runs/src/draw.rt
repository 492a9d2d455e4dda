// Calls that are drawn at random.
use draws::Rng;
use queue::Packet;

// A copy; all but its due and its number of bytes follows from the seed.
#[derive(Clone, Copy, Debug, PartialEq)]
pub struct Seeded {
    pub due_ms: f64,
    pub length: u64,
    pub seed: u64,
}

// A call as it is drawn. No `queue_calls::Call`, which has the bytes of a copy: the list keeps the seed, and makes the bytes when the copy leaves.
#[derive(Clone, Copy, Debug, PartialEq)]
pub enum Drawn {
    Push(Seeded),
    Release(f64),
    NextDue,
    Len,
    Drain,
}

// What the calls are drawn from, and the most bytes that a copy has.
#[derive(Clone, Copy)]
pub struct Source {
    rng: Rng,
    width: u16,
}

impl Source {
    pub fn new(seed: u64, width: u16) -> Self {
        Source {
            rng: Rng::new(seed),
            width,
        }
    }

    fn number(&mut self) -> u64 {
        let (rng, number) = self.rng.next_u64();
        self.rng = rng;
        number
    }

    // The call of a turn.
    pub fn call(&mut self, turn: u64) -> Drawn {
        let kind = self.number() / 0x1_0000_0000 % 1000;
        let time = self.number() / 0x1_0000_0000;
        let seed = self.number();
        match kind {
            _ if kind < pushes_at(turn) => Drawn::Push(Seeded {
                due_ms: due_of(time),
                length: length_of(draws::mix(seed, 4), self.width),
                seed,
            }),
            0..=899 => Drawn::Release(instant_of(time)),
            900..=949 => Drawn::NextDue,
            950..=994 => Drawn::Len,
            _ => Drawn::Drain,
        }
    }
}

// How many of a thousand calls are pushes: there are times at which the queue fills and times at which it empties.
fn pushes_at(turn: u64) -> u64 {
    match turn / 200 % 3 {
        0 => 800,
        1 => 450,
        _ => 200,
    }
}

// A due from -2 to 17.5, so that many tie; or 0 of either sign, or seldom an infinity of either sign.
fn due_of(n: u64) -> f64 {
    match n % 128 {
        0..=9 => 0.0,
        10..=19 => -0.0,
        20 => f64::INFINITY,
        21..=24 => f64::NEG_INFINITY,
        _ => numbers::float_of(n / 128 % 40) * 0.5 - 2.0,
    }
}

// How many bytes a copy has, at most so many: most have few, since they are made one by one.
fn length_of(n: u64, width: u16) -> u64 {
    let width = width as u64;
    match n % 16 {
        0 => 0,
        1 => width.saturating_sub(1),
        2 => width,
        3 => n / 16 % (width + 1),
        _ => n / 16 % 64,
    }
}

// An instant from 0 to 17.5, or seldom the last one.
fn instant_of(n: u64) -> f64 {
    match n % 64 {
        0 => 9007199254740992.0,
        _ => numbers::float_of(n / 64 % 36) * 0.5,
    }
}

impl From<Seeded> for Packet {
    fn from(copy: Seeded) -> Packet {
        let Seeded { due_ms, seed, .. } = copy;
        Packet {
            due_ms,
            arrival_ms: numbers::float_of(draws::mix(seed, 1) % 1000) * 0.25,
            route: draws::mix(seed, 2),
            copy_id: (draws::mix(seed, 3) % 0x1_0000_0000) as u32,
            duplicated: false,
        }
    }
}
