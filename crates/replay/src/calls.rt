// The calls of a script.
use device::DEFAULT_WIDTH;
use engine_words::Direction;
use script::Line;
use script::words::Words;

// A packet that arrives; its bytes are made from their number and a seed.
#[derive(Clone, Copy, Debug, PartialEq, Eq)]
pub struct Packet {
    pub len: u64,
    pub route: u64,
    pub seed: u64,
}

// What a line asks for.
#[derive(Clone, Copy, Debug, PartialEq)]
pub enum Call<'a> {
    Options(&'a [u8]),
    Create {
        direction: Direction,
        salt: u64,
        cap: usize,
        width: usize,
    },
    Arrive {
        now_ms: f64,
        packet: Packet,
    },
    Release {
        now_ms: f64,
    },
    Rebind {
        now_ms: f64,
    },
    Teardown,
    Report,
}

impl<'a> Call<'a> {
    // The call of a line, where it is one; an option text is decoded into `text`.
    pub fn read(line: &'a Line, text: &'a mut [u8]) -> Option<Self> {
        script::calls::kept_call_of(line, text, Call::Options, of_words)
    }
}

// The call that the first word of a line names, with the numbers behind it.
fn of_words(line: &[u8]) -> Option<Call<'_>> {
    let mut words = Words::new(line);
    let call = match words.next()? {
        b"create" => creation(&mut words)?,
        b"a" => arrival(&mut words)?,
        b"r" => Call::Release {
            now_ms: words.float()?,
        },
        b"b" => Call::Rebind {
            now_ms: words.float()?,
        },
        b"t" => Call::Teardown,
        b"p" => Call::Report,
        _ => return None,
    };
    words.is_empty().then_some(call)
}

// A direction, a salt, a capacity and a slot width, which may be left out.
fn creation(words: &mut Words<'_>) -> Option<Call<'static>> {
    Some(Call::Create {
        direction: Direction::of(words.next()?)?,
        salt: words.whole()?,
        cap: words.size()?,
        width: words.size_or(DEFAULT_WIDTH as usize)?,
    })
}

// An instant, a length, a route and a seed.
fn arrival(words: &mut Words<'_>) -> Option<Call<'static>> {
    let now_ms = words.float()?;
    let packet = Packet {
        len: words.whole()?,
        route: words.whole()?,
        seed: words.whole()?,
    };
    Some(Call::Arrive { now_ms, packet })
}
