// The calls of a script.
use engine_words::Direction;
use script::Line;
use script::words::Words;

// What a line asks for.
#[derive(Clone, Copy, Debug, PartialEq)]
pub enum Call<'a> {
    Options(&'a [u8]),
    Create { direction: Direction, seed: u64 },
    Decide { now_ms: f64, len: usize },
    Rebind { now_ms: f64 },
    Rst { now_ms: f64 },
    Hold { now_ms: f64 },
    Overflow,
    Stats,
}

impl<'a> Call<'a> {
    // The call of a line, where it is one; an option text is decoded into `text`.
    pub fn read(line: &'a Line, text: &'a mut [u8]) -> Option<Self> {
        script::calls::kept_call_of(line, text, Call::Options, of_words)
    }
}

// The call that the first word of a line names, with the numbers behind it.
fn of_words(line: &[u8]) -> Option<Call<'_>> {
    let mut words = Words::new(line);
    let call = match words.next()? {
        b"engine" => creation(&mut words)?,
        b"d" => arrival(&mut words)?,
        b"b" => Call::Rebind {
            now_ms: words.float()?,
        },
        b"k" => Call::Rst {
            now_ms: words.float()?,
        },
        b"h" => Call::Hold {
            now_ms: words.float()?,
        },
        b"o" => Call::Overflow,
        b"s" => Call::Stats,
        _ => return None,
    };
    words.is_empty().then_some(call)
}

// A direction and a seed.
fn creation(words: &mut Words<'_>) -> Option<Call<'static>> {
    Some(Call::Create {
        direction: Direction::of(words.next()?)?,
        seed: words.whole()?,
    })
}

// An instant and a length.
fn arrival(words: &mut Words<'_>) -> Option<Call<'static>> {
    Some(Call::Decide {
        now_ms: words.float()?,
        len: words.size()?,
    })
}
