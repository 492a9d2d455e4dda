// The call that a line asks for.
use queue::{DEFAULT_WIDTH, Packet};
use queue_calls::Call;
use script::words::Words;
use script::{Line, payload};

// The bytes of a copy that is to enter are made in `room`.
pub fn call_of<'a>(line: &Line, room: &'a mut [u8]) -> Option<Call<'a>> {
    let mut words = Words::new(line.whole()?);
    let call = match words.next()? {
        b"queue" => creation(&mut words)?,
        b"push" => push(&mut words, room)?,
        b"release" => Call::Release(words.float()?),
        b"due" => Call::NextDue,
        b"drain" => Call::Drain,
        b"len" => Call::Len,
        _ => return None,
    };
    words.is_empty().then_some(call)
}

// A capacity and a slot width, which may be left out.
fn creation(words: &mut Words<'_>) -> Option<Call<'static>> {
    Some(Call::Create {
        cap: words.size()?,
        width: words.size_or(DEFAULT_WIDTH as usize)?,
    })
}

// A due, an arrival, a route, a copy id, a length and a seed.
fn push<'a>(words: &mut Words<'_>, room: &'a mut [u8]) -> Option<Call<'a>> {
    let packet = Packet {
        due_ms: words.float()?,
        arrival_ms: words.float()?,
        route: words.whole()?,
        copy_id: u32::try_from(words.whole()?).ok()?,
        duplicated: false,
    };
    let (length, seed) = (words.whole()?, words.whole()?);
    let bytes = payload::fill(payload::front(room, length), seed);
    Some(Call::Push(packet, bytes))
}
