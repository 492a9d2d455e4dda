// One call, and whether it kept what it had to keep.
use crate::marks;
use crate::marks::Marks;
use numbers::Refusal;
use queue::ImpairQueue;
use queue_calls::{Answer, Call, Memory, Part};

// The answer, and whether all was kept.
pub fn make(
    call: Call<'_>,
    queue: &mut ImpairQueue,
    memory: &mut Memory,
    part: Part,
) -> (Result<Answer, Refusal>, bool) {
    let before = marks::of(part, memory);
    let state = *queue;
    let answer = call.make(queue, &mut memory.part(part));
    let after = marks::of(part, memory);
    let is_kept = is_kept(answer, before, after, *queue == state);
    (answer, is_kept)
}

// What was not lent stays always; the lent memory unless a copy entered or left, and the state unless copies entered or left.
fn is_kept(
    answer: Result<Answer, Refusal>,
    before: Marks,
    after: Marks,
    is_same_state: bool,
) -> bool {
    match answer {
        Ok(Answer::Entered(_) | Answer::Released(Some(_))) => before.around == after.around,
        Ok(Answer::Drained(_)) => before == after,
        _ => before == after && is_same_state,
    }
}
