// Calls on states and memory that were altered: a refused call changes nothing, and no call changes what was not lent.
use crate::counts::TallyWords;
use crate::lines::Lines;
use crate::{chosen, judged, scatter, states};
use numbers::Refusal;
use queue::ImpairQueue;
use queue_calls::{Answer, Memory, Tally};
use script::payload;
use std::alloc::{AllocError, Global};
use std::io;
use std::io::Write;

pub fn run<W: Write>(lines: &mut Lines<W>) -> io::Result<()> {
    let tally = counted(lines.alloc, |_, _| ())?;
    writeln!(lines.out, "altered: {}", TallyWords(&tally))
}

// The slot width is altered too; of these calls is told whether they had every answer that slots can give, and how many did not keep what they had to.
pub fn run_widths<W: Write>(lines: &mut Lines<W>) -> io::Result<()> {
    let tally = counted(lines.alloc, |queue, seed| {
        queue.width = chosen::width_of(seed);
    })?;
    let answered = if has_every(&tally) { "yes" } else { "no" };
    let (calls, wrong) = (tally.calls(), tally.wrong());
    writeln!(
        lines.out,
        "altered widths: calls {calls} answered {answered} wrong {wrong}"
    )
}

// Whether copies entered and left, and calls were refused by 22, 23 and 26.
fn has_every(tally: &Tally) -> bool {
    let entered = tally.answered(|answer| matches!(answer, Answer::Entered(_)));
    let released = tally.answered(|answer| matches!(answer, Answer::Released(Some(_))));
    let too_long = tally.refused(Refusal::Length);
    let short = tally.refused(Refusal::Memory);
    let altered = tally.refused(Refusal::Keeping);
    entered > 0 && released > 0 && too_long > 0 && short > 0 && altered > 0
}

// Makes 4,000 calls, each on what the last one left, after it was altered, at last by `alter`.
fn counted<F: Fn(&mut ImpairQueue, u64)>(alloc: Global, alter: F) -> Result<Tally, AllocError>
    requires { F.IsAlwaysCallable alter }
{
    let mut queue = states::empty(0);
    let mut memory = Memory::new(alloc, 256, 16400)?;
    let mut bytes = vec![in alloc; 0; 4096]?;
    let mut tally = Tally::new(alloc);
    for turn in 0..4000 {
        let seed = draws::mix(turn, 1);
        scatter::some(&mut memory, seed);
        let filled = payload::fill(payload::front(&mut bytes, chosen::length_of(seed)), seed);
        queue = chosen::queue_of(queue, seed);
        alter(&mut queue, seed);
        let call = chosen::call_of(seed, filled);
        let part = chosen::part_of(seed);
        let (answer, is_kept) = judged::make(call, &mut queue, &mut memory, part);
        tally.add(answer, is_kept)?;
    }
    Ok(tally)
}
