// When the next copy is due.
ghost use Rattle.std.specs.Prelude.{◌≡◌};
ghost use Rattle.queue.specs.Refusals.{due_refusal};
ghost use Rattle.queue.specs.Calls.{next_due_of};

use crate::queue::ImpairQueue;
use numbers::{Refusal, check};

impl ImpairQueue {
    // The refusal that meets the question, given the lengths of the two tables that it reads.
    #[tactic(auto, unfolding(crate::specs::Refusals::due_refusal, crate::specs::Refusals::state_refusal, numbers::specs::Checks::first_refusal, numbers::specs::Checks::check_of))]
    fn judge_next_due(self, win: usize, dues: usize) -> Result<(), Refusal>
        ensures { result ≡ due_refusal self win dues }
    {
        let entries = self.cap as usize;
        check((entries <= win) & (entries <= dues), Refusal::Memory)?;
        self.judge_state()
    }

    // The least due of the held copies, that none is held, or a refusal by 23, 25 or 26.
    #[tactic(auto, using(numbers::specs::Laws::Literals::zero_is), unfolding(crate::specs::Calls::next_due_of, crate::specs::Calls::due_at))]
    pub fn next_due(self, win: &[u32], dues: &[f64]) -> Result<Option<f64>, Refusal>
        ensures { result ≡ next_due_of self win.now dues.now }
    {
        self.judge_next_due(win.len(), dues.len())?;
        if self.held == 0 {
            return Ok(None);
        }
        let root = tournament::least(win, self.leaves);
        if self.leaves <= root {
            return Err(Refusal::Keeping);
        }
        Ok(Some(tables::get(dues, root as usize, 0.0)))
    }
}
