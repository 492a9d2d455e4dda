// The order of the keys (due, seq).
ghost use Rattle.std.specs.Prelude.{◌≡◌, cond, ltb, get_or};
ghost use Rattle.held.specs.Order.{before_of};
ghost use Rattle.tournament.specs.Nodes.{less_of};

use crate::tree::Tree;

// The first or the second.
pub(crate) fn choose<T: Copy>(first: bool, a: T, b: T) -> T
    ensures { result ≡ cond first a b }
{
    if first { a } else { b }
}

impl Tree<'_> {
    // Whether slot a's seq is less than slot b's.
    fn earlier(self, a: u32, b: u32) -> bool
        ensures { result ≡ ltb (get_or self.entry.seqs.now a 0) (get_or self.entry.seqs.now b 0) }
    {
        self.seq(a) < self.seq(b)
    }

    // Whether the key of one slot, given with its due, is before another's. Not by the order of tuples, since the seqs are read on a tie only.
    #[tactic(auto, unfolding(held::specs::Order::before_of))]
    pub(crate) fn before(self, a: (u32, f64), b: (u32, f64)) -> bool
        ensures { result ≡ before_of a.1 (get_or self.entry.seqs.now a.0 0) b.1 (get_or self.entry.seqs.now b.0 0) }
    {
        let less = a.1 < b.1;
        if less | (b.1 < a.1) {
            return less;
        }
        self.earlier(a.0, b.0)
    }

    // Whether slot a's key is before slot b's.
    #[tactic(auto, unfolding(crate::specs::Nodes::less_of))]
    pub(crate) fn less(self, a: u32, b: u32) -> bool
        ensures { result ≡ less_of self.entry.dues.now self.entry.seqs.now a b }
    {
        self.before((a, self.due(a)), (b, self.due(b)))
    }

    // Of two slots, given with their dues, the one whose key is before the other's. The lesser due is chosen without a branch, since no
    // processor can predict which one it is (with a branch a round took 69 ns in place of 39: docs/BENCHMARKS.md); a tie is rare and has
    // a branch of its own.
    #[tactic(auto, unfolding(held::specs::Order::before_of))]
    pub(crate) fn better(self, a: (u32, f64), b: (u32, f64)) -> (u32, f64)
        ensures { result ≡ cond (before_of a.1 (get_or self.entry.seqs.now a.0 0) b.1 (get_or self.entry.seqs.now b.0 0)) a b }
    {
        let less = a.1 < b.1;
        if less | (b.1 < a.1) {
            return choose(less, a, b);
        }
        choose(self.earlier(a.0, b.0), a, b)
    }
}
