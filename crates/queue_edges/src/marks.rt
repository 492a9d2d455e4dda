// What memory holds, as two numbers.
use queue_calls::{Memory, Part, Table};
use script::payload;

// The sums of what is lent and of what lies around it.
#[derive(Clone, Copy, PartialEq, Eq)]
pub struct Marks {
    pub lent: u64,
    pub around: u64,
}

pub fn of(part: Part, memory: &Memory) -> Marks {
    let none = Marks { lent: 0, around: 0 };
    let tree = none
        .with(part, Table::Win, &memory.win, |n| u64::from(*n))
        .with(part, Table::Free, &memory.free, |n| u64::from(*n))
        .with(part, Table::Dues, &memory.dues, bits)
        .with(part, Table::Seqs, &memory.seqs, |n| *n);
    tree.with(part, Table::Arrivals, &memory.arrivals, bits)
        .with(part, Table::Routes, &memory.routes, |n| *n)
        .with(part, Table::CopyIds, &memory.copy_ids, |n| u64::from(*n))
        .with(part, Table::Lengths, &memory.lengths, |n| u64::from(*n))
        .with_store(part, &memory.store)
}

impl Marks {
    // With the entries of a table, which `number` makes numbers.
    fn with<T, F: Fn(&T) -> u64>(
        mut self,
        part: Part,
        table: Table,
        entries: &[T],
        number: F,
    ) -> Marks
        requires { F.IsAlwaysCallable number }
    {
        let lent = part.start as usize..part.end(table);
        for (i, entry) in entries.iter().enumerate() {
            if lent.contains(&i) {
                self.lent = draws::mix(self.lent, number(entry));
            } else {
                self.around = draws::mix(self.around, number(entry));
            }
        }
        self
    }

    // With the bytes of the store, which are many: by one sum of what is lent, and one each of what lies before and behind it.
    fn with_store(self, part: Part, store: &[u8]) -> Marks {
        let start = part.start as usize;
        let end = part.end(Table::Store);
        let before = payload::sum(values::front(store, start));
        let lent = payload::sum(values::after(values::front(store, end), start));
        let behind = payload::sum(values::after(store, end));
        Marks {
            lent: draws::mix(self.lent, lent),
            around: draws::mix(draws::mix(self.around, before), behind),
        }
    }
}

// The bits of a float, and 1 for every NaN, since the bits 0 are those of the number 0. With an `Option`, as in `device_edges`, each use would be a closure
// with `unwrap_or`.
fn bits(x: &f64) -> u64 {
    if x.is_nan() { 1 } else { x.to_bits() }
}
