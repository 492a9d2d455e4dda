// The tables that a queue is lent, each by its name.
use std::fmt;

#[derive(Clone, Copy, Debug, PartialEq, Eq)]
pub enum Table {
    Win,
    Free,
    Dues,
    Seqs,
    Arrivals,
    Routes,
    CopyIds,
    Lengths,
    Store,
}

impl Table {
    pub const ALL: [Table; 9] = [
        Table::Win,
        Table::Free,
        Table::Dues,
        Table::Seqs,
        Table::Arrivals,
        Table::Routes,
        Table::CopyIds,
        Table::Lengths,
        Table::Store,
    ];
}

impl fmt::Display for Table {
    fn fmt<W: fmt::Write>(&self, f: &mut fmt::Formatter<W>) -> fmt::Result {
        f.write_str(match self {
            Table::Win => "win",
            Table::Free => "free",
            Table::Dues => "dues",
            Table::Seqs => "seqs",
            Table::Arrivals => "arrivals",
            Table::Routes => "routes",
            Table::CopyIds => "copy ids",
            Table::Lengths => "lengths",
            Table::Store => "store",
        })
    }
}
