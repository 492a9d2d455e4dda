// Parts of the tables.
ghost use Rattle.std.specs.Prelude.{◌≤◌};

use crate::table::Table;

// From entry `start` of each table on so many entries, and of the store from byte `start` on `width` bytes for each; the table `short` lacks its last one.
#[derive(Clone, Copy)]
pub struct Part {
    pub start: u32,
    pub entries: u32,
    pub width: u32,
    pub short: Option<Table>,
}

impl Part {
    // Where the part of a table ends.
    pub fn end(self, table: Table) -> usize
        ensures { self.start ≤ result }
    {
        let width = if table == Table::Store { self.width } else { 1 };
        let whole = self.entries as usize * width as usize;
        self.start as usize + whole.saturating_sub(usize::from(self.short == Some(table)))
    }

    // The part of a table's entries; none of them where it has fewer.
    pub(crate) fn of<T>(self, table: Table, entries: &mut [T]) -> &mut [T] {
        let (start, end) = (self.start as usize, self.end(table));
        entries.get_mut(start..end).unwrap_or(&mut [])
    }
}
