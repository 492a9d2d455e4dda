// What a slot has beside its key. Document 01 has each field of a copy as a table of its own.
ghost use Rattle.std.specs.Prelude.{◌≡◌, ◌<◌, ◌^◌, length};
ghost use Rattle.queue.specs.Tables.{written_of};
ghost use Rattle.queue.specs.Lent.{rows_in, rows_seen, SameRows};

// The packet of which copies enter. Its bytes come beside it: in the struct, `Packet` and all that hold one would name their lifetime.
#[derive(Clone, Copy, Debug, PartialEq)]
pub struct Packet {
    pub due_ms: f64,
    pub arrival_ms: f64,
    pub route: u64,
    pub copy_id: u32,
    pub duplicated: bool,
}

// The lent tables and the store, to be read. The tree's tables and the free slots are lent beside them, since each call writes others of the three.
#[derive(Clone, Copy)]
pub struct Rows<'a> {
    pub arrivals: &'a [f64],
    pub routes: &'a [u64],
    pub copy_ids: &'a [u32],
    pub lengths: &'a [u32],
    pub store: &'a [u8],
}

// The lent tables and the store, to be written. A type beside `Rows`, so that a call that only reads asks for no more than that.
#[derive(Drop)]
pub struct RowsMut<'a> {
    pub arrivals: &'a mut [f64],
    pub routes: &'a mut [u64],
    pub copy_ids: &'a mut [u32],
    pub lengths: &'a mut [u32],
    pub store: &'a mut [u8],
}

impl RowsMut<'_> {
    // The same tables, to be read.
    pub fn shared(&self) -> Rows<'_>
        ensures { rows_seen result ≡ rows_in self.now }
    {
        Rows {
            arrivals: self.arrivals,
            routes: self.routes,
            copy_ids: self.copy_ids,
            lengths: self.lengths,
            store: self.store,
        }
    }

    // The copy's arrival, route, copy id, length and bytes are written into its slot, which has `width` bytes.
    #[tactic(auto, unfolding(crate::specs::Tables::written_of))]
    pub(crate) fn write(&mut self, width: u32, slot: u32, packet: Packet, bytes: &[u8])
        requires { length bytes.now < 2 ^ 32 }
        ensures written { rows_in self.new ≡ written_of width (rows_in self.old) slot packet.arrival_ms packet.route packet.copy_id bytes.now }
        ensures same { SameRows self.old self.new }
    {
        let at = slot as usize;
        tables::set(self.arrivals, at, packet.arrival_ms);
        tables::set(self.routes, at, packet.route);
        tables::set(self.copy_ids, at, packet.copy_id);
        tables::set(self.lengths, at, bytes.len() as u32);
        tables::fill(self.store, width, slot, bytes);
    }
}
