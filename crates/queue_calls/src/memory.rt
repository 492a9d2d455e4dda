// The memory that a program lends to a queue.
use crate::part::Part;
use crate::table::Table;
use queue::{RowsMut, TreeMut};
use std::alloc::{AllocError, Global};

// The tables, each as long as the others, and the store.
// Document 01 has each field of an entry as a table of its own.
#[derive(Drop)]
pub struct Memory {
    pub win: Vec<u32>,
    pub free: Vec<u32>,
    pub dues: Vec<f64>,
    pub seqs: Vec<u64>,
    pub arrivals: Vec<f64>,
    pub routes: Vec<u64>,
    pub copy_ids: Vec<u32>,
    pub lengths: Vec<u32>,
    pub store: Vec<u8>,
}

// What a call is lent of it.
#[derive(Drop)]
pub struct Lent<'a> {
    pub tree: TreeMut<'a>,
    pub free: &'a mut [u32],
    pub rows: RowsMut<'a>,
}

impl Memory {
    // Zeros, so many in each table and in the store.
    pub fn new(alloc: Global, entries: usize, bytes: usize) -> Result<Memory, AllocError> {
        Ok(Memory {
            win: vec![in alloc; 0; entries]?,
            free: vec![in alloc; 0; entries]?,
            dues: vec![in alloc; 0.0; entries]?,
            seqs: vec![in alloc; 0; entries]?,
            arrivals: vec![in alloc; 0.0; entries]?,
            routes: vec![in alloc; 0; entries]?,
            copy_ids: vec![in alloc; 0; entries]?,
            lengths: vec![in alloc; 0; entries]?,
            store: vec![in alloc; 0; bytes]?,
        })
    }

    // All of it.
    pub fn lent(&mut self) -> Lent<'_> {
        Lent {
            tree: TreeMut {
                win: &mut self.win,
                dues: &mut self.dues,
                seqs: &mut self.seqs,
            },
            free: &mut self.free,
            rows: RowsMut {
                arrivals: &mut self.arrivals,
                routes: &mut self.routes,
                copy_ids: &mut self.copy_ids,
                lengths: &mut self.lengths,
                store: &mut self.store,
            },
        }
    }

    // A part of it.
    pub fn part(&mut self, part: Part) -> Lent<'_> {
        Lent {
            tree: TreeMut {
                win: part.of(Table::Win, &mut self.win),
                dues: part.of(Table::Dues, &mut self.dues),
                seqs: part.of(Table::Seqs, &mut self.seqs),
            },
            free: part.of(Table::Free, &mut self.free),
            rows: RowsMut {
                arrivals: part.of(Table::Arrivals, &mut self.arrivals),
                routes: part.of(Table::Routes, &mut self.routes),
                copy_ids: part.of(Table::CopyIds, &mut self.copy_ids),
                lengths: part.of(Table::Lengths, &mut self.lengths),
                store: part.of(Table::Store, &mut self.store),
            },
        }
    }
}
