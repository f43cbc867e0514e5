// What every call answers, a line a call, and what it reads.
ghost use Rattle.std.specs.Prelude.{◌≤◌};

use crate::cells::{self, Cells};
use answers::word_at;
use calls::Memories;
use capture::{Call, Fault, Sent, Wrong};
use std::io;
use turns::Player;

// It hears every call but those on a strip, and takes no batch by itself.
#[derive(Drop)]
pub struct Lines<'m, 's> {
    memories: Memories<'m>,
    scratch: &'s mut [u8],
}

// As many columns as set-up asked for.
#[derive(Clone, Copy)]
struct Columns {
    count: u32,
    ghost few: { count ≤ 16 },
}

impl Cells for Columns {
    fn columns(&self) -> u32 {
        self.count
    }

    fn cell<R: Print>(&self, rt: &R, column: u32, bytes: Option<&[u8]>) -> io::Result<()> {
        telling::cell(rt, column, self.count.saturating_sub(1), bytes)
    }
}

impl<'m, 's> Lines<'m, 's> {
    // Before the first call; `scratch` is for a buffer's bytes, which are read whole, and so as long as the pool.
    pub fn new(memories: Memories<'m>, scratch: &'s mut [u8]) -> Lines<'m, 's> {
        Lines { memories, scratch }
    }

    // What a call reads or ends: the rows of the batch that a drop takes; a cell, a buffer's first bytes, the books, bytes of a memory.
    fn look<R: Print>(&mut self, rt: &R, call: Call) -> io::Result<()> {
        match call {
            Call::Drop => {
                // as many as stand in word 3 of the state, up to 16
                let count = word_at(&self.memories.state, 12).min(16);
                let columns = Columns { count };
                cells::show(rt, &columns, &self.memories, self.scratch)
            }
            Call::ReadRow { column, row } => {
                telling::place(rt, column, row, self.memories.cell(column, row))
            }
            Call::ReadBuffer { buffer } => {
                let mut read = [0u8; 64];
                let answer = self.memories.buffer(buffer, &mut read);
                telling::buffer(rt, buffer, answer, &read)
            }
            Call::ShowBooks => telling::show_books(rt, self.memories.books()),
            Call::ShowBytes { place, count } => {
                telling::show_bytes(rt, place, self.memories.bytes(place, count))
            }
            _ => Ok(()),
        }
    }
}

impl Player for Lines<'_, '_> {
    type Call = Call;

    fn hear(&mut self, sent: &Sent<'_, Call>) -> Result<(), Wrong> {
        self.memories.hear(sent.call, self.scratch.len())
    }

    fn make<R: Print>(&mut self, rt: &R, sent: &Sent<'_, Call>) -> io::Result<()> {
        let looked = self.look(rt, sent.call);
        let answer = self.memories.make(sent);
        looked.and(telling::line(rt, sent, answer, self.memories.counts()))
    }

    fn verdict(&self) -> Result<(), Fault> {
        Ok(())
    }
}
