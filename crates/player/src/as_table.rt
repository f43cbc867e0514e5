// The rows of a match as a table.
use crate::cells::{self, Cells};
use answers::Answer;
use calls::Memories;
use capture::{Call, Fault, Sent, Wrong};
use std::io;
use turns::{Player, Tally};

// A table takes each batch as it completes, and hears no tests.
#[derive(Drop)]
pub struct Table<'m, 's> {
    memories: Memories<'m>,
    scratch: &'s mut [u8],
    tally: Tally,
}

// A table has the four columns of a match.
#[derive(Clone, Copy)]
struct FourColumns;

impl Cells for FourColumns {
    fn columns(&self) -> u32 {
        4
    }

    fn cell<R: Print>(&self, rt: &R, column: u32, bytes: Option<&[u8]>) -> io::Result<()> {
        table::cell(rt, column, bytes)
    }
}

impl<'m, 's> Table<'m, 's> {
    // Before the first call; `scratch` is for a buffer's bytes, which are read whole, and so as long as the pool.
    pub fn new(memories: Memories<'m>, scratch: &'s mut [u8]) -> Table<'m, 's> {
        Table {
            memories,
            scratch,
            tally: Tally::default(),
        }
    }

    // A call: what it ends is shown, then it is made, then told.
    fn call<R: Print>(&mut self, rt: &R, sent: &Sent<'_, Call>) -> io::Result<Answer> {
        let shown = match sent.call {
            Call::SetUp(_) => table::waiting(rt, self.memories.buffered()),
            Call::Drop => cells::show(rt, &FourColumns, &self.memories, self.scratch),
            _ => Ok(()),
        };
        let answer = self.memories.make(sent);
        self.tally.count(sent.call, answer);
        shown.and(table::line(rt, sent.call, answer))?;
        Ok(answer)
    }
}

impl Player for Table<'_, '_> {
    type Call = Call;

    fn take<R: Print>(&mut self, rt: &R) -> io::Result<Option<Answer>> {
        if !self.memories.is_completed() {
            return Ok(None);
        }
        let sent = Sent {
            call: Call::Drop,
            first: &[],
            second: &[],
        };
        Ok(Some(self.call(rt, &sent)?))
    }

    fn hear(&mut self, sent: &Sent<'_, Call>) -> Result<(), Wrong> {
        self.memories.hear(sent.call, self.scratch.len())?;
        turns::of_match(sent)
    }

    fn make<R: Print>(&mut self, rt: &R, sent: &Sent<'_, Call>) -> io::Result<()> {
        if sent.call.is_test() {
            return Ok(());
        }
        let _ = self.call(rt, sent)?;
        Ok(())
    }

    // Rows that still wait.
    fn end<R: Print>(&self, rt: &R) -> io::Result<()> {
        table::waiting(rt, self.memories.buffered())
    }

    fn verdict(&self) -> Result<(), Fault> {
        self.tally.verdict()
    }
}
