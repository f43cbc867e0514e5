// What the player strip makes of the capture on standard input: each batch that completes is taken into the strip, and a frame is written.
#![tactic(auto)]

mod frame;

use answers::{Answer, done};
use calls::{Memories, memory};
use capture::{Call, Fault, Sent, Wrong};
use std::io;
use turns::{Player, Tally};

// The strip takes each batch as it completes, and hears no tests. `numbers` is for the answers of a batch's rows, and `text` for a frame with a line
// for each, which is written in place of the one before where that is asked.
#[derive(Drop)]
pub struct Strip<'m> {
    memories: Memories<'m>,
    strip: [u8; 972],
    numbers: [u8; 65536],
    text: [u8; 400000],
    in_place: bool,
    tally: Tally,
}

impl<'m> Strip<'m> {
    // Before the first call.
    pub fn new(memories: Memories<'m>, in_place: bool) -> Strip<'m> {
        Strip {
            memories,
            strip: memory(),
            numbers: memory(),
            text: memory(),
            in_place,
            tally: Tally::default(),
        }
    }

    // What is told of a call that was not refused: a set-up begins a new strip; where rows wait now and no batch is complete, a frame.
    fn tell<R: Print>(&mut self, rt: &R, call: Call) -> io::Result<()> {
        match call {
            Call::SetUp(_) => match done(capi_strip::pw_strip_new(&mut self.strip)) {
                Ok(_) => Ok(()),
                Err(refusal) => println!(rt; "a new strip, {refusal}"),
            },
            Call::Push { .. } | Call::Finish if !self.memories.is_completed() => {
                let waiting = self.memories.buffered();
                let in_place = self.in_place;
                frame::show(rt, in_place, &self.strip, waiting, b"", &mut self.text)
            }
            _ => Ok(()),
        }
    }
}

impl Player for Strip<'_> {
    type Call = Call;

    // A frame with the rows of the batch that were refused.
    fn take<R: Print>(&mut self, rt: &R) -> io::Result<Option<Answer>> {
        if !self.memories.is_completed() {
            return Ok(None);
        }
        let answer = self.memories.take(&mut self.strip, &mut self.numbers);
        self.tally.count(Call::Drop, answer);
        match answer {
            Ok(rows) => {
                let waiting = self.memories.buffered();
                let in_place = self.in_place;
                let n = self.numbers.len().min(rows as usize);
                frame::show(
                    rt,
                    in_place,
                    &self.strip,
                    waiting,
                    &self.numbers[..n],
                    &mut self.text,
                )?;
            }
            Err(refusal) => println!(rt; "the strip takes a batch, {refusal}")?,
        }
        Ok(Some(answer))
    }

    fn hear(&mut self, sent: &Sent<'_, Call>) -> Result<(), Wrong> {
        self.memories.hear(sent.call, usize::MAX)?;
        turns::of_match(sent)
    }

    fn make<R: Print>(&mut self, rt: &R, sent: &Sent<'_, Call>) -> io::Result<()> {
        if sent.call.is_test() {
            return Ok(());
        }
        let answer = self.memories.make(sent);
        self.tally.count(sent.call, answer);
        match answer {
            Ok(_) => self.tell(rt, sent.call),
            Err(refusal) => println!(rt; "{}, {refusal}", frame::name(sent.call)),
        }
    }

    fn verdict(&self) -> Result<(), Fault> {
        self.tally.verdict()
    }
}
