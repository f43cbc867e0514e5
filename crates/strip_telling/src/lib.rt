// Tells what every call of the capture on standard input answers, those on the strip (15 to 20) among them: for the program `strip_edges`.
#![tactic(auto)]

mod sent;
mod told;

use answers::{Answer, answer_in, done, put_word};
use calls::{Memories, memory};
use capture::{Fault, Sent, Wrong};
use sent::Call;
use std::io;
use told::Rows;
use turns::Player;

// It hears every call. The strip's memories are its own: as many bytes of them are lent as `size` and `rows` say, or all.
#[derive(Drop)]
pub struct Strip<'m> {
    memories: Memories<'m>,
    strip: [u8; 1024],
    numbers: [u8; 64],
    size: usize,
    rows: usize,
}

// The first n bytes of a memory, or all where there are fewer.
fn front(s: &mut [u8], n: usize) -> &mut [u8] {
    if n <= s.len() { &mut s[..n] } else { s }
}

// The front batch read into the strip, and left where it is: how many rows it has.
fn read(m: &mut Memories<'_>, strip: &mut [u8], numbers: &mut [u8]) -> Answer {
    answer_in(capi_strip::pw_strip_read(
        &m.state,
        &m.slots[..m.lent.slots],
        &m.pool[..m.lent.pool],
        &m.books[..m.lent.books],
        strip,
        numbers,
    ))
}

impl<'m> Strip<'m> {
    // Before the first call.
    pub fn new(memories: Memories<'m>) -> Strip<'m> {
        Strip {
            memories,
            strip: memory(),
            numbers: memory(),
            size: 972,
            rows: 64,
        }
    }

    // A read or a take, told.
    fn tell<R: Print>(&self, rt: &R, name: &'static str, answer: Answer) -> io::Result<()> {
        println!(rt;
            "{}",
            Rows {
                name,
                answer,
                counts: self.memories.counts(),
                strip: &self.strip,
                numbers: &self.numbers[..self.rows.min(64)],
            }
        )
    }
}

impl Player for Strip<'_> {
    type Call = Call;

    fn hear(&mut self, sent: &Sent<'_, Call>) -> Result<(), Wrong> {
        match sent.call {
            Call::Coalescer(call) => self.memories.hear(call, usize::MAX),
            Call::Lend { strip, numbers } => {
                self.size = strip as usize;
                self.rows = numbers as usize;
                Ok(())
            }
            _ => Ok(()),
        }
    }

    fn make<R: Print>(&mut self, rt: &R, sent: &Sent<'_, Call>) -> io::Result<()> {
        let (size, rows) = (self.size, self.rows);
        match sent.call {
            Call::Coalescer(call) => {
                let sent = Sent {
                    call,
                    first: sent.first,
                    second: sent.second,
                };
                let answer = self.memories.make(&sent);
                telling::line(rt, &sent, answer, self.memories.counts())
            }
            Call::New => {
                let answer = done(capi_strip::pw_strip_new(front(&mut self.strip, size)));
                println!(rt; "new strip{}", telling::Told(answer))
            }
            Call::Read => {
                let answer = read(
                    &mut self.memories,
                    front(&mut self.strip, size),
                    front(&mut self.numbers, rows),
                );
                self.tell(rt, "read", answer)
            }
            Call::Take => {
                let answer = self.memories.take(
                    front(&mut self.strip, size),
                    front(&mut self.numbers, rows),
                );
                self.tell(rt, "take", answer)
            }
            Call::Lend { .. } => Ok(()),
            Call::ShowBytes { place, count } => told::show_bytes(rt, &self.strip, place, count),
            Call::Overwrite { place, word } => {
                put_word(&mut self.strip, place as usize, word);
                Ok(())
            }
        }
    }

    fn verdict(&self) -> Result<(), Fault> {
        Ok(())
    }
}
