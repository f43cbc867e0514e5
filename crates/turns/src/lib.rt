// A capture played, call after call, by a program that says what it does with each.
#![tactic(auto)]

use answers::Answer;
use capture::{Call, Fault, Header, Sent, Wrong};
use std::io;

// What a program does with a capture. Where something is written an error is one of standard output.
pub trait Player {
    // The calls that it knows.
    type Call: TryFrom<Header, Error = Wrong> + Copy;

    // Takes the front batch by itself, ahead of the capture's next call, where it does so and one is complete.
    fn take<R: Print>(&mut self, _rt: &R) -> io::Result<Option<Answer>> {
        Ok(None)
    }

    // Hears a call before it is made, and lends what it lends: what is wrong with it.
    fn hear(&mut self, sent: &Sent<'_, Self::Call>) -> Result<(), Wrong>;

    // Makes a call, and writes what is shown of it.
    fn make<R: Print>(&mut self, rt: &R, sent: &Sent<'_, Self::Call>) -> io::Result<()>;

    // Writes what stands behind the last call.
    fn end<R: Print>(&self, _rt: &R) -> io::Result<()> {
        Ok(())
    }

    // What there is to tell of the capture when all of it was played.
    fn verdict(&self) -> Result<(), Fault> {
        Ok(())
    }
}

// Plays the capture on standard input until there is no call, or one that can't be played: that is told. `bytes` is for what a call brings. An error
// is one of standard error.
pub fn play<P: Player>(
    rt: &(impl Input + Print + Eprint),
    player: &mut P,
    bytes: &mut [u8],
) -> io::Result<()> {
    let played = all_calls(rt, player, bytes);
    capture::tell(rt, played)?;
    capture::tell(rt, written(player.end(rt)))?;
    match played {
        Ok(()) => capture::tell(rt, player.verdict()),
        Err(_) => Ok(()),
    }
}

// Call after call. Where a batch that the program takes by itself was just refused the capture goes on first.
fn all_calls<P: Player>(
    rt: &(impl Input + Print),
    player: &mut P,
    bytes: &mut [u8],
) -> Result<(), Fault> {
    let mut number: u64 = 1;
    let mut stuck = false;
    for _ in 0..u64::MAX {
        let taken = if stuck {
            None
        } else {
            written(player.take(rt))?
        };
        if let Some(answer) = taken {
            stuck = answer.is_err();
        } else if one_call(rt, player, number, bytes)? {
            number = number.saturating_add(1);
            stuck = false;
        } else {
            break;
        }
    }
    Ok(())
}

// The capture's next call, heard and made; whether there is one.
fn one_call<P: Player>(
    rt: &(impl Input + Print),
    player: &mut P,
    number: u64,
    bytes: &mut [u8],
) -> Result<bool, Fault> {
    let Some(sent) = capture::fetch::<P::Call>(rt, number, bytes)? else {
        return Ok(false);
    };
    if let Err(wrong) = player.hear(&sent) {
        return Err(Fault::Call { number, wrong });
    }
    written(player.make(rt, &sent))?;
    Ok(true)
}

// What was written; where that could not be, standard output has ended.
fn written<T: Drop>(outcome: io::Result<T>) -> Result<T, Fault> {
    outcome.map_err(|_| Fault::OutputEnds)
}

// What became of a match: whether a set-up was done, and how many calls were refused.
#[derive(Clone, Copy, Debug, Default)]
pub struct Tally {
    begun: bool,
    refused: u64,
}

impl Tally {
    // A call of the match is counted with its answer.
    pub fn count(&mut self, call: Call, answer: Answer) {
        match answer {
            Ok(_) => self.begun |= matches!(call, Call::SetUp(_)),
            Err(_) => self.refused = self.refused.saturating_add(1),
        }
    }

    // That nothing was set up, or that calls were refused.
    pub fn verdict(&self) -> Result<(), Fault> {
        if !self.begun {
            Err(Fault::NeverSetUp)
        } else if 0 < self.refused {
            Err(Fault::Refused(self.refused))
        } else {
            Ok(())
        }
    }
}

// The kinds of a match's columns, a word each as set-up has them: UInt64, UInt8, UInt8, Utf8View.
const KINDS: [u8; 16] = [8, 0, 0, 0, 5, 0, 0, 0, 5, 0, 0, 0, 18, 0, 0, 0];

// Nothing is wrong with a call for a match, where a set-up has a match's columns.
pub fn of_match(sent: &Sent<'_, Call>) -> Result<(), Wrong> {
    match sent.call {
        Call::SetUp(_) if sent.first != KINDS.as_slice() => Err(Wrong::OtherColumns),
        _ => Ok(()),
    }
}
