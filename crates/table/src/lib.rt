// Prints the rows of a match as a table, batch by batch, and beside it what the box does: for the program `court`. It is handed answers, and
// sees no memory. An error is one of standard output.
#![tactic(auto)]

use answers::Answer;
use capture::Call;
use std::{fmt, io};

// To the right of the table, where lines stand that say what the box does.
const BESIDE: usize = 57;

// The line of a call that was made, or none: set-up with the table's head, a push, the end, a batch that was taken; and of the other calls
// each that is refused.
pub fn line(rt: &impl Print, call: Call, answer: Answer) -> io::Result<()> {
    let end = End(answer);
    match call {
        Call::SetUp(asked) => {
            println!(rt; "rows the strip takes at once: {}{end}", asked.target)?;
            println!(rt; "                 row  side   event   player")
        }
        Call::Register { .. } => refused(rt, "the box registers a buffer", answer),
        Call::LetGo { .. } => refused(rt, "the box lets a buffer go", answer),
        Call::Push { rows } => println!(rt; "{:BESIDE$}the box sends {rows}{end}", ""),
        Call::Finish => println!(rt; "{:BESIDE$}the match ends{end}", ""),
        Call::Drop => taken(rt, answer),
        Call::Limit(_) => refused(rt, "the box sets the limit", answer),
        _ => Ok(()),
    }
}

// Rows that were sent and wait for more when a capture is over.
pub fn waiting(rt: &impl Print, rows: u32) -> io::Result<()> {
    match rows {
        0 => Ok(()),
        _ => println!(rt; "---- rows that wait for more: {rows}"),
    }
}

// What the box did, where it was refused.
fn refused(rt: &impl Print, what: &str, answer: Answer) -> io::Result<()> {
    match answer {
        Ok(_) => Ok(()),
        Err(_) => println!(rt; "{:BESIDE$}{what}{}", "", End(answer)),
    }
}

// The end of a line that says what the box does.
#[derive(Clone, Copy)]
struct End(Answer);

impl fmt::Display for End {
    fn fmt<W: fmt::Write>(&self, f: &mut fmt::Formatter<W>) -> fmt::Result {
        match self.0 {
            Ok(_) => Ok(()),
            Err(refusal) => write!(f, ", {refusal}"),
        }
    }
}

// Behind the rows of a batch, or a batch that could not be taken; a drop that found none prints nothing.
fn taken(rt: &impl Print, answer: Answer) -> io::Result<()> {
    match answer {
        Ok(0) => Ok(()),
        Ok(rows) => println!(rt; "---- rows to the strip: {rows}"),
        Err(_) => refused(rt, "the strip takes a batch", answer),
    }
}

// A cell of the table: a row's number right-aligned to the twenty places that the longest has, the side, the event, a player's name; `-` for none.
pub fn cell(rt: &impl Print, column: u32, bytes: Option<&[u8]>) -> io::Result<()> {
    match (column, bytes) {
        (0, Some(bytes)) => print!(rt; "{:>20}  ", number_of(bytes)),
        (0, None) => print!(rt; "{:>20}  ", "-"),
        (1, _) => print!(rt;
            "{}  ",
            Word {
                value: bytes.map(number_of),
                words: ["home", "away"],
                width: 5
            }
        ),
        (2, _) => print!(rt;
            "{}  ",
            Word {
                value: bytes.map(number_of),
                words: ["out", "revive"],
                width: 6
            }
        ),
        (_, Some(bytes)) => {
            capture::show(rt, bytes)?;
            println!(rt)
        }
        (_, None) => println!(rt; "-"),
    }
}

// The words for 1 and 2, and of any other value `?` and the value, in so many places.
#[derive(Clone, Copy)]
struct Word {
    value: Option<u64>,
    words: [&'static str; 2],
    width: usize,
}

impl fmt::Display for Word {
    fn fmt<W: fmt::Write>(&self, f: &mut fmt::Formatter<W>) -> fmt::Result {
        let width = self.width;
        let [one, two] = self.words;
        match self.value {
            None => write!(f, "{:<width$}", "-"),
            Some(1) => write!(f, "{one:<width$}"),
            Some(2) => write!(f, "{two:<width$}"),
            Some(odd) => {
                let rest = width.saturating_sub(1);
                write!(f, "?{odd:<rest$}")
            }
        }
    }
}

// A number of 8 bytes, or the first byte of another.
fn number_of(s: &[u8]) -> u64 {
    match <[u8; 8]>::try_from(s) {
        Ok(bytes) => u64::from_le_bytes(bytes),
        Err(_) => s.first().copied().map_or(0, u64::from),
    }
}
