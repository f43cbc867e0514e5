// Prints a call of a capture and what it answered, a line a call; and the rows of a batch in hexadecimal. For the programs `edges` and
// `replay`. It is handed answers: of the memories it sees the books, which it shows, and the bytes that a capture asks to see. An error is
// one of standard output.
#![tactic(auto)]

use answers::{Answer, Cell, Counts, Refusal, word_at};
use capture::{Call, Place, Sent, show};
use std::{fmt, io};

// The line of a call that was made, with the text or the bytes that it brought. Calls that read print by the functions below.
pub fn line(
    rt: &impl Print,
    sent: &Sent<'_, Call>,
    answer: Answer,
    counts: Counts,
) -> io::Result<()> {
    let told = Told(answer);
    match sent.call {
        Call::Register { .. } => match answer {
            Ok(number) => println!(rt; "{sent}{told}, number {number}"),
            Err(_) => println!(rt; "{sent}{told}"),
        },
        Call::LetGo { .. } => println!(rt; "{sent}{told}"),
        Call::Drop => { println!(rt; "{sent}{told}, rows {}, {counts}", answer.unwrap_or(0)) }
        Call::Limit(_) => match counts.limit {
            Some(rows) => println!(rt; "{sent}{told}, set 1 to {rows}"),
            None => println!(rt; "{sent}{told}, set 0 to 0"),
        },
        Call::SetUp(_) | Call::Push { .. } | Call::Finish => {
            println!(rt; "{sent}{told}, {counts}")
        }
        Call::Counts => println!(rt;
            "counts: buffered {}, completed {}, empty {}",
            counts.buffered,
            u8::from(counts.completed),
            u8::from(counts.empty)
        ),
        Call::Text => {
            show(rt, sent.second)?;
            println!(rt)
        }
        _ => Ok(()),
    }
}

// Whether a call was done, behind its name, or that it was refused.
#[derive(Clone, Copy)]
pub struct Told(pub Answer);

impl fmt::Display for Told {
    fn fmt<W: fmt::Write>(&self, f: &mut fmt::Formatter<W>) -> fmt::Result {
        match self.0 {
            Ok(_) => f.write_str(": done"),
            Err(refusal) => write!(f, ": {refusal}"),
        }
    }
}

// A row's answer, a line: null, or where it is.
pub fn place(
    rt: &impl Print,
    column: u32,
    row: u32,
    cell: Result<Cell, Refusal>,
) -> io::Result<()> {
    match cell {
        Ok(cell) => println!(rt; "row {row} of column {column}: done, {cell}"),
        Err(refusal) => println!(rt; "row {row} of column {column}: {refusal}"),
    }
}

// A buffer's bytes, as many as were read of them, and the number beside them.
pub fn buffer(rt: &impl Print, number: u32, answer: Answer, read: &[u8]) -> io::Result<()> {
    let size = answer.unwrap_or(0);
    print!(rt; "buffer {number}: bytes {size}{}, '", Told(answer))?;
    show(rt, read.get(..size as usize).unwrap_or(read))?;
    println!(rt; "'")
}

// A cell of a row: two spaces before the first and one before each other, a line's end behind the last.
pub fn cell(rt: &impl Print, column: u32, last: u32, bytes: Option<&[u8]>) -> io::Result<()> {
    print!(rt; "{}{}", if column == 0 { "  " } else { " " }, Value(bytes))?;
    if column == last { println!(rt) } else { Ok(()) }
}

// A value: `-` for null, `.` for one of no bytes, else two digits a byte.
#[derive(Clone, Copy)]
struct Value<'a>(Option<&'a [u8]>);

impl fmt::Display for Value<'_> {
    fn fmt<W: fmt::Write>(&self, f: &mut fmt::Formatter<W>) -> fmt::Result {
        match self.0 {
            None => f.write_str("-"),
            Some([]) => f.write_str("."),
            Some(bytes) => write!(f, "{}", Hex(bytes)),
        }
    }
}

// Two digits a byte.
#[derive(Clone, Copy)]
pub struct Hex<'a>(pub &'a [u8]);

impl fmt::Display for Hex<'_> {
    fn fmt<W: fmt::Write>(&self, f: &mut fmt::Formatter<W>) -> fmt::Result {
        for b in self.0 {
            write!(f, "{b:02x}")?;
        }
        Ok(())
    }
}

// Bytes of a memory as they stand, a line.
pub fn show_bytes(rt: &impl Print, place: Place, bytes: &[u8]) -> io::Result<()> {
    println!(rt; "{} at {}: {}", place.memory, place.at, Value(Some(bytes)))
}

// The entries of the books that are in use, as far as they are there: five words each.
pub fn show_books(rt: &impl Print, books: &[u8]) -> io::Result<()> {
    let Some((used, entries)) = books.split_at_checked(4) else {
        return Ok(());
    };
    let used = word_at(used, 0);
    println!(rt; "books: in use {used}")?;
    for (i, entry) in entries.chunks_exact(20).take(used as usize).enumerate() {
        println!(rt;
            "  {i}: start {}, capacity {}, length {}, hold {}, listings {}",
            word_at(entry, 0),
            word_at(entry, 4),
            word_at(entry, 8),
            word_at(entry, 12),
            word_at(entry, 16)
        )?;
    }
    Ok(())
}
