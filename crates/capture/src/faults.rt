// What can be wrong with a capture that a program plays: a line on standard error each.
use std::{fmt, io};

// What is wrong with a call.
#[derive(Clone, Copy, Debug, PartialEq, Eq)]
pub enum Wrong {
    // It is none of docs/HOST.md, or none that this program knows.
    NoKind(u32),
    // Fewer bytes came than it has.
    CutShort {
        got: usize,
        size: usize,
    },
    // It brings more bytes than there is room for.
    Brings {
        size: usize,
        room: usize,
    },
    // It lends more bytes of a memory than there is room for.
    Lends {
        memory: &'static str,
        lent: usize,
        room: usize,
    },
    // It is a set-up of other columns than a match has.
    OtherColumns,
}

impl fmt::Display for Wrong {
    fn fmt<W: fmt::Write>(&self, f: &mut fmt::Formatter<W>) -> fmt::Result {
        match self {
            Wrong::NoKind(what) => write!(f, "is of no kind: {what}"),
            Wrong::CutShort { got, size } => {
                write!(f, "is cut short: {got} bytes of {size} are there")
            }
            Wrong::Brings { size, room } => write!(
                f,
                "brings {size} bytes, and this program has room for {room}"
            ),
            Wrong::Lends { memory, lent, room } => write!(
                f,
                "lends {lent} bytes of {memory}, and this program has room for {room}"
            ),
            Wrong::OtherColumns => f.write_str(
                "sets up other columns than a match has: UInt64, UInt8, UInt8, Utf8View",
            ),
        }
    }
}

// Why a capture is not played on, or what became of it.
#[derive(Clone, Copy, Debug, PartialEq, Eq)]
pub enum Fault {
    // Standard input can't be read at this call.
    Unreadable(u64),
    // There is no call in it.
    Empty,
    // A call can't be played.
    Call { number: u64, wrong: Wrong },
    // Standard output takes no more.
    OutputEnds,
    // A match was never set up.
    NeverSetUp,
    // So many calls of a match were refused: what they brought is not shown.
    Refused(u64),
}

impl fmt::Display for Fault {
    fn fmt<W: fmt::Write>(&self, f: &mut fmt::Formatter<W>) -> fmt::Result {
        match self {
            Fault::Unreadable(number) => {
                write!(f, "standard input can't be read, at call {number}")
            }
            Fault::Empty => f.write_str("there is no call in it"),
            Fault::Call { number, wrong } => write!(f, "call {number} {wrong}"),
            Fault::OutputEnds => f.write_str("standard output takes no more"),
            Fault::NeverSetUp => f.write_str("no set-up in it was done"),
            Fault::Refused(count) => write!(f, "calls refused: {count}"),
        }
    }
}

// A fault, told, where there is one. An error is one of standard error.
pub fn tell(rt: &impl Eprint, outcome: Result<(), Fault>) -> io::Result<()> {
    match outcome {
        Ok(()) => Ok(()),
        Err(fault) => eprintln!(rt; "capture: {fault}"),
    }
}
