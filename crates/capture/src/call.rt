// The calls of docs/HOST.md that are made on the coalescer, a line of text among them, and what a program is sent of each.
use crate::{Header, Lent, Wrong};
use std::fmt;

// A memory whose bytes a call shows or overwrites.
#[derive(Clone, Copy, Debug, PartialEq, Eq)]
pub enum Memory {
    State,
    Slots,
    Books,
    Pool,
}

impl From<u32> for Memory {
    fn from(number: u32) -> Memory {
        match number {
            0 => Memory::State,
            1 => Memory::Slots,
            2 => Memory::Books,
            _ => Memory::Pool,
        }
    }
}

impl fmt::Display for Memory {
    fn fmt<W: fmt::Write>(&self, f: &mut fmt::Formatter<W>) -> fmt::Result {
        f.write_str(match self {
            Memory::State => "state",
            Memory::Slots => "slots",
            Memory::Books => "books",
            Memory::Pool => "pool",
        })
    }
}

// What a set-up asks for, and lends.
#[derive(Clone, Copy, Debug, PartialEq, Eq)]
pub struct SetUp {
    pub target: u32,
    pub rows: u32,
    pub queue: u32,
    pub lists: u32,
    pub numbers: u32,
    pub lent: Lent,
}

// A place in a memory.
#[derive(Clone, Copy, Debug, PartialEq, Eq)]
pub struct Place {
    pub memory: Memory,
    pub at: u32,
}

// A call and its numbers.
#[derive(Clone, Copy, Debug, PartialEq, Eq)]
pub enum Call {
    SetUp(SetUp),
    Register { capacity: u32 },
    LetGo { buffer: u32 },
    Push { rows: u32 },
    Finish,
    Drop,
    Limit(Option<u32>),
    ReadRow { column: u32, row: u32 },
    ReadBuffer { buffer: u32 },
    Counts,
    ShowBooks,
    Overwrite { place: Place, word: u32 },
    Lend(Lent),
    ShowBytes { place: Place, count: u32 },
    Text,
}

impl Call {
    // What it lends of the memories, where it lends other lengths than before.
    pub fn lent(self) -> Option<Lent> {
        match self {
            Call::SetUp(asked) => Some(asked.lent),
            Call::Lend(lent) => Some(lent),
            _ => None,
        }
    }

    // Whether it is for tests: it reads, or overwrites what no history would.
    pub fn is_test(self) -> bool {
        matches!(
            self,
            Call::ReadRow { .. }
                | Call::ReadBuffer { .. }
                | Call::Counts
                | Call::ShowBooks
                | Call::Overwrite { .. }
                | Call::ShowBytes { .. }
        )
    }
}

impl TryFrom<Header> for Call {
    type Error = Wrong;

    fn try_from(header: Header) -> Result<Call, Wrong> {
        let [a, b, c, ..] = header.numbers;
        let place = Place {
            memory: Memory::from(a),
            at: b,
        };
        Ok(match header.what {
            1 => Call::SetUp(SetUp::from(header)),
            2 => Call::Register { capacity: a },
            3 => Call::LetGo { buffer: a },
            4 => Call::Push { rows: a },
            5 => Call::Finish,
            6 => Call::Drop,
            7 => Call::Limit(if a == 0 { None } else { Some(b) }),
            8 => Call::ReadRow { column: a, row: b },
            9 => Call::ReadBuffer { buffer: a },
            10 => Call::Counts,
            11 => Call::ShowBooks,
            12 => Call::Overwrite { place, word: c },
            13 => Call::Lend(Lent::from(header)),
            14 => Call::ShowBytes { place, count: c },
            99 => Call::Text,
            what => return Err(Wrong::NoKind(what)),
        })
    }
}

impl From<Header> for SetUp {
    fn from(header: Header) -> SetUp {
        let [target, rows, queue, lists, numbers, ..] = header.numbers;
        SetUp {
            target,
            rows,
            queue,
            lists,
            numbers,
            lent: Lent::from(header),
        }
    }
}

impl From<Header> for Lent {
    fn from(header: Header) -> Lent {
        let [.., f, g, h] = header.numbers;
        Lent {
            slots: f as usize,
            pool: h as usize,
            books: g as usize,
        }
    }
}

// A call with the two runs of bytes behind its header.
#[derive(Clone, Copy)]
pub struct Sent<'a, C> {
    pub call: C,
    pub first: &'a [u8],
    pub second: &'a [u8],
}

// What a call that changes memory is named in a line; the others have no such line.
impl fmt::Display for Sent<'_, Call> {
    fn fmt<W: fmt::Write>(&self, f: &mut fmt::Formatter<W>) -> fmt::Result {
        match self.call {
            Call::SetUp(asked) => write!(
                f,
                "set-up T {} R {} Q {} B {} N {}",
                asked.target, asked.rows, asked.queue, asked.lists, asked.numbers
            ),
            Call::Register { capacity } => {
                write!(f, "register {} of {capacity}", self.second.len())
            }
            Call::LetGo { buffer } => write!(f, "let go {buffer}"),
            Call::Push { rows } => write!(f, "push {rows}"),
            Call::Finish => f.write_str("finish"),
            Call::Drop => f.write_str("drop"),
            Call::Limit(None) => f.write_str("limit none"),
            Call::Limit(Some(rows)) => write!(f, "limit {rows}"),
            _ => Ok(()),
        }
    }
}
