// Reads a capture: a list of calls, each behind a small header (docs/HOST.md has the layout). Of input that is not one it says which call and why: no
// call is made of bytes that did not come.
#![tactic(auto)]

mod call;
mod faults;
mod text;

ghost use Rattle.std.specs.Prelude.{◌≤◌, OnOk};

pub use call::{Call, Memory, Place, Sent, SetUp};
pub use faults::{Fault, Wrong, tell};
use std::io::Read;
pub use text::show;

// How many bytes of each memory are lent, or there is room for.
#[derive(Clone, Copy, Debug, PartialEq, Eq)]
pub struct Lent {
    pub slots: usize,
    pub pool: usize,
    pub books: usize,
}

impl Lent {
    // Nothing is wrong where there is room for as much.
    pub fn within(self, room: Lent) -> Result<(), Wrong>
        ensures { OnOk result ((self.slots ≤ room.slots) × (self.pool ≤ room.pool) × (self.books ≤ room.books)) }
    {
        fits("slots", self.slots, room.slots)?;
        fits("the pool", self.pool, room.pool)?;
        fits("books", self.books, room.books)
    }
}

// Nothing is wrong where a memory has room for what is lent of it.
fn fits(memory: &'static str, lent: usize, room: usize) -> Result<(), Wrong>
    ensures { OnOk result (lent ≤ room) }
{
    if lent <= room {
        Ok(())
    } else {
        Err(Wrong::Lends { memory, lent, room })
    }
}

// A call's header: what is called, its numbers a to h, and the lengths of its two runs.
#[derive(Clone, Copy)]
pub struct Header {
    pub what: u32,
    pub numbers: [u32; 8],
    first: u32,
    second: u32,
}

impl From<[u8; 48]> for Header {
    fn from(bytes: [u8; 48]) -> Header {
        let word = |i: usize| words::get32(&bytes, 4 * i);
        Header {
            what: word(0),
            numbers: [
                word(1),
                word(2),
                word(3),
                word(4),
                word(5),
                word(6),
                word(7),
                word(8),
            ],
            first: word(9),
            second: word(10),
        }
    }
}

// A read failed behind so many bytes.
#[derive(Clone, Copy)]
struct Failed(usize);

// Call `number` of the capture on standard input, the first 1: its two runs in `bytes`, one behind the other. None at the end of the input; a fault
// where it is not a whole call of those that the program knows, and that it has room for.
pub fn fetch<'a, C: TryFrom<Header, Error = Wrong> + Copy>(
    rt: &impl Input,
    number: u64,
    bytes: &'a mut [u8],
) -> Result<Option<Sent<'a, C>>, Fault> {
    let mut input = rt.reader();
    let mut header = [0u8; 48];
    match read_full(&mut input, &mut header) {
        Ok(48) => match fetch_runs(&mut input, Header::from(header), bytes) {
            Ok(sent) => Ok(Some(sent)),
            Err(wrong) => Err(Fault::Call { number, wrong }),
        },
        Ok(0) if number <= 1 => Err(Fault::Empty),
        Ok(0) => Ok(None),
        Ok(got) => Err(Fault::Call {
            number,
            wrong: Wrong::CutShort { got, size: 48 },
        }),
        Err(_) => Err(Fault::Unreadable(number)),
    }
}

// The call that a header heads, and the runs behind it.
fn fetch_runs<'a, C: TryFrom<Header, Error = Wrong> + Copy>(
    input: &mut impl Read,
    header: Header,
    bytes: &'a mut [u8],
) -> Result<Sent<'a, C>, Wrong> {
    let call = C::try_from(header)?;
    let size = header.first as usize + header.second as usize;
    let room = bytes.len();
    if room < size {
        return Err(Wrong::Brings { size, room });
    }
    let runs = &mut bytes[..size];
    let got = match read_full(input, runs) {
        Ok(got) | Err(Failed(got)) => got,
    };
    if got < size {
        return Err(Wrong::CutShort { got, size });
    }
    let (first, second) = runs.split_at(header.first as usize);
    Ok(Sent {
        call,
        first,
        second,
    })
}

// Reads until a memory is full, the input ends or a read fails; answers how many bytes came.
fn read_full(input: &mut impl Read, s: &mut [u8]) -> Result<usize, Failed> {
    let mut count: usize = 0;
    // Kept: `read_exact` does not say how many bytes came.
    while count < s.len() {
        match input.read(&mut s[count..]) {
            Ok(0) => break,
            Ok(n) => count += n,
            Err(_) => return Err(Failed(count)),
        }
    }
    Ok(count)
}
