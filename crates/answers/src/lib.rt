// What calls of the coalescer answer: a value or a refusal, the counts, and a cell with the bytes that it names. The C layer hands out numbers; here
// they become these.
#![tactic(auto)]

ghost use Rattle.std.specs.Prelude.{◌≡◌, ◌+◌, ◌<◌, ◌≤◌, ◌/◌, ◌%◌, length, IfOk, IfErr, IfSome, IfNone};
ghost use Rattle.words.specs.Word.{with_word32};

use std::fmt;

// The number of a refusal.
#[derive(Clone, Copy, Debug, PartialEq, Eq)]
pub struct Refusal(pub u32);

impl fmt::Display for Refusal {
    fn fmt<W: fmt::Write>(&self, f: &mut fmt::Formatter<W>) -> fmt::Result {
        write!(f, "refused {}", self.0)
    }
}

// What a call answers: a value, 0 where it has none, or why it did nothing.
pub type Answer = Result<u32, Refusal>;

// The answer of a call that answers the refusal alone, 0 for none.
pub fn done(refusal: u32) -> Answer
    ensures value { IfOk result (λ v. (v ≡ 0) × (refusal ≡ 0)) }
    ensures refused { IfErr result (λ r. (r.0 ≡ refusal) × (1 ≤ refusal)) }
{
    match refusal {
        0 => Ok(0),
        number => Err(Refusal(number)),
    }
}

// An answer of two numbers, which the C layer hands out as one: the refusal in the upper 32 bits, the value in the lower.
pub fn answer_in(both: u64) -> Answer
    ensures value { IfOk result (λ v. (v ≡ both % 4294967296) × (both < 4294967296)) }
    ensures refused { IfErr result (λ r. (r.0 ≡ both / 4294967296) × (4294967296 ≤ both)) }
{
    done((both >> 32) as u32).and(Ok((both % 4294967296) as u32))
}

// The limit, which the C layer hands out as one number: 1 in the upper 32 bits where one is set, and its rows in the lower.
pub fn limit_in(both: u64) -> Option<u32>
    ensures rows { IfSome result (λ n. (n ≡ both % 4294967296) × (4294967296 ≤ both)) }
    ensures unset { IfNone result (both < 4294967296) }
{
    match both >> 32 {
        0 => None,
        _ => Some((both % 4294967296) as u32),
    }
}

// What the state says between calls: rows buffered, batches queued, whether one is, whether all is empty, and the limit.
#[derive(Clone, Copy, Debug, PartialEq, Eq)]
pub struct Counts {
    pub buffered: u32,
    pub queued: u32,
    pub completed: bool,
    pub empty: bool,
    pub limit: Option<u32>,
}

impl fmt::Display for Counts {
    fn fmt<W: fmt::Write>(&self, f: &mut fmt::Formatter<W>) -> fmt::Result {
        write!(f, "buffered {}, queued {}", self.buffered, self.queued)
    }
}

// A cell of the front batch: null, in its row in the slots, or in a buffer.
#[derive(Clone, Copy, Debug, PartialEq, Eq)]
pub enum Cell {
    Null,
    InRow {
        place: u32,
        length: u32,
    },
    InBuffer {
        buffer: u32,
        offset: u32,
        length: u32,
    },
}

impl From<[u8; 20]> for Cell {
    // The five words that a read wrote. The third, the upper half of a place in the slots, is 0 wherever less than 4 GiB is lent.
    fn from(words: [u8; 20]) -> Cell {
        let place = words::get32(&words, 4);
        let length = words::get32(&words, 16);
        match words::get32(&words, 0) {
            0 => Cell::Null,
            1 => Cell::InRow { place, length },
            _ => Cell::InBuffer {
                buffer: place,
                offset: words::get32(&words, 12),
                length,
            },
        }
    }
}

impl fmt::Display for Cell {
    fn fmt<W: fmt::Write>(&self, f: &mut fmt::Formatter<W>) -> fmt::Result {
        match self {
            Cell::Null => f.write_str("null"),
            Cell::InRow { place, length } => write!(f, "in its row at {place}, length {length}"),
            Cell::InBuffer {
                buffer,
                offset,
                length,
            } => write!(f, "in buffer {buffer} at {offset}, length {length}"),
        }
    }
}

// The word of a memory at a place, 0 where it is not all there.
pub fn word_at(s: &[u8], at: usize) -> u32 {
    match s.get(at..) {
        Some(rest) => rest
            .first_chunk()
            .map_or(0, |word| u32::from_le_bytes(*word)),
        None => 0,
    }
}

// The word put at a place of a memory, where there is one.
pub fn put_word(s: &mut [u8], at: usize, word: u32)
    ensures put { at + 4 ≤ length s.old → s.new ≡ with_word32 s.old at word }
    ensures past { length s.old < at + 4 → s.new ≡ s.old }
{
    if at <= s.len() && 4 <= s.len() - at {
        words::put32(s, at, word);
    }
}

// The n bytes from a start on, or none where they are not all there.
pub fn part(s: &[u8], start: usize, n: usize) -> &[u8] {
    s.get(start..).and_then(|rest| rest.get(..n)).unwrap_or(&[])
}
