// What crosses the C layer: answers as numbers and as words, the state kept in bytes, bytes copied out, kinds from words. docs/HOST.md has the forms.
#![tactic(auto)]

ghost use Rattle.std.specs.Prelude.{◌≡◌, ◌≤◌, ◌/◌, length};
ghost use Rattle.words.specs.Run.{lay};
ghost use Rattle.pool.specs.Register.{refusal_of};
ghost use Rattle.rules.specs.Calls.{row_refusal};
ghost use Rattle.codes.specs.Code.{state_bytes};
ghost use Rattle.crossing.specs.Cross.{KeepsState, pair, number_in, limit_pair, place_words, row_bytes, kinds_to};

use counts::{BufferNumber, RowCount};
use state::{BatchCoalescer, Place, RowAnswer};

// Two numbers as one: the refusal in the upper 32 bits, or 0, and the value in the lower.
// Kept: no From, for the two numbers have no type of their own to convert.
pub fn both(refusal: u32, value: u32) -> u64
    ensures { result ≡ pair refusal value }
{
    (u64::from(refusal) << 32) | u64::from(value)
}

// What registering answers: the refusal, and the buffer's number.
pub fn registered_pair(answer: Result<BufferNumber, u32>) -> u64
    ensures { result ≡ pair (refusal_of answer) (number_in answer) }
{
    match answer {
        Ok(k) => both(0, k.0),
        Err(number) => both(number, 0),
    }
}

// The limit: 1 in the upper 32 bits where one is set, and its rows in the lower.
pub fn limit_pair(limit: Option<RowCount>) -> u64
    ensures { result ≡ limit_pair limit }
{
    match limit {
        Some(most) => both(1, most.0),
        None => 0,
    }
}

// Where a value is, in five words.
fn place_words(place: Place) -> [u32; 5]
    ensures { result ≡ place_words place }
{
    match place {
        Place::InRow(start, n) => {
            let low = (start % 4294967296) as u32;
            let high = (start / 4294967296) as u32;
            [1, low, high, 0, n.0]
        }
        Place::InBuffer(k, offset, n) => [2, k.0, 0, offset, n.0],
    }
}

// What reading a row answers: the refusal or 0, and the row in 20 bytes, which a refusal leaves.
// Kept: a number, as `pw_read_row` answers it across C.
pub fn put_answer(out: &mut [u8], answer: RowAnswer) -> u32
    requires { length out.old ≡ 20 }
    ensures { (result ≡ row_refusal answer) × (out.new ≡ row_bytes answer out.old) }
{
    match answer {
        RowAnswer::Null => {
            encoding::put_words(out, 0, [0; 5]);
            0
        }
        RowAnswer::Value(place) => {
            encoding::put_words(out, 0, place_words(place));
            0
        }
        RowAnswer::Refused(number) => number,
    }
}

// As many bytes of one slice as both have, at the front of the other.
pub fn copy_front(out: &mut [u8], part: &[u8])
    ensures { out.new ≡ lay 0 part.now out.old }
{
    let n = counts::smaller(out.len() as u64, part.len() as u64) as usize;
    out[..n].copy_from_slice(&part[..n]);
}

// The kinds that set-up is asked for, from words; 0 past the last.
pub fn kinds_of(kinds: &[u8]) -> [u32; 16]
    requires { length kinds.now ≤ 64 }
    ensures { result ≡ kinds_to kinds.now (length kinds.now / 4) }
{
    let mut all: [u32; 16] = [0; 16];
    for c in 0..kinds.len() / 4 {
        all[c] = words::get32(kinds, 4 * c);
    }
    all
}

// The state coded where the number of a refusal is 0; hands on that number.
// Kept: a number beside a state, as `KeepsState` and what the calls by value hand on (`Step`, `Dropped`) have it.
pub fn keep(state: &mut [u8], refusal: u32, s: BatchCoalescer) -> u32
    requires { length state.old ≡ state_bytes }
    ensures { KeepsState refusal s state.old state.new result }
{
    if refusal == 0 {
        encoding::encode(state, s);
        0
    } else {
        refusal
    }
}
