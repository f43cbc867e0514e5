// The state that coded bytes hold: docs/LAYOUT.md, "State".
// Bytes that do not code the state that they hold are told apart: a flag that is neither 0 nor 1, or a word that should be zero and is not.
#![tactic(auto)]

ghost use Rattle.std.specs.Prelude.{◌≡◌, ◌<◌, length};
ghost use Rattle.codes.specs.Code.{state_bytes, limit_in, block_in, is_flagged, is_column_coded, is_coded, column_in, columns_in, state_in, zero_state, decoded};

use blocks::BufferSource;
use codes::{Coded, STATE_BYTES};
use counts::{BufferNumber, ByteCount, RowCount};
use state::{BatchCoalescer, Column};
use std::array;

// A limit from a flag and a number of rows.
pub fn limit_of(set: u32, rows: u32) -> Option<RowCount>
    ensures { result ≡ limit_in set rows }
{
    if set == 0 { None } else { Some(RowCount(rows)) }
}

fn block_of(open: u32, number: u32) -> Option<BufferNumber>
    ensures { result ≡ block_in «open» number }
{
    if open == 0 {
        None
    } else {
        Some(BufferNumber(number))
    }
}

// A flag, and the word beside it that is zero where the flag is.
fn is_flagged(flag: u32, word: u32) -> bool
    ensures { result ≡ is_flagged flag word }
{
    if flag == 0 { word == 0 } else { flag == 1 }
}

// Whether the flag of column c is one.
fn is_column_coded(bytes: &[u8], c: usize) -> bool
    requires { (length bytes.now ≡ state_bytes) × (c < 16) }
    ensures { result ≡ is_column_coded bytes.now c }
{
    let at = 48 + 16 * c;
    is_flagged(words::get32(bytes, at + 8), words::get32(bytes, at + 12))
}

// Whether every flag is one.
fn is_coded(bytes: &[u8]) -> bool
    requires { length bytes.now ≡ state_bytes }
    ensures { result ≡ is_coded bytes.now }
{
    is_flagged(words::get32(bytes, 28), words::get32(bytes, 32))
        && (0..16).all(|c| is_column_coded(bytes, c))
}

// Column c of coded bytes.
fn column_at(bytes: &[u8], c: usize) -> Column
    requires { (length bytes.now ≡ state_bytes) × (c < 16) }
    ensures { result ≡ column_in bytes.now c }
{
    let at = 48 + 16 * c;
    let kind = words::get32(bytes, at);
    let current = words::get32(bytes, at + 4);
    let open = words::get32(bytes, at + 8);
    let number = words::get32(bytes, at + 12);
    Column {
        kind,
        source: BufferSource {
            current: ByteCount(current),
        },
        block: block_of(open, number),
    }
}

// The 16 columns of coded bytes.
fn columns_of(bytes: &[u8]) -> [Column; 16]
    requires { length bytes.now ≡ state_bytes }
    ensures { result ≡ columns_in bytes.now 16 }
{
    array::from_fn(|c| column_at(bytes, c))
}

// The state of zeros, of bytes that are not 304.
fn zero_state() -> BatchCoalescer
    ensures { result ≡ zero_state }
{
    let none = Column {
        kind: 0,
        source: BufferSource {
            current: ByteCount(0),
        },
        block: None,
    };
    BatchCoalescer {
        target: RowCount(0),
        rows: RowCount(0),
        queue: 0,
        columns: 0,
        lists: 0,
        numbers: 0,
        pool: ByteCount(0),
        limit: None,
        place: 0,
        queued: 0,
        buffered: RowCount(0),
        column: [none; 16],
    }
}

// The state that coded bytes hold.
fn state_of(bytes: &[u8]) -> BatchCoalescer
    requires { length bytes.now ≡ state_bytes }
    ensures { result ≡ state_in bytes.now }
{
    let column = columns_of(bytes);
    BatchCoalescer {
        target: RowCount(words::get32(bytes, 0)),
        rows: RowCount(words::get32(bytes, 4)),
        queue: words::get32(bytes, 8),
        columns: words::get32(bytes, 12),
        lists: words::get32(bytes, 16),
        numbers: words::get32(bytes, 20),
        pool: ByteCount(words::get32(bytes, 24)),
        limit: limit_of(words::get32(bytes, 28), words::get32(bytes, 32)),
        place: words::get32(bytes, 36),
        queued: words::get32(bytes, 40),
        buffered: RowCount(words::get32(bytes, 44)),
        column,
    }
}

// The state that 304 bytes hold, and 14 beside it where they do not code it; 1 where they are not so many.
pub fn decode(bytes: &[u8]) -> Coded
    ensures { result ≡ decoded bytes.now }
{
    if bytes.len() == STATE_BYTES {
        let state = state_of(bytes);
        if is_coded(bytes) {
            Coded { number: 0, state }
        } else {
            Coded { number: 14, state }
        }
    } else {
        Coded {
            number: 1,
            state: zero_state(),
        }
    }
}
