// The state as bytes: docs/LAYOUT.md, "State". Every function writes words behind what stands already.
#![tactic(auto)]

ghost use Rattle.std.specs.Prelude.{◌≡◌, ◌+◌, ◌*◌, ◌≤◌, ◌++◌, length, take};
ghost use Rattle.codes.specs.Code.{state_bytes, columns_at, bytes_of, limit_words, block_words, column_words, columns_words, set_up_words, count_words, code_of, limited, Words};

use counts::{BufferNumber, RowCount};
use state::{BatchCoalescer, Column};

// Words at `at`: each of the functions below writes behind what stands already, from word 0 on.
pub fn put_words<const N: usize>(bytes: &mut [u8], at: usize, ws: [u32; N])
    requires { at + 4 * N ≤ length bytes.old }
    ensures { take (at + 4 * N) bytes.new ≡ take at bytes.old ++ bytes_of ws.entry }
{
    for (i, w) in ws.iter().enumerate() {
        words::put32(bytes, at + 4 * i, *w);
    }
}

// What set-up fixed.
fn put_set_up(bytes: &mut [u8], s: BatchCoalescer)
    requires { length bytes.old ≡ state_bytes }
    ensures { take 28 bytes.new ≡ bytes_of (set_up_words s) }
{
    put_words(
        bytes,
        0,
        [
            s.target.0, s.rows.0, s.queue, s.columns, s.lists, s.numbers, s.pool.0,
        ],
    );
}

// The limit's two words, and nothing else changed; so they stand behind what stood before them.
pub fn set_limit(bytes: &mut [u8], limit: Option<RowCount>)
    requires { length bytes.old ≡ state_bytes }
    ensures { (bytes.new ≡ limited limit bytes.old) × (take 36 bytes.new ≡ take 28 bytes.old ++ bytes_of (limit_words limit)) }
{
    match limit {
        Some(most) => {
            words::put32(bytes, 28, 1);
            words::put32(bytes, 32, most.0);
        }
        None => {
            words::put32(bytes, 28, 0);
            words::put32(bytes, 32, 0);
        }
    }
}

// What calls change.
fn put_counts(bytes: &mut [u8], s: BatchCoalescer)
    requires { length bytes.old ≡ state_bytes }
    ensures { take columns_at bytes.new ≡ take 36 bytes.old ++ bytes_of (count_words s) }
{
    put_words(bytes, 36, [s.place, s.queued, s.buffered.0]);
}

fn put_block(bytes: &mut [u8], at: usize, block: Option<BufferNumber>)
    requires { at + 8 ≤ length bytes.old }
    ensures { take (at + 8) bytes.new ≡ take at bytes.old ++ bytes_of (block_words block) }
{
    match block {
        Some(k) => {
            put_words(bytes, at, [1, k.0]);
        }
        None => {
            put_words(bytes, at, [0, 0]);
        }
    }
}

fn put_column(bytes: &mut [u8], at: usize, column: Column)
    requires { at + 16 ≤ length bytes.old }
    ensures { take (at + 16) bytes.new ≡ take at bytes.old ++ bytes_of (column_words column) }
{
    let block = column.block;
    put_words(bytes, at, [column.kind, column.source.current.0]);
    put_block(bytes, at + 8, block);
}

fn put_columns(bytes: &mut [u8], s: BatchCoalescer)
    requires { length bytes.old ≡ state_bytes }
    ensures { bytes.new ≡ take columns_at bytes.old ++ bytes_of (columns_words s 16) }
{
    for (c, column) in s.column.iter().enumerate() {
        put_column(bytes, 48 + 16 * c, *column);
    }
}

// The state as bytes. Every value of the struct has words and 16 columns, so that its bytes decode to it: `decoded-code`.
pub fn encode(bytes: &mut [u8], s: BatchCoalescer)
    requires { length bytes.old ≡ state_bytes }
    ensures { (bytes.new ≡ code_of s) × Words s }
{
    let limit = s.limit;
    put_set_up(bytes, s);
    set_limit(bytes, limit);
    put_counts(bytes, s);
    put_columns(bytes, s);
}
