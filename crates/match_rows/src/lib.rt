// A row of the front batch as the strip takes it: 02, K6. Its four values are read through their places in the slot, which are worked out once a
// batch: no row sees the state.
#![tactic(auto)]

ghost use Rattle.std.specs.Prelude.{◌≡◌, [], ◌+◌, ◌*◌, ◌≤◌, ◌<◌, length, get_or};
ghost use Rattle.words.specs.Run.{read};
ghost use Rattle.match_rows.specs.MatchRow.{is_match};
ghost use Rattle.match_rows.specs.Placed.{places_in, long_at, whole_at, buffer_in, buffer_of, Placed};

use counts::BufferNumber;
use state::BatchCoalescer;
use views::View;

// Where the four columns of a match stand in a slot of so many rows: the first value of each, the list of the names' buffers, and how many
// numbers that list has. The bitmap of a column stands behind its values.
#[derive(Clone, Copy)]
pub struct Places {
    pub rows: usize,
    pub numbers: usize,
    pub sides: usize,
    pub events: usize,
    pub names: usize,
    pub list: usize,
    pub count: u32,
}

// ---- the columns

// Whether the columns are those of a match.
pub fn is_match(s: BatchCoalescer) -> bool
    ensures { result ≡ is_match s }
{
    let number = s.column[0].kind == 8;
    let side = s.column[1].kind == 5;
    let event = s.column[2].kind == 5;
    let name = s.column[3].kind == 18;
    (s.columns == 4) & (number & (side & (event & name)))
}

// Their places in a slot, of so many rows and with room for so many buffers in a list.
pub fn places_in(slot: u32, rows: u32, lists: u32, count: u32) -> Places
    requires { (slot ≤ 1024) × (rows ≤ 65536) × (lists ≤ 1024) }
    ensures { result ≡ places_in slot rows lists count }
{
    let n = rows as usize;
    let bits = (n + 7) / 8;
    let numbers = (slot as usize) * (26 * n + 4 * bits + 4 * (lists as usize));
    let sides = numbers + 8 * n + bits;
    let events = sides + n + bits;
    let names = events + n + bits;
    let list = names + 16 * n + bits;
    Places {
        rows: n,
        numbers,
        sides,
        events,
        names,
        list,
        count,
    }
}

// ---- a row

// Whether row i has its four values: none is null.
pub fn is_whole_at(slots: &[u8], books: &[u8], p: Places, i: usize) -> bool
    requires { (Placed slots.now books.now p) × (i < p.rows) }
    ensures { result ≡ whole_at slots.now p i }
{
    let number = bits::bit_at(slots, p.numbers + 8 * p.rows, 0, i);
    let side = bits::bit_at(slots, p.sides + p.rows, 0, i);
    let event = bits::bit_at(slots, p.events + p.rows, 0, i);
    let name = bits::bit_at(slots, p.names + 16 * p.rows, 0, i);
    ((number != 0) & (side != 0)) & ((event != 0) & (name != 0))
}

// The number at `at`: a UInt64, its lowest byte first.
pub fn long_at(slots: &[u8], at: usize) -> u64
    requires { at + 8 ≤ length slots.now }
    ensures { result ≡ long_at slots.now at }
{
    let low = words::get32(slots, at);
    let high = words::get32(slots, at + 4);
    (low as u64) + (high as u64) * 4294967296
}

// The n bytes from `from` on, as far as there are any.
fn part<'a>(s: &'a [u8], from: usize, n: usize) -> &'a [u8]
    ensures { result.now ≡ read from n s.now }
{
    if from <= s.len() {
        if n <= s.len() - from {
            let end = from + n;
            &s[from..end]
        } else {
            &s[from..]
        }
    } else {
        &s[..0]
    }
}

// The n bytes from an offset on of the part of the pool that a buffer fills, as far as there are any.
fn buffer_name<'a>(
    pool: &'a [u8],
    books: &[u8],
    number: BufferNumber,
    offset: u32,
    n: u32,
) -> &'a [u8]
    requires { 24 + 20 * number.0 ≤ length books.now }
    ensures { result.now ≡ read offset n (buffer_in pool.now books.now number.0) }
{
    let e = books::entry_at(books, number);
    let filled = part(pool, e.start as usize, e.length.0 as usize);
    part(filled, offset as usize, n as usize)
}

// The bytes that a long view of a name shows. None where its index lies past the list, which no history leaves.
pub fn long_name<'a>(slots: &[u8], pool: &'a [u8], books: &[u8], p: Places, v: View) -> &'a [u8]
    requires { Placed slots.now books.now p }
    ensures { result.now ≡ read v.offset v.length (buffer_of slots.now pool.now books.now p v.index) }
{
    if v.index < p.count {
        let k = words::get32(slots, p.list + 4 * (v.index as usize));
        buffer_name(pool, books, BufferNumber(k), v.offset, v.length)
    } else {
        &pool[..0]
    }
}
