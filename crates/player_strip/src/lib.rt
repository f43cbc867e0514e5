// The player strip of 02, K6, over the coalescer: the front batch read into a strip's bytes, and taken. Added by the port.
#![tactic(auto)]

ghost use Rattle.std.specs.Prelude.{◌≡◌, true, [], ◌+◌, ◌*◌, ◌≤◌, ◌<◌, length, get_or};
ghost use Rattle.words.specs.Run.{put};
ghost use Rattle.state.specs.World.{world};
ghost use Rattle.state.specs.Layout.{queued_slot};
ghost use Rattle.ranges.specs.Passed.{PassedTests};
ghost use Rattle.outs.specs.Outs.{given_number, given_took};
ghost use Rattle.outs.specs.Coding.{code_of, strip_of, is_strip};
ghost use Rattle.outs.specs.Answers.{refusal_of};
ghost use Rattle.match_rows.specs.MatchRow.{is_match, row_number, row_took, row_numbers, after_rows};
ghost use Rattle.match_rows.specs.Placed.{Placed, long_at, places_of, placed_row, placed_rows};
ghost use Rattle.player_strip.specs.StripCall.{read_refusal, read_call};
ghost use Rattle.player_strip.specs.Promises.{front_count, ReadsFront, Reads, Takes};

use counts::RowCount;
use match_rows::Places;
use outs::Refusal;
use state::BatchCoalescer;

// What reading answers: 0 or the number of the refusal, and how many rows were read.
// Kept: strip_story's `code_read` speaks of this type's fields, and `pw_strip_read` answers both numbers.
#[derive(Clone, Copy)]
pub struct Read {
    pub number: u32,
    pub rows: RowCount,
}

// What taking answers: the state besides.
// Kept: strip_story's `code-take` speaks of this type's fields, and `pw_strip_take` keeps the state and answers both numbers.
#[derive(Clone, Copy)]
pub struct Taken {
    pub state: BatchCoalescer,
    pub number: u32,
    pub rows: RowCount,
}

// ---- rows

// The number, side and event of row i with a name: taken, or refused and nothing changed.
fn take_named(
    slots: &[u8],
    books: &[u8],
    p: Places,
    i: usize,
    name: &[u8],
    strip: &mut [u8],
) -> Result<(), Refusal>
    requires { (Placed slots.now books.now p) × (i < p.rows) × (is_strip strip.old ≡ true) }
    ensures { (refusal_of result ≡ given_number (strip_of strip.old) (long_at slots.now (p.numbers + 8 * i)) (get_or slots.now (p.sides + i) 0) (get_or slots.now (p.events + i) 0) name.now) × (strip.new ≡ code_of (given_took (strip_of strip.old) (long_at slots.now (p.numbers + 8 * i)) (get_or slots.now (p.sides + i) 0) (get_or slots.now (p.events + i) 0) name.now)) }
{
    let number = match_rows::long_at(slots, p.numbers + 8 * i);
    let side = p.sides + i;
    let event = p.events + i;
    outs::take_coded(strip, number, slots[side], slots[event], name)
}

// Row i taken, or refused and nothing changed.
fn take_row(
    slots: &[u8],
    pool: &[u8],
    books: &[u8],
    p: Places,
    i: usize,
    strip: &mut [u8],
) -> Result<(), Refusal>
    requires { (Placed slots.now books.now p) × (i < p.rows) × (is_strip strip.old ≡ true) }
    ensures { (refusal_of result ≡ row_number (strip_of strip.old) (placed_row slots.now pool.now books.now p i)) × (strip.new ≡ code_of (row_took (strip_of strip.old) (placed_row slots.now pool.now books.now p i))) }
{
    if match_rows::is_whole_at(slots, books, p, i) {
        let at = p.names + 16 * i;
        let v = views::view_at(slots, at);
        if v.length <= views::MAX_INLINE_VIEW_LEN {
            let from = at + 4;
            let end = from + (v.length as usize);
            take_named(slots, books, p, i, &slots[from..end], strip)
        } else {
            let name = match_rows::long_name(slots, pool, books, p, v);
            take_named(slots, books, p, i, name, strip)
        }
    } else {
        Err(Refusal::OutOfRange)
    }
}

// The first n rows, one after the other, the number of each in `numbers`. A refused row does not stop those behind it.
fn take_rows(
    slots: &[u8],
    pool: &[u8],
    books: &[u8],
    p: Places,
    n: usize,
    strip: &mut [u8],
    numbers: &mut [u8],
)
    requires { (Placed slots.now books.now p) × (n ≤ p.rows) × (n ≤ length numbers.old) × (is_strip strip.old ≡ true) }
    ensures { (strip.new ≡ code_of (after_rows (strip_of strip.old) (placed_rows slots.now pool.now books.now p n))) × (numbers.new ≡ put 0 (row_numbers (strip_of strip.old) (placed_rows slots.now pool.now books.now p n)) numbers.old) }
{
    for i in 0..n {
        numbers[i] = outs::refusal_of(take_row(slots, pool, books, p, i, strip));
    }
}

// ---- the front batch

// How many rows it has: none where nothing is queued.
fn front_rows(s: BatchCoalescer, slots: &[u8], books: &[u8]) -> RowCount
    requires { PassedTests s slots.now books.now }
    ensures { result.0 ≡ front_count s books.now }
{
    if s.queued == 0 {
        return RowCount(0);
    }
    let slot = layout::front_slot(s);
    slot_counts::rows_in(s, books, slot)
}

// Where a match's columns stand in it.
fn front_places(s: BatchCoalescer, slots: &[u8], books: &[u8]) -> Places
    requires { (PassedTests s slots.now books.now) × (is_match s ≡ true) }
    ensures { (result ≡ places_of (world s [] [] books.now) (queued_slot s 0)) × (Placed slots.now books.now result) }
{
    let slot = layout::front_slot(s);
    let count = slot_counts::list_length(s, books, slot, 3);
    match_rows::places_in(slot, s.rows.0, s.lists, count)
}

// ---- the calls

// The number of the refusal, beside a strip's bytes and room for so many answers.
// Kept: `ranges::tested` answers a number, and `Read` hands it on to the C interface as it is.
fn read_refusal(
    s: BatchCoalescer,
    slots: &[u8],
    pool: &[u8],
    books: &[u8],
    strip: &[u8],
    room: usize,
) -> u32
    ensures { result ≡ read_refusal (world s slots.now pool.now books.now) strip.now room }
{
    let number = ranges::tested(s, slots, pool, books);
    if number != 0 {
        return number;
    }
    let fault = outs::fault_of(outs::strip_fault(strip));
    if fault == 1 {
        return 1;
    }
    let rows = front_rows(s, slots, books);
    if room < (rows.0 as usize) {
        return 1;
    }
    if fault != 0 {
        return fault;
    }
    if match_rows::is_match(s) { 0 } else { 30 }
}

// The front batch read into the strip, behind the tests.
fn read_front(
    s: BatchCoalescer,
    slots: &[u8],
    pool: &[u8],
    books: &[u8],
    strip: &mut [u8],
    numbers: &mut [u8],
) -> RowCount
    requires { (PassedTests s slots.now books.now) × (is_match s ≡ true) × (is_strip strip.old ≡ true) × (front_count s books.now ≤ length numbers.old) }
    ensures { ReadsFront (world s slots.now pool.now books.now) strip.old strip.new numbers.old numbers.new result.0 }
{
    let p = front_places(s, slots, books);
    let rows = front_rows(s, slots, books);
    take_rows(slots, pool, books, p, rows.0 as usize, strip, numbers);
    rows
}

// The front batch read into a strip of 972 bytes, and left in the queue: the number of each row in `numbers`, 0 or 31 to 35. 1, 14 and 30 change nothing.
pub fn read_batch(
    s: BatchCoalescer,
    slots: &[u8],
    pool: &[u8],
    books: &[u8],
    strip: &mut [u8],
    numbers: &mut [u8],
) -> Read
    ensures { Reads (read_call (world s slots.now pool.now books.now) strip.old numbers.old) strip.new numbers.new result }
{
    let number = read_refusal(s, slots, pool, books, strip, numbers.len());
    if number == 0 {
        let rows = read_front(s, slots, pool, books, strip, numbers);
        Read { number: 0, rows }
    } else {
        Read {
            number,
            rows: RowCount(0),
        }
    }
}

// The front batch read, and then dropped, in one call: no batch is read twice, and none is lost between. A refused call changes nothing.
pub fn take_batch(
    s: BatchCoalescer,
    slots: &[u8],
    pool: &[u8],
    books: &mut [u8],
    strip: &mut [u8],
    numbers: &mut [u8],
) -> Taken
    ensures { Takes (world s slots.now pool.now books.old) strip.old numbers.old books.new strip.new numbers.new result }
{
    let read = read_batch(s, slots, pool, books, strip, numbers);
    let rows = read.rows;
    if read.number == 0 {
        let dropped = completed::next_completed_batch(s, slots, pool, books);
        let left = dropped.state;
        Taken {
            state: left,
            number: 0,
            rows,
        }
    } else {
        Taken {
            state: s,
            number: read.number,
            rows,
        }
    }
}
