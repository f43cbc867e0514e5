// The counts of each slot, which stand in the books behind the entries: its rows, and the list length of each column.
#![tactic(auto)]

ghost use Rattle.std.specs.Prelude.{◌≡◌, ◌+◌, ◌*◌, ◌≤◌, length};
ghost use Rattle.tallies.specs.Tally.{tally_place, tally_of, with_tally};

// Which count: of N buffer numbers and so many columns, the k-th word of a slot. 0 is its rows, c + 1 the list of column c.
// Kept: its bounds stand in each contract; as a ghost field they would be asked of `slot_counts` where it makes the value.
#[derive(Clone, Copy)]
pub struct Tally {
    pub numbers: u32,
    pub columns: u32,
    pub slot: u32,
    pub word: u32,
}

// The words of the slots before one.
fn words_before(columns: u32, slot: u32) -> u32
    requires { (columns ≤ 16) × (slot ≤ 1024) }
    ensures { (result ≡ (1 + columns) * slot) × (result ≤ 17408) }
{
    (1 + columns) * slot
}

// Where the count stands in the books.
fn place(t: Tally) -> usize
    requires { (t.numbers ≤ 65536) × (t.columns ≤ 16) × (t.slot ≤ 1024) × (t.word ≤ 16) }
    ensures { result ≡ tally_place t }
{
    let before = words_before(t.columns, t.slot);
    4 + 20 * (t.numbers as usize) + 4 * ((before + t.word) as usize)
}

// The count.
pub fn tally_at(books: &[u8], t: Tally) -> u32
    requires { (t.numbers ≤ 65536) × (t.columns ≤ 16) × (t.slot ≤ 1024) × (t.word ≤ 16) × (tally_place t + 4 ≤ length books.now) }
    ensures { result ≡ tally_of books.now t }
{
    words::get32(books, place(t))
}

// The count v, and nothing else changed.
pub fn put_tally(books: &mut [u8], t: Tally, v: u32)
    requires { (t.numbers ≤ 65536) × (t.columns ≤ 16) × (t.slot ≤ 1024) × (t.word ≤ 16) × (tally_place t + 4 ≤ length books.old) }
    ensures { books.new ≡ with_tally books.old t v }
{
    words::put32(books, place(t), v);
}
