// The calls of a capture made on the four memories, each at one place: what programs that play one know of the C layer.
#![tactic(auto)]

ghost use Rattle.std.specs.Prelude.{◌≡◌, ◌≤◌, length, replicate};

use answers::{Answer, Cell, Counts, Refusal, answer_in, done, part};
use capture::{Call, Lent, Memory, Place, Sent, SetUp, Wrong};

// A memory of so many bytes, all of them 0.
pub fn memory<const N: usize>() -> [u8; N]
    ensures { result ≡ replicate N 0 }
{
    [0; N]
}

// The memories that a capture's calls are made on, and how much of each but the state is lent.
#[derive(Drop)]
pub struct Memories<'a> {
    pub state: [u8; codes::STATE_BYTES],
    pub slots: &'a mut [u8],
    pub pool: &'a mut [u8],
    pub books: &'a mut [u8],
    pub lent: Lent,
    pub ghost in_slots: { lent.slots ≤ length slots.now },
    pub ghost in_pool: { lent.pool ≤ length pool.now },
    pub ghost in_books: { lent.books ≤ length books.now },
}

impl<'a> Memories<'a> {
    // Before the first call none is lent.
    pub fn new(slots: &'a mut [u8], pool: &'a mut [u8], books: &'a mut [u8]) -> Memories<'a> {
        Memories {
            state: [0; codes::STATE_BYTES],
            slots,
            pool,
            books,
            lent: Lent {
                slots: 0,
                pool: 0,
                books: 0,
            },
        }
    }

    // A call is heard: what it lends is lent from now on, where there is room for it, and no more of the pool than `most`.
    pub fn hear(&mut self, call: Call, most: usize) -> Result<(), Wrong>
        ensures { self.old.lent.pool ≤ most → self.new.lent.pool ≤ most }
    {
        if let Some(lent) = call.lent() {
            let room = Lent {
                slots: self.slots.len(),
                pool: self.pool.len().min(most),
                books: self.books.len(),
            };
            lent.within(room)?;
            self.lent = lent;
        }
        Ok(())
    }

    // Makes a call that changes memory, or none.
    pub fn make(&mut self, sent: &Sent<'_, Call>) -> Answer {
        match sent.call {
            Call::SetUp(asked) => self.set_up(asked, sent.first),
            Call::Register { capacity } => self.register(sent.second, capacity),
            Call::LetGo { buffer } => self.let_go(buffer),
            Call::Push { rows } => self.push(sent.first, sent.second, rows),
            Call::Finish => self.finish(),
            Call::Drop => self.drop_front(),
            Call::Limit(limit) => done(capi_state::pw_set_biggest_coalesce_batch_size(
                &mut self.state,
                u32::from(limit.is_some()),
                limit.unwrap_or(0),
            )),
            Call::Overwrite { place, word } => {
                self.overwrite(place, word);
                Ok(0)
            }
            _ => Ok(0),
        }
    }

    // A coalescer made new, with columns of these kinds.
    fn set_up(&mut self, asked: SetUp, kinds: &[u8]) -> Answer {
        done(capi_set_up::pw_new(
            &mut self.state,
            &self.slots[..self.lent.slots],
            &self.pool[..self.lent.pool],
            &mut self.books[..self.lent.books],
            kinds,
            asked.target,
            asked.rows,
            asked.queue,
            asked.lists,
            asked.numbers,
        ))
    }

    // A buffer registered: its number.
    fn register(&mut self, bytes: &[u8], capacity: u32) -> Answer {
        answer_in(capi_buffers::pw_register_buffer(
            &self.state,
            &self.slots[..self.lent.slots],
            &mut self.pool[..self.lent.pool],
            &mut self.books[..self.lent.books],
            bytes,
            capacity,
        ))
    }

    // A buffer let go.
    fn let_go(&mut self, buffer: u32) -> Answer {
        done(capi_buffers::pw_let_go(
            &self.state,
            &self.slots[..self.lent.slots],
            &self.pool[..self.lent.pool],
            &mut self.books[..self.lent.books],
            buffer,
        ))
    }

    // A batch pushed.
    fn push(&mut self, records: &[u8], body: &[u8], rows: u32) -> Answer {
        done(capi_batches::pw_push_batch(
            &mut self.state,
            &mut self.slots[..self.lent.slots],
            &mut self.pool[..self.lent.pool],
            &mut self.books[..self.lent.books],
            records,
            body,
            rows,
        ))
    }

    // The rows buffered queued.
    fn finish(&mut self) -> Answer {
        done(capi_batches::pw_finish_buffered_batch(
            &mut self.state,
            &mut self.slots[..self.lent.slots],
            &self.pool[..self.lent.pool],
            &mut self.books[..self.lent.books],
        ))
    }

    // The front batch dropped: how many rows it had.
    fn drop_front(&mut self) -> Answer {
        answer_in(capi_batches::pw_next_completed_batch(
            &mut self.state,
            &self.slots[..self.lent.slots],
            &self.pool[..self.lent.pool],
            &mut self.books[..self.lent.books],
        ))
    }

    // The front batch taken into a strip, with an answer for each row: how many rows it had.
    pub fn take(&mut self, strip: &mut [u8], numbers: &mut [u8]) -> Answer {
        answer_in(capi_strip::pw_strip_take(
            &mut self.state,
            &self.slots[..self.lent.slots],
            &self.pool[..self.lent.pool],
            &mut self.books[..self.lent.books],
            strip,
            numbers,
        ))
    }

    // A word of a memory overwritten, as no history would, where there is one; what is no other memory's is the books'.
    fn overwrite(&mut self, place: Place, word: u32) {
        let at = place.at as usize;
        match place.memory {
            Memory::State => answers::put_word(&mut self.state, at, word),
            Memory::Slots => answers::put_word(&mut self.slots[..self.lent.slots], at, word),
            Memory::Books | Memory::Pool => {
                answers::put_word(&mut self.books[..self.lent.books], at, word)
            }
        }
    }

    // The rows buffered.
    pub fn buffered(&self) -> u32 {
        capi_state::pw_get_buffered_rows(&self.state)
    }

    // Whether a batch is queued.
    pub fn is_completed(&self) -> bool {
        capi_state::pw_has_completed_batch(&self.state) != 0
    }

    // What the state says; the batches queued stand in its word 10.
    pub fn counts(&self) -> Counts {
        Counts {
            buffered: self.buffered(),
            queued: answers::word_at(&self.state, 40),
            completed: self.is_completed(),
            empty: capi_state::pw_is_empty(&self.state) != 0,
            limit: answers::limit_in(capi_state::pw_biggest_coalesce_batch_size(&self.state)),
        }
    }

    // A cell of the front batch.
    pub fn cell(&self, column: u32, row: u32) -> Result<Cell, Refusal> {
        let mut five = [0u8; 20];
        let slots = &*self.slots;
        let pool = &*self.pool;
        let books = &*self.books;
        let refusal = capi_reads::pw_read_row(
            &self.state,
            &slots[..self.lent.slots],
            &pool[..self.lent.pool],
            &books[..self.lent.books],
            column,
            row,
            &mut five,
        );
        match refusal {
            0 => Ok(Cell::from(five)),
            number => Err(Refusal(number)),
        }
    }
    // A buffer's first bytes copied to `out`: how many bytes the buffer has.
    pub fn buffer(&self, number: u32, out: &mut [u8]) -> Answer {
        let slots = &*self.slots;
        let pool = &*self.pool;
        let books = &*self.books;
        let slots = &slots[..self.lent.slots];
        let pool = &pool[..self.lent.pool];
        let books = &books[..self.lent.books];
        match capi_reads::pw_read_buffer(&self.state, slots, pool, books, number, out) {
            // refused, or a buffer of no bytes
            0 => done(capi_reads::pw_buffer_refusal(&self.state, slots, pool, books, number)),
            size => Ok((size % 4294967296) as u32),
        }
    }

    // The books that are lent.
    pub fn books(&self) -> &[u8] {
        &self.books[..self.lent.books]
    }

    // The n bytes of a memory from a place on, as they stand, or none where they are not all there.
    pub fn bytes(&self, place: Place, n: u32) -> &[u8] {
        let (start, n) = (place.at as usize, n as usize);
        match place.memory {
            Memory::State => part(&self.state, start, n),
            Memory::Slots => part(&self.slots[..self.lent.slots], start, n),
            Memory::Books => part(self.books(), start, n),
            Memory::Pool => part(&self.pool[..self.lent.pool], start, n),
        }
    }
}
