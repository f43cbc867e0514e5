// What each call of the C layer answers and leaves (specs/Api.antt), and the state or the refusal that all but those on the state alone begin with. The functions
// stand in crates of their own: `capi_set_up`, `capi_batches`, `capi_buffers`, `capi_reads`, `capi_front`, `capi_state`; their exports in `puffwidget`.
// No function trusts its caller beyond what a slice is: its contract says what it answers and leaves on any bytes. An answer of two numbers is
// one u64: the refusal in the upper 32 bits, or 0, and the value in the lower.
#![tactic(auto)]

ghost use Rattle.std.specs.Prelude.{◌≡◌, cond, MatchResult};
ghost use Rattle.ranges.specs.Tested.{fits_lengths};
ghost use Rattle.capi.specs.Api.{memory, Codes, CodesNone};

use codes::Coded;
use state::BatchCoalescer;

// The refusal of bytes that do not code the state they hold: 1 is tested on that state as on any, and only then they are 14.
pub fn uncoded(coded: Coded, slots: usize, pool: usize, books: usize) -> u32
    ensures { result ≡ cond (fits_lengths coded.state slots pool books) coded.number 1 }
{
    let s = coded.state;
    if ranges::fits_set_up(s, slots, pool, books) {
        coded.number
    } else {
        1
    }
}

// The state that bytes code, or the refusal of bytes that code none.
// Kept: each call matches on this itself; as a closure for one function around them it would borrow other memories each time, and be no shorter.
pub fn coded_state(
    state: &[u8],
    slots: &[u8],
    pool: &[u8],
    books: &[u8],
) -> Result<BatchCoalescer, u32>
    ensures { MatchResult result (λ s. Codes state.now s) (λ n. CodesNone (memory state.now slots.now pool.now books.now) n) }
{
    let coded = decoding::decode(state);
    if coded.number == 0 {
        Ok(coded.state)
    } else {
        Err(uncoded(coded, slots.len(), pool.len(), books.len()))
    }
}
