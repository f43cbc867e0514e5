// The state coded in 304 bytes, for a host that keeps it between calls: docs/LAYOUT.md, "State". Definitions and laws, the round trip
// among them; the functions are `decoding` and `encoding`.
#![tactic(auto)]

use state::BatchCoalescer;

// The bytes of a coded state.
pub const STATE_BYTES: usize = 304;

// What bytes hold: a state, and in `number` 0 where they code it, else 14; 1 and the state of zeros where they are not so many.
// Kept: no Result, for a state counts beside 14 too: the calls on the state alone take 304 bytes as they are, and `uncoded` tests 1 on them first;
// `decoded`, and the theorems of `promise` and `strip_story` over it, speak of both fields.
#[derive(Clone, Copy)]
pub struct Coded {
    pub number: u32,
    pub state: BatchCoalescer,
}
