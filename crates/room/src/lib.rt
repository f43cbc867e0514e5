// Room for a buffer: the number and the start that it gets; a block opened there; and a trial that puts the books back. Definitions and
// laws; the functions are `making_room` and `trial_end`.
#![tactic(auto)]

use counts::BufferNumber;

// Where a buffer goes: its number and its start in the pool.
#[derive(Clone, Copy)]
pub struct Room {
    pub number: BufferNumber,
    pub start: u32,
}
