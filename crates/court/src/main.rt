// The main job, to watch: the rows of a match go through the coalescer. Plays the capture on standard input, a batch of the court box at a
// time; prints each batch that completes as a table, in order, and drops it.
#![tactic(auto)]

use calls::{Memories, memory};
use player::Table;
use std::io;

fn main(rt: HostRuntime) -> io::Result<()> {
    let mut slots = memory::<65536>();
    let mut pool = memory::<65536>();
    let mut books = memory::<65536>();
    let mut bytes = memory::<65536>();
    let mut scratch = memory::<65536>();
    let memories = Memories::new(&mut slots, &mut pool, &mut books);
    turns::play(&rt, &mut Table::new(memories, &mut scratch), &mut bytes)
}
