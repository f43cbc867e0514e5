// Both sides of each edge of document 01, and each refusal: plays the capture on standard input and prints what every call answers, and the
// rows of each batch that is dropped. What it must print is said by a model of document 01, written apart from this code (host/runs/model).
#![tactic(auto)]

use calls::{Memories, memory};
use player::Lines;
use std::io;

fn main(rt: HostRuntime) -> io::Result<()> {
    let mut slots = memory::<262144>();
    let mut pool = memory::<262144>();
    // with 65,536 numbers
    let mut books = memory::<1400000>();
    let mut bytes = memory::<262144>();
    let mut scratch = memory::<262144>();
    let memories = Memories::new(&mut slots, &mut pool, &mut books);
    turns::play(&rt, &mut Lines::new(memories, &mut scratch), &mut bytes)
}
