// Histories whose answers the Rust text was seen to give: plays the capture on standard input and prints what every call answers, and the
// rows of each batch that is dropped.
#![tactic(auto)]

use calls::{Memories, memory};
use player::Lines;
use std::io;

// Kept: beside `edges`, of other lengths; one function over the lengths would ask for a `requires` on each.
fn main(rt: HostRuntime) -> io::Result<()> {
    let mut slots = memory::<65536>();
    let mut pool = memory::<300000>();
    let mut books = memory::<65536>();
    let mut bytes = memory::<65536>();
    let mut scratch = memory::<300000>();
    let memories = Memories::new(&mut slots, &mut pool, &mut books);
    turns::play(&rt, &mut Lines::new(memories, &mut scratch), &mut bytes)
}
