// Both sides of each edge of the player strip, and each refusal: plays the capture on standard input and prints what every call answers. What it
// must print is said by a plain queue, written apart from this code (tools/strip_model.py).
#![tactic(auto)]

use calls::{Memories, memory};
use std::io;
use strip_telling::Strip;

fn main(rt: HostRuntime) -> io::Result<()> {
    let mut slots = memory::<65536>();
    let mut pool = memory::<65536>();
    let mut books = memory::<65536>();
    let mut bytes = memory::<65536>();
    let memories = Memories::new(&mut slots, &mut pool, &mut books);
    turns::play(&rt, &mut Strip::new(memories), &mut bytes)
}
