// The player strip: plays the capture of a match on standard input. Each batch that completes is taken into the strip, and a frame is written: who
// is out on each side, and who comes back next.
#![tactic(auto)]

use calls::{Memories, memory};
use std::io;
use std::io::IsTerminal;
use strip_player::Strip;

fn main(rt: HostRuntime) -> io::Result<()> {
    let mut slots = memory::<65536>();
    let mut pool = memory::<65536>();
    let mut books = memory::<65536>();
    let mut bytes = memory::<65536>();
    let memories = Memories::new(&mut slots, &mut pool, &mut books);
    let in_place = rt.stdout().is_terminal();
    turns::play(&rt, &mut Strip::new(memories, in_place), &mut bytes)
}
