// Runs the block sizes of 01's edges that the table of worked examples leaves, both sides of each, and prints the
// answers, which are held to the file stdout.
#![tactic(auto)]

use blocks::BufferSource;
use counts::ByteSum;
use std::io;

// What is asked of a fresh size.
const FRESH: [u64; 18] = [
    0,
    4095,
    4096,
    4097,
    8191,
    16383,
    16385,
    32767,
    32768,
    65535,
    65536,
    524287,
    524288,
    1048575,
    1048577,
    1999999,
    4294967295,
    281470681743360,
];

// 01: "T 4, ten rows of 1,000 bytes, actual 30,000: blocks 16,384, 32,768, 65,536; ideal is not recomputed per part".
const TEN_ROWS: [u64; 3] = [10000, 10000, 10000];

// The doubling of small asks up to the largest size, and past it.
const SMALL: [u64; 10] = [1; 10];

// A large ask, then a small one: the large one is not kept.
const LARGE: [u64; 4] = [2000000, 1, 1048577, 1];

// One ask, printed: what was asked, the answer, the size that is kept.
fn ask(rt: &impl Print, source: BufferSource, min: u64) -> io::Result<BufferSource> {
    if source.current.0 == 0 {
        return Ok(source);
    }
    let next = source.next_size(ByteSum(min));
    let size = next.size.0;
    let kept = next.source.current.0;
    println!(rt; "ask {min} gives {size}, keeps {kept}")?;
    Ok(next.source)
}

// Ask after ask: of one source, or each of a fresh one.
fn chain(rt: &impl Print, title: &str, asks: &[u64], anew: bool) -> io::Result<()> {
    println!(rt; "{title}")?;
    let mut source = BufferSource::new();
    for min in asks {
        if anew {
            source = BufferSource::new();
        }
        source = ask(rt, source, *min)?;
    }
    Ok(())
}

fn main(rt: HostRuntime) -> io::Result<()> {
    chain(&rt, "fresh", &FRESH, true)?;
    chain(&rt, "ten rows of 1,000 bytes", &TEN_ROWS, false)?;
    chain(&rt, "small asks", &SMALL, false)?;
    chain(&rt, "large, then small", &LARGE, false)
}
