// Runs of bits appended: up to the next whole byte, a byte at a time, and the rest.
#![tactic(auto)]

ghost use Rattle.std.specs.Prelude.{◌≡◌, ◌+◌, ◌*◌, ◌≤◌, ◌<◌, ◌^◌, length};
ghost use Rattle.bits.specs.Bits.{bits_from, ones, appended, head_bits};

// Whole bytes copied.
fn copy_whole(dst: &mut [u8], d: usize, src: &[u8], q: usize, m: usize)
    requires { (d + m ≤ length dst.old) × (q + m ≤ length src.now) }
    ensures { dst.new ≡ appended dst.old (8 * d) (bits_from src.now q 0) (8 * m) }
{
    dst[d..d + m].copy_from_slice(&src[q..q + m]);
}

// Whole bytes made of the upper bits of one byte and the lower bits of the next.
fn shift_whole(dst: &mut [u8], d: usize, src: &[u8], q: usize, s: usize, m: usize)
    requires { (d + m ≤ length dst.old) × (q + m < length src.now) × (0 < s) × (s < 8) }
    ensures { dst.new ≡ appended dst.old (8 * d) (bits_from src.now q s) (8 * m) }
{
    for i in 0..m {
        dst[d + i] = bits::joined(src[q + i], src[q + i + 1], s);
    }
}

// Whole bytes of a run appended from byte d on.
fn append_whole(dst: &mut [u8], d: usize, src: &[u8], start: usize, first: usize, m: usize)
    requires { (d + m ≤ length dst.old) × (8 * start + first + 8 * m ≤ 8 * length src.now) }
    ensures { dst.new ≡ appended dst.old (8 * d) (bits_from src.now start first) (8 * m) }
{
    let q = start + first / 8;
    let s = first % 8;
    if s == 0 {
        copy_whole(dst, d, src, q, m)
    } else {
        shift_whole(dst, d, src, q, s, m)
    }
}

// How many of n bits fill up the byte that bit `at` lies in, where it is begun already.
fn head_bits(at: usize, n: usize) -> usize
    ensures { result ≡ head_bits at n }
{
    let c = (8 - at % 8) % 8;
    c.min(n)
}

// n bits of the run that begins `first` bits after byte `start` of src, appended at bit `at` of dst.
#[tactic(auto, unfolding(bits::specs::Bits::head_bits))]
pub fn append_bits(dst: &mut [u8], at: usize, src: &[u8], start: usize, first: usize, n: usize)
    requires { (at + n ≤ 8 * length dst.old) × (8 * start + first + n ≤ 8 * length src.now) × (at + n < 2 ^ 62) × (first + n < 2 ^ 62) }
    ensures { dst.new ≡ appended dst.old at (bits_from src.now start first) n }
{
    let c = head_bits(at, n);
    let m = (n - c) / 8;
    let e = c + 8 * m;
    bits::append_few(dst, at, src, start, first, c);
    append_whole(dst, (at + c) / 8, src, start, first + c, m);
    bits::append_few(dst, at + e, src, start, first + e, n - e);
}

// Whole bytes of ones from byte d on.
fn ones_whole(dst: &mut [u8], d: usize, m: usize)
    requires { d + m ≤ length dst.old }
    ensures { dst.new ≡ appended dst.old (8 * d) ones (8 * m) }
{
    dst[d..d + m].fill(255);
}

// n ones appended at bit `at` of dst.
// Kept: a twin of `append_bits` by its three parts; a trait over the two sources, with a law for each part, would be longer than it.
#[tactic(auto, unfolding(bits::specs::Bits::head_bits))]
pub fn append_ones(dst: &mut [u8], at: usize, n: usize)
    requires { (at + n ≤ 8 * length dst.old) × (at + n < 2 ^ 62) }
    ensures { dst.new ≡ appended dst.old at ones n }
{
    let c = head_bits(at, n);
    let m = (n - c) / 8;
    let e = c + 8 * m;
    bits::ones_few(dst, at, c);
    ones_whole(dst, (at + c) / 8, m);
    bits::ones_few(dst, at + e, n - e);
}
