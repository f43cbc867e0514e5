// Bits in lent bytes, the lowest bit of a byte first: one bit read, and fewer than eight appended inside one byte.
#![tactic(auto)]

ghost use Rattle.std.specs.Prelude.{◌≡◌, ◌+◌, ◌*◌, ◌/◌, ◌%◌, ◌≤◌, ◌<◌, ◌^◌, length};
ghost use Rattle.bits.specs.Bits.{bit_in, byte_with, with_bit, bits_from, ones, appended, across, value_of};

// Bit k of a byte.
fn bit_in(x: u8, k: usize) -> u8
    requires { k < 8 }
    ensures { result ≡ bit_in x k }
{
    (x >> k) & 1
}

// The c lowest bits of a byte.
fn low(x: u8, c: usize) -> u8
    requires { c < 8 }
    ensures { result ≡ x % 2 ^ c }
{
    x & ((1 << c) - 1)
}

// Eight bits from bit s of x on: the upper bits of x, then the lowest of z.
pub fn joined(x: u8, z: u8, s: usize) -> u8
    requires { (0 < s) × (s < 8) }
    ensures { result ≡ across x z s }
{
    (x >> s) | (z << (8 - s))
}

// A byte with its bits below k, then those of v, and zeros above.
fn byte_with(x: u8, k: usize, v: u8) -> u8
    requires { (k < 8) × (v * 2 ^ k < 256) }
    ensures { result ≡ byte_with x k v }
{
    low(x, k) | (v << k)
}

// Fewer than eight bits from bit s of byte q on, as a number; the byte after q is read only where a wanted bit lies in it.
fn few(src: &[u8], q: usize, s: usize, c: usize) -> u8
    requires { (s < 8) × (0 < c) × (c < 8) × (8 * q + s + c ≤ 8 * length src.now) }
    ensures { result ≡ value_of (bits_from src.now q s) c }
{
    if s + c > 8 {
        return low(joined(src[q], src[q + 1], s), c);
    }
    low(src[q] >> s, c)
}

// The bits of v put at bit `at`, with zeros above them in that byte.
fn put_few(dst: &mut [u8], at: usize, v: u8)
    requires { (at / 8 < length dst.old) × (v * 2 ^ (at % 8) < 256) }
    ensures { dst.new ≡ with_bit dst.old at v }
{
    dst[at / 8] = byte_with(dst[at / 8], at % 8, v);
}

// Fewer than eight bits of a run appended inside one byte.
pub fn append_few(dst: &mut [u8], at: usize, src: &[u8], start: usize, first: usize, c: usize)
    requires { (at + c ≤ 8 * length dst.old) × (8 * start + first + c ≤ 8 * length src.now) × (at % 8 + c ≤ 8) × (c < 8) }
    ensures { dst.new ≡ appended dst.old at (bits_from src.now start first) c }
{
    if c == 0 {
        return;
    }
    let v = few(src, start + first / 8, first % 8, c);
    put_few(dst, at, v);
}

// Fewer than eight ones appended inside one byte.
pub fn ones_few(dst: &mut [u8], at: usize, c: usize)
    requires { (at + c ≤ 8 * length dst.old) × (at % 8 + c ≤ 8) × (c < 8) }
    ensures { dst.new ≡ appended dst.old at ones c }
{
    if c == 0 {
        return;
    }
    put_few(dst, at, low(255, c));
}

// Bit i of the run that begins `first` bits after byte `start`.
pub fn bit_at(s: &[u8], start: usize, first: usize, i: usize) -> u8
    requires { (8 * start + first + i < 8 * length s.now) × (first + i < 2 ^ 62) }
    ensures { result ≡ bits_from s.now start first i }
{
    let p = first + i;
    bit_in(s[start + p / 8], p % 8)
}
