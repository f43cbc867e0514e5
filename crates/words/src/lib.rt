// Bytes of lent memory: little-endian words of 32 bits in them, and runs copied from one slice to another.
// 01: "eight little-endian u32 words"; "All words little-endian, read as unsigned, as the Rust does."
#![tactic(auto)]

ghost use Rattle.std.specs.Prelude.{◌≡◌, ◌+◌, ◌≤◌, length};
ghost use Rattle.words.specs.Word.{word32, with_word32};
ghost use Rattle.words.specs.Run.{read, put};

// The word at `at`.
pub fn get32(s: &[u8], at: usize) -> u32
    requires { at + 4 ≤ length s.now }
    ensures { result ≡ word32 s.now at }
{
    u32::from_le_bytes([s[at], s[at + 1], s[at + 2], s[at + 3]])
}

// The word v at `at`, and nothing else changed.
pub fn put32(s: &mut [u8], at: usize, v: u32)
    requires { at + 4 ≤ length s.old }
    ensures { s.new ≡ with_word32 s.old at v }
{
    s[at..at + 4].copy_from_slice(&v.to_le_bytes());
}

// The bytes of src at the front of dst, which is a part that its owner lends.
pub fn copy_into(dst: &mut [u8], src: &[u8])
    requires { length src.now ≤ length dst.old }
    ensures { dst.new ≡ put 0 src.now dst.old }
{
    dst[..src.len()].copy_from_slice(src);
}

// The bytes of src at `at` of dst, and nothing else changed: the part of dst from there on is lent on.
pub fn put_bytes(dst: &mut [u8], at: usize, src: &[u8])
    requires { at + length src.now ≤ length dst.old }
    ensures { dst.new ≡ put at src.now dst.old }
{
    copy_into(&mut dst[at..], src);
}

// The n bytes of src from `from` on, at `at` of dst, and nothing else changed.
pub fn put_part(dst: &mut [u8], at: usize, src: &[u8], from: usize, n: usize)
    requires { (at + n ≤ length dst.old) × (from + n ≤ length src.now) }
    ensures { dst.new ≡ put at (read from n src.now) dst.old }
{
    let end = from + n;
    put_bytes(dst, at, &src[from..end]);
}
