// Bytes copied within the pool, where source and target are both in it: what the Rust does with `Vec::extend_from_slice`.
#![tactic(auto)]

ghost use Rattle.std.specs.Prelude.{◌≡◌, ◌+◌, ◌≤◌, ◌<◌, length, set};
ghost use Rattle.pool.specs.Carry.{carried};

// The byte b at place i of a lent part.
fn put(part: &mut [u8], i: usize, b: u8)
    requires { i < length part.old }
    ensures { part.new ≡ set part.old i b }
{
    part[i] = b;
}

// The byte b at place i of the part of the pool from `to` on, which is lent on.
// Kept: 01 asks that the part from block start plus length on is lent to what copies.
fn put_at(pool: &mut [u8], to: usize, i: usize, b: u8)
    requires { to + i < length pool.old }
    ensures { pool.new ≡ set pool.old (to + i) b }
{
    put(&mut pool[to..], i, b);
}

// The n bytes of the pool from `from` on copied to `to` on, the lowest first.
pub fn carry(pool: &mut [u8], from: usize, to: usize, n: usize)
    requires { (from + n ≤ length pool.old) × (to + n ≤ length pool.old) }
    ensures { pool.new ≡ carried pool.old from to n }
{
    for i in 0..n {
        let b = pool[from + i];
        put_at(pool, to, i, b);
    }
}
