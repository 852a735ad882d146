// Big-endian numbers in byte slices: one reader and one writer for every width up to eight bytes.
#![tactic(auto)]

ghost use Rattle.std.specs.Prelude.{◌≡◌, ◌+◌, ◌≤◌, ◌<◌, length};
ghost use Rattle.wire.specs.Digits.{number_at, digits};
ghost use Rattle.wire.specs.Placed.{placed};

// A byte as a number: of `wide(s[i])` only the index is left to prove, of a cast of s[i] the byte too.
pub fn wide(x: u8) -> u64
    ensures { (result ≡ x) × (result < 256) }
{
    x as u64
}

// The number that the width bytes at a place spell: for widths of which the library has no method. Those of 4 and 8 follow.
pub fn number(s: &[u8], at: usize, width: usize) -> u64
    requires { (width ≤ 8) × (at + width ≤ length s.now) }
    ensures { result ≡ number_at width s.now at }
{
    let mut n: u64 = 0;
    for i in 0..width {
        n = n * 256 + wide(s[at + i]);
    }
    n
}

// The number that four bytes spell: one load and one swap.
pub fn number32(s: &[u8], at: usize) -> u32
    requires { at + 4 ≤ length s.now }
    ensures { result ≡ number_at 4 s.now at }
{
    u32::from_be_bytes([s[at], s[at + 1], s[at + 2], s[at + 3]])
}

// The number that eight bytes spell, likewise.
pub fn number64(s: &[u8], at: usize) -> u64
    requires { at + 8 ≤ length s.now }
    ensures { result ≡ number_at 8 s.now at }
{
    u64::from_be_bytes([
        s[at],
        s[at + 1],
        s[at + 2],
        s[at + 3],
        s[at + 4],
        s[at + 5],
        s[at + 6],
        s[at + 7],
    ])
}

// Writes a number as width bytes at a place; every other byte stays.
pub fn put(out: &mut [u8], at: usize, width: usize, value: u64)
    requires { at + width ≤ length out.old }
    ensures { out.new ≡ placed out.old at (digits width value) }
{
    let mut n = value;
    for i in (0..width).rev() {
        out[at + i] = (n % 256) as u8;
        n = n / 256;
    }
}
