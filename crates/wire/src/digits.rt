// Hexadecimal digits, written and read.
ghost use Rattle.std.proofs.Math.Option.{map};
ghost use Rattle.std.specs.Prelude.{◌≡◌, ◌+◌, ◌<◌, ◌≤◌, length, IfSome};
ghost use Rattle.std.proofs.Math.Seq.{paste};
ghost use Rattle.wire.specs.Digits.{digit_of, two, four, hex_of, value_of, two_at, four_at, octets_in, found, octets, octets_of, Exact};

// Up to 16 bytes: the first of the array, as many as count says. There is no heap, so an array has its count beside it.
#[derive(Clone, Copy)]
pub struct Octets {
    pub bytes: [u8; 16],
    pub count: u8,
}

impl Octets {
    // At most 16 bytes.
    #[tactic(auto, unfolding(crate::specs::Digits::padded))]
    pub fn of(t: &[u8]) -> Self
        requires { length t.now ≤ 16 }
        ensures { result ≡ octets t.now }
    {
        let mut bytes = [0u8; 16];
        bytes[..t.len()].copy_from_slice(t);
        Octets {
            bytes,
            count: t.len() as u8,
        }
    }
}

// The value of a digit, in either case.
pub fn value_of(b: u8) -> Option<u8>
    ensures { found result ≡ value_of b }
{
    if (0x30 <= b) & (b <= 0x39) {
        return Some(b - 0x30);
    }
    if (0x41 <= b) & (b <= 0x46) {
        return Some(b - 0x37);
    }
    if (0x61 <= b) & (b <= 0x66) {
        return Some(b - 0x57);
    }
    None
}

// The number that the two digits at a place give. A call would take as long as the two tests.
#[inline(always)]
pub fn two_at(s: &[u8], at: usize) -> Option<u8>
    requires { at + 1 < length s.now }
    ensures { found result ≡ two_at s.now at }
{
    let high = value_of(s[at])?;
    let low = value_of(s[at + 1])?;
    Some(high * 16 + low)
}

// The number that the four digits at a place give.
pub fn four_at(s: &[u8], at: usize) -> Option<u16>
    requires { at + 3 < length s.now }
    ensures { found result ≡ four_at s.now at }
{
    let high = two_at(s, at)?;
    let low = two_at(s, at + 2)?;
    Some(high as u16 * 256 + low as u16)
}

// The bytes that two digits each give, at most 16 of them.
pub fn octets_in(t: &[u8]) -> Option<Octets>
    ensures bytes { map octets_of (found result) ≡ octets_in t.now }
    ensures exact { IfSome result Exact }
{
    let n = t.len();
    if 32 < n {
        return None;
    }
    if n % 2 == 1 {
        return None;
    }
    let mut bytes = [0u8; 16];
    for i in 0..n / 2 {
        bytes[i] = two_at(t, 2 * i)?;
    }
    Some(Octets {
        bytes,
        count: (n / 2) as u8,
    })
}

// The digit of a number below 16.
fn digit_of(n: u8) -> u8
    requires { n < 16 }
    ensures { result ≡ digit_of n }
{
    if n < 10 { 0x30 + n } else { 0x37 + n }
}

// Writes bytes from a place on.
pub fn put_bytes(out: &mut [u8], at: usize, t: &[u8])
    requires { at + length t.now ≤ length out.old }
    ensures { out.new ≡ paste out.old at t.now (length t.now) }
{
    out[at..at + t.len()].copy_from_slice(t);
}

// Writes a number as two digits from a place on.
pub fn put_two(out: &mut [u8], at: usize, n: u8)
    requires { at + 2 ≤ length out.old }
    ensures { out.new ≡ paste out.old at (two n) 2 }
{
    out[at] = digit_of(n / 16);
    out[at + 1] = digit_of(n % 16);
}

// Writes a number as four digits from a place on.
pub fn put_four(out: &mut [u8], at: usize, n: u16)
    requires { at + 4 ≤ length out.old }
    ensures { out.new ≡ paste out.old at (four n) 4 }
{
    put_two(out, at, (n / 256) as u8);
    put_two(out, at + 2, (n % 256) as u8);
}

// Writes bytes as two digits each from a place on. It is kept out of line, so that an array which it reads stays in memory in one piece.
#[inline(never)]
pub fn put_hex(out: &mut [u8], at: usize, s: &[u8])
    requires { at + (length s.now + length s.now) ≤ length out.old }
    ensures { out.new ≡ paste out.old at (hex_of s.now) (length (hex_of s.now)) }
{
    for (i, b) in s.iter().enumerate() {
        put_two(out, at + 2 * i, *b);
    }
}
