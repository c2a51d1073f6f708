// Numbers in decimal.
ghost use Rattle.std.specs.Prelude.{◌≡◌, ◌+◌, ◌≤◌, length};
ghost use Rattle.std.proofs.Math.Seq.{paste};
ghost use Rattle.transcript.specs.Transcript.{decimal, digits_within};
ghost use Rattle.transcript.specs.Inner.{PutFew};

// Writes a number in decimal from a place on; the place behind it.
pub fn put_decimal(out: &mut [u8], at: usize, n: u64) -> usize
    requires { at + 20 ≤ length out.old }
    ensures { (result ≡ at + length (decimal n)) × (out.new ≡ paste out.old at (decimal n) (length (decimal n))) }
{
    put_digits(out, at, n, 20)
}

// Writes the last digits of a number, at most so many, without leading zeros.
fn put_digits(out: &mut [u8], at: usize, n: u64, most: usize) -> usize
    requires { at + most ≤ length out.old }
    ensures { PutFew most out.old at (digits_within most n) result out.new }
{
    if most == 0 {
        return at;
    }
    let digit = (n % 10) as u8 + 0x30;
    if n < 10 {
        out[at] = digit;
        return at + 1;
    }
    let end = put_digits(out, at, n / 10, most - 1);
    out[end] = digit;
    end + 1
}
