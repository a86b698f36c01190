// Numbers as text, written at the start of an area.
ghost use Rattle.std.specs.Prelude.{◌*◌, ◌≤◌, length};
ghost use Rattle.hexadecimals.specs.Written.{digits_of};
ghost use Rattle.text.specs.Digits.{decimal};
ghost use Rattle.text.specs.Writers.{Puts};

use itoa::Buffer;

// The decimal digits of n.
pub fn put_decimal(n: u64, out: &mut [u8]) -> usize
    requires { 20 ≤ length out.old }
    ensures { Puts (decimal n) 20 out.old out.new result }
{
    let mut buffer = Buffer::new();
    let digits = buffer.format(n).as_bytes();
    out[..digits.len()].copy_from_slice(digits);
    digits.len()
}

// Two upper-case digits for each byte.
pub fn put_hexadecimal(bytes: &[u8], out: &mut [u8]) -> usize
    requires { 2 * length bytes.now ≤ length out.old }
    ensures { Puts (digits_of bytes.now) (2 * length bytes.now) out.old out.new result }
{
    hexadecimals::write(bytes, out);
    2 * bytes.len()
}
