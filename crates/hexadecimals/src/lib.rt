// Hexadecimal digits, either letter case, and the bytes that a line of them spells; bytes written as upper-case digits.
#![tactic(auto)]

ghost use Rattle.std.specs.Prelude.{◌≡◌, IsTrue, ◌*◌, ◌^◌, ◌≤◌, ◌<◌, length};
ghost use Rattle.std.proofs.lemmas.List.Edits.{sets};
ghost use Rattle.hexadecimals.specs.Digits.{digit_of, all_digits, bytes_of};
ghost use Rattle.hexadecimals.specs.Spelling.{Spelled, spelled};
ghost use Rattle.hexadecimals.specs.Written.{upper, digits_of};

// The digit that a character stands for, or 16 for none: a number, since turns with an Option would branch. The bit 0x20 makes a letter small.
#[tactic(auto, using(crate::proofs::Letters::small_letter), unfolding(crate::specs::Digits::digit_of))]
fn digit_of(b: u8) -> u8
    ensures { result ≡ digit_of b }
{
    match b {
        b'0'..=b'9' => b - b'0',
        _ => match b | 0x20 {
            c @ b'a'..=b'f' => c - b'a' + 10,
            _ => 16,
        },
    }
}

// Whether a line is all digits, and then the bytes that it spells. No turn branches or ends early, so that 16 bytes are worked at once.
// The characters are taken by their places: nothing is known of what is written through a `zip`.
fn read(line: &[u8], bytes: &mut [u8]) -> bool
    requires { length line.now ≡ 2 * length bytes.old }
    ensures told { result ≡ all_digits line.now }
    ensures bytes { IsTrue result → bytes.new ≡ bytes_of line.now }
{
    let mut most = 0u8;
    for (i, byte) in bytes.iter_mut().enumerate() {
        let high = digit_of(line[2 * i]);
        let low = digit_of(line[2 * i + 1]);
        most = most.max(high).max(low);
        *byte = 16 * (high % 16) + low % 16;
    }
    most < 16
}

// The N bytes that a line spells, where it is two digits for each.
pub fn spelled<const N: usize>(line: &[u8]) -> Option<[u8; N]>
    requires { 2 * N < 2 ^ 64 }
    ensures { result ≡ spelled N line.now }
{
    let mut bytes = [0u8; N];
    if line.len() == 2 * N && read(line, &mut bytes) {
        Some(bytes)
    } else {
        None
    }
}

// The same for a number of bytes that is known only as it runs, so that no array can come back: the bytes that a line of digits spells, into s; false, and s as it was, where the line is not one of two digits for each byte of s.
pub fn spell(line: &[u8], s: &mut [u8]) -> bool
    requires { length s.old ≤ 58 }
    ensures { Spelled line.now s.old s.new result }
{
    if line.len() != 2 * s.len() {
        return false;
    }
    let mut bytes = [0u8; 58];
    let part = &mut bytes[..s.len()];
    let told = read(line, part);
    if told {
        s.copy_from_slice(part);
    }
    told
}

// The digit of a number below 16, upper case.
#[tactic(auto, unfolding(crate::specs::Written::upper))]
fn upper_of(d: u8) -> u8
    requires { d < 16 }
    ensures { result ≡ upper d }
{
    if d < 10 { b'0' + d } else { b'A' - 10 + d }
}

// Two upper-case digits for each byte of s, at the start of the area; by places, as in `read`.
pub fn write(s: &[u8], area: &mut [u8])
    requires { 2 * length s.now ≤ length area.old }
    ensures { area.new ≡ sets area.old 0 (digits_of s.now) }
{
    for (i, b) in s.iter().enumerate() {
        area[2 * i] = upper_of(b / 16);
        area[2 * i + 1] = upper_of(b % 16);
    }
}
