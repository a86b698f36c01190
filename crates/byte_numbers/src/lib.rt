// Numbers in bytes, high byte first: read from a place of a slice, and stored from one on.
#![tactic(auto)]

ghost use Rattle.std.specs.Prelude.{◌≡◌, IsTrue, ◌*◌, ◌+◌, ◌%◌, ◌^◌, ◌≤◌, ◌<◌, length};
ghost use Rattle.byte_numbers.specs.Numbers.{is_size, number_at, eight, last_bytes};
ghost use Rattle.byte_numbers.specs.Storing.{Stored};

// The number in the N bytes from a place on.
pub fn number_at<const N: usize>(s: &[u8], at: usize) -> u64
    requires size { IsTrue (is_size N) }
    requires in_bounds { at + N ≤ length s.now }
    ensures number { result ≡ number_at N s.now at }
    ensures below { result < 2 ^ (8 * N) }
{
    let mut bytes = [0u8; 8];
    bytes[8 - N..].copy_from_slice(&s[at..at + N]);
    u64::from_be_bytes(bytes)
}

// The last eight bits of v.
fn low_byte(v: u64) -> u8
    ensures { result ≡ v % 256 }
{
    (v & 0xff) as u8
}

// The eight bytes of v, by shifts and masks.
fn bytes_of(v: u64) -> [u8; 8]
    ensures { result ≡ eight v }
{
    [
        low_byte(v >> 56),
        low_byte(v >> 48),
        low_byte(v >> 40),
        low_byte(v >> 32),
        low_byte(v >> 24),
        low_byte(v >> 16),
        low_byte(v >> 8),
        low_byte(v),
    ]
}

// The N bytes of s from `at` on become v's last.
pub fn put<const N: usize>(s: &mut [u8], at: usize, v: u64)
    requires size { IsTrue (is_size N) }
    requires in_bounds { at + N ≤ length s.old }
    ensures { Stored s.old at (last_bytes N v) s.new }
{
    s[at..at + N].copy_from_slice(&bytes_of(v)[8 - N..]);
}
