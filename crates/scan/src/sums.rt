// A number for the bytes of a file, which any one byte changes.
ghost use Rattle.std.specs.Prelude.{◌≡◌};
ghost use Rattle.scan.specs.Sums.{sum_of};

const PRIME: u64 = 1_000_000_007;

// The file as one number to the base 256, and its remainder by a prime.
pub fn sum_of(text: &[u8]) -> u64
    ensures { result ≡ sum_of text.now }
{
    let mut sum = 0;
    for b in text {
        sum = (256 * sum + u64::from(*b)) % PRIME;
    }
    sum
}
