// The checksum of lent numbers, as the test programs print it.
#![tactic(auto)]

ghost use Rattle.std.specs.Prelude.{◌≡◌};
ghost use Rattle.checksums.specs.Checksum.{more, checksum};

const MODULUS: u64 = 1000000007;

// A sum that depends on each number and its place.
#[tactic(auto, unfolding(crate::specs::Checksum::checksum))]
pub fn checksum(numbers: &[u32]) -> u64
    ensures { result ≡ checksum numbers.now }
{
    numbers.iter().fold(0, |sum, x| more(sum, *x))
}

fn more(sum: u64, x: u32) -> u64
    ensures { result ≡ more sum x }
{
    (sum % MODULUS * 31 + u64::from(x)) % MODULUS
}
