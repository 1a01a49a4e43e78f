// What more than one crate does with numbers.
#![tactic(auto)]

ghost use Rattle.std.specs.Prelude.{◌≡◌, ◌+◌, ◌*◌, ◌^◌, ◌<◌, ◌≤◌, length, take, drop};
ghost use Rattle.numbers.specs.Bytes.{big_endian};

// The product of two numbers, in a word that holds it.
pub fn product(weight: u32, value: u32) -> u64
    ensures { result ≡ weight * value }
{
    u64::from(weight) * u64::from(value)
}

// The number of `count` bytes from a place on, most significant first.
pub fn big_endian(bytes: &[u8], at: usize, count: usize) -> usize
    requires { (at + count ≤ length bytes.now) × (count ≤ 8) }
    ensures number { result ≡ big_endian (take count (drop at bytes.now)) }
    ensures fits { result < 2 ^ (8 * count) }
{
    let mut x: usize = 0;
    for byte in &bytes[at..at + count] {
        x = x * 256 + usize::from(*byte);
    }
    x
}
