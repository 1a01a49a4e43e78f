// Bits by position, most significant bit first.
ghost use Rattle.std.specs.Prelude.{◌≡◌, ◌+◌, ◌*◌, ◌/◌, ◌%◌, ◌^◌, ◌<◌, ◌≤◌, length, get_or, take, drop};
ghost use Rattle.model.specs.Format.{number, bits_of};

// The binary digit of a number at a place, counted from the least significant.
pub fn digit(x: usize, place: usize) -> u32
    requires { place < 64 }
    ensures { result ≡ x / 2 ^ place % 2 }
{
    // Proved to fit: TryFrom would add an error that never comes.
    ((x >> place) % 2) as u32
}

// The bit at a position of bytes.
pub fn bit(bytes: &[u8], at: usize) -> u32
    requires { at < 8 * length bytes.now }
    ensures { result ≡ get_or (bits_of bytes.now) at 0 }
{
    let byte = usize::from(bytes[at / 8]);
    let place = 7 - at % 8;
    digit(byte, place)
}

// The number that stands in a field of bytes.
pub fn field(bytes: &[u8], from: usize, width: usize) -> u32
    requires { (from + width ≤ 8 * length bytes.now) × (from + width < 2 ^ 64) × (width < 32) }
    ensures { result ≡ number (take width (drop from (bits_of bytes.now))) }
{
    let mut x: u32 = 0;
    for k in 0..width {
        x = x * 2 + bit(bytes, from + k);
    }
    x
}
