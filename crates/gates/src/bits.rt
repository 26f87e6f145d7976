// Words and single bits; what a row of bits is as a word, and whether one of them is 1.
ghost use Rattle.std.specs.Prelude.{◌≡◌, false, ◌+◌, ◌<◌, get_or};
ghost use Rattle.gate_network.specs.Gates.{value, bits_of, any_of};

// The bit of a word at a place, the lowest at 0.
pub fn bit(word: u32, place: usize) -> bool
    requires { place < 32 }
    ensures { result ≡ get_or (bits_of 32 word) place false }
{
    (word >> place) % 2 == 1
}

// The bit one place up; above the top place stands the one given.
pub fn above(word: u32, place: usize, top: bool) -> bool
    requires { place < 32 }
    ensures { result ≡ get_or (bits_of 32 word) (place + 1) top }
{
    if place < 31 {
        bit(word, place + 1)
    } else {
        top
    }
}

// Whether a bit of a row is 1: each gate takes one bit more.
pub fn any(bits: &[bool]) -> bool
    ensures { result ≡ any_of bits.now }
{
    bits.iter().fold(false, |r, bit| r | *bit)
}

// The word of a row of 32 bits.
pub fn from_bits(bits: &[bool; 32]) -> u32
    ensures { result ≡ value bits.now }
{
    bits.iter().rfold(0u32, |r, bit| (r << 1) | u32::from(*bit))
}
