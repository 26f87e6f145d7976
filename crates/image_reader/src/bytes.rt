// Bytes of a slice as numbers and words, lowest byte first.
ghost use Rattle.std.specs.Prelude.{◌≡◌, ◌+◌, ◌*◌, ◌^◌, ◌≤◌, ◌<◌, length, take, drop};
ghost use Rattle.image.specs.Bytes.{number_in, words_in};
ghost use Rattle.image_reader.specs.Passes.{ByteAt, PairAt};

// 0 past the end.
pub fn byte_at(bytes: &[u8], at: usize) -> u32
    ensures { ByteAt bytes.now at result }
{
    bytes.get(at).copied().map_or(0, u32::from)
}

// The two bytes from a place on.
pub fn pair_at(bytes: &[u8], at: usize) -> u32
    requires { at + 1 < 2 ^ 64 }
    ensures { PairAt bytes.now at result }
{
    byte_at(bytes, at) + 256 * byte_at(bytes, at + 1)
}

// The word from a place on: the compiler makes one load of it.
fn word_in(bytes: &[u8], at: usize) -> u32
    requires { at + 4 ≤ length bytes.now }
    ensures { result ≡ number_in (take 4 (drop at bytes.now)) }
{
    u32::from_le_bytes([bytes[at], bytes[at + 1], bytes[at + 2], bytes[at + 3]])
}

// As many words as there is room for.
pub fn get_words(bytes: &[u8], out: &mut [u32])
    requires { 4 * length out.old ≤ length bytes.now }
    ensures { out.new ≡ words_in (length out.old) bytes.now }
{
    // By index, since a proof learns nothing of what is stored through `iter_mut().enumerate()`.
    for i in 0..out.len() {
        out[i] = word_in(bytes, 4 * i);
    }
}
