// Numbers and words as bytes, lowest byte first, stored from a place on.
ghost use Rattle.std.specs.Prelude.{◌≡◌, ◌∷◌, ◌+◌, ◌*◌, ◌≤◌, length};
ghost use Rattle.std.proofs.lemmas.List.Edits.{sets};
ghost use Rattle.image.specs.Bytes.{bytes_of, word_bytes};

// The compiler makes one store of it.
pub fn put_four(out: &mut [u8], at: usize, bytes: [u8; 4])
    requires { at + 4 ≤ length out.old }
    ensures { out.new ≡ sets out.old at bytes }
{
    out[at..at + 4].copy_from_slice(&bytes);
}

pub fn put_word(out: &mut [u8], at: usize, word: u32)
    requires { at + 4 ≤ length out.old }
    ensures { out.new ≡ sets out.old at (bytes_of 4 word) }
{
    put_four(out, at, word.to_le_bytes());
}

// A field's tag and length.
pub fn put_header(out: &mut [u8], at: usize, tag: u8, size: u16)
    requires { at + 3 ≤ length out.old }
    ensures { out.new ≡ sets out.old at (tag ∷ bytes_of 2 size) }
{
    out[at] = tag;
    out[at + 1..at + 3].copy_from_slice(&size.to_le_bytes());
}

pub fn put_words(out: &mut [u8], at: usize, words: &[u32])
    requires { at + 4 * length words.now ≤ length out.old }
    ensures { out.new ≡ sets out.old at (word_bytes words.now) }
{
    for (i, &word) in words.iter().enumerate() {
        put_word(out, at + 4 * i, word);
    }
}
