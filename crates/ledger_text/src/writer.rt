// A lent buffer that text is put into from its start on, part by part.
ghost use Rattle.std.specs.Prelude.{◌≡◌, ◌+◌, [], ◌∷◌, ◌++◌, ◌^◌, ◌<◌, ◌≤◌};
ghost use Rattle.text.specs.Text.{decimal, hexadecimal, flag_digits};
ghost use Rattle.ledger_text.specs.Parts.{Writes};

use model::Flags;
use text::{put_decimal, put_flag_digits, put_hexadecimal, put_text};

// The buffer, and the place after the text so far, which may be past the buffer's end.
#[derive(Drop)]
pub struct Writer<'a> {
    out: &'a mut [u8],
    at: usize,
}

impl<'a> Writer<'a> {
    pub fn new(out: &'a mut [u8]) -> Self
        ensures same_reference { result.out.ghost_name ≡ out.entry.ghost_name }
        ensures start { (result.out.now ≡ out.old) × (result.at ≡ 0) }
    {
        Writer { out, at: 0 }
    }

    // How many bytes the text so far has.
    pub fn size(&self) -> usize
        ensures { result ≡ self.now.at }
    {
        self.at
    }

    // Any place in the lower half of the numbers leaves room for the longest slice.
    pub fn text(&mut self, bytes: &[u8])
        requires { self.old.at < 2 ^ 63 }
        ensures { Writes self.old bytes.now self.new }
    {
        self.at += put_text(self.out, self.at, bytes);
    }

    // A number, and the byte that ends it.
    pub fn decimal(&mut self, n: u64, end: u8)
        requires { self.old.at < 2 ^ 32 }
        ensures text { Writes self.old (decimal n ++ end ∷ []) self.new }
        ensures near { self.new.at ≤ self.old.at + 21 }
    {
        self.at += put_decimal(self.out, self.at, n);
        self.text(&[end]);
    }

    // A word, and the byte that ends it.
    pub fn hexadecimal(&mut self, word: u32, end: u8)
        requires { self.old.at < 2 ^ 32 }
        ensures text { Writes self.old (hexadecimal word ++ end ∷ []) self.new }
        ensures near { self.new.at ≤ self.old.at + 9 }
    {
        self.at += put_hexadecimal(self.out, self.at, word);
        self.text(&[end]);
    }

    // The flags, and the byte that ends them.
    pub fn flags(&mut self, flags: Flags, end: u8)
        requires { self.old.at < 2 ^ 32 }
        ensures { Writes self.old (flag_digits flags ++ end ∷ []) self.new }
    {
        self.at += put_flag_digits(self.out, self.at, flags);
        self.text(&[end]);
    }
}
