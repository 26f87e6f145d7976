// A line's parts. Each is written out by itself and at once, and one that cannot be written is passed over.
use model::Flags;
use std::fmt::{self, Display};
use std::io::{Cursor, Write};

// More than a part has that is made of a value: a number of 64 bits has 20 digits.
const PART_ROOM: usize = 24;

pub fn print<W: Write>(out: &mut W, text: &[u8]) {
    let _ = out.write_all(text);
}

pub fn print_part<W: Write, D: Display + Drop>(out: &mut W, part: D) {
    let mut text = Cursor::new([0; PART_ROOM]);
    let _ = write!(text, "{part}");
    let size = text.position().min(PART_ROOM as u64) as usize;
    print(out, &text.get_ref()[..size]);
}

// A number, and the space before it.
pub fn print_number<W: Write>(out: &mut W, number: u64) {
    print(out, b" ");
    print_part(out, number);
}

pub fn print_words<W: Write>(out: &mut W, words: &[u32]) {
    for word in words {
        print_part(out, Word(*word));
    }
}

// A word, with a space before it.
#[derive(Clone, Copy)]
pub struct Word(pub u32);

impl Display for Word {
    fn fmt<W: fmt::Write>(&self, f: &mut fmt::Formatter<W>) -> fmt::Result {
        let word = self.0;
        write!(f, " {word:08X}")
    }
}

// The flags as four digits, cvnz, with a space before them.
#[derive(Clone, Copy)]
pub struct FlagDigits(pub Flags);

impl Display for FlagDigits {
    fn fmt<W: fmt::Write>(&self, f: &mut fmt::Formatter<W>) -> fmt::Result {
        let flags = self.0;
        write!(
            f,
            " {}{}{}{}",
            flags.carry as u8, flags.overflow as u8, flags.negative as u8, flags.zero as u8
        )
    }
}
