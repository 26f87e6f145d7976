// Text as bytes in a borrowed buffer. Bytes that would stand past the buffer's end are left out, so no call refuses;
// each answers how long its text is.
#![tactic(auto)]

mod digits;

ghost use Rattle.text.specs.Text.{decimal, hexadecimal, flag_digits, Puts};

use digits::{count_digits, flag_digit, put_digits};
use model::Flags;

// Plain bytes, as many as there is room for. A text that begins past the end is left out at once, so that no place is too large a number.
pub fn put_text(out: &mut [u8], at: usize, text: &[u8]) -> usize
    ensures { Puts out.old at text.now out.new result }
{
    if at < out.len() {
        let fits = text.len().min(out.len() - at);
        out[at..at + fits].copy_from_slice(&text[..fits]);
    }
    text.len()
}

// A number in decimal, without leading zeros.
pub fn put_decimal(out: &mut [u8], at: usize, n: u64) -> usize
    ensures { Puts out.old at (decimal n) out.new result }
{
    let count = count_digits(n);
    put_digits(out, at, 10, count, n);
    count
}

// A word as eight capital hexadecimal digits.
pub fn put_hexadecimal(out: &mut [u8], at: usize, word: u32) -> usize
    ensures { Puts out.old at (hexadecimal word) out.new result }
{
    put_digits(out, at, 16, 8, word as u64);
    8
}

// The flags as digits, in the order C, V, N, Z.
pub fn put_flag_digits(out: &mut [u8], at: usize, flags: Flags) -> usize
    ensures { Puts out.old at (flag_digits flags) out.new result }
{
    let in_order = [flags.carry, flags.overflow, flags.negative, flags.zero];
    put_text(out, at, &in_order.map(flag_digit))
}
