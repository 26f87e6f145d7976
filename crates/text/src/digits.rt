// Digits of a number in a base of at most 16, and the digit of a flag.
ghost use Rattle.std.specs.Prelude.{◌≡◌, ◌≤◌, ◌<◌, set};
ghost use Rattle.std.proofs.lemmas.List.Edits.{sets};
ghost use Rattle.arithmetic.specs.Words.{as_number};
ghost use Rattle.text.specs.Text.{digit, digits, digit_count};

// By index: once the borrow from a slice's `get_mut` is over, the library's contract tells no byte of the slice.
fn put_byte(out: &mut [u8], at: usize, byte: u8)
    ensures { out.new ≡ set out.old at byte }
{
    if at < out.len() {
        out[at] = byte;
    }
}

fn digit_of(d: u64) -> u8
    requires { d < 16 }
    ensures { result ≡ digit d }
{
    if d < 10 {
        b'0' + d as u8
    } else {
        b'A' + (d as u8 - 10)
    }
}

pub fn flag_digit(flag: bool) -> u8
    ensures { result ≡ digit (as_number flag) }
{
    if flag { b'1' } else { b'0' }
}

// The last `count` digits of `n`, from the lowest up; none past the end, so that no place is too large a number.
pub fn put_digits(out: &mut [u8], at: usize, base: u64, count: usize, n: u64)
    requires { (0 < base) × (base ≤ 16) × (count ≤ 20) }
    ensures { out.new ≡ sets out.old at (digits base count n) }
{
    if at < out.len() {
        let mut rest = n;
        for place in (0..count).rev() {
            put_byte(out, at + place, digit_of(rest % base));
            rest /= base;
        }
    }
}

// How many decimal digits `n` has. A `while`, as it counts divisions by ten and goes over no range.
pub fn count_digits(n: u64) -> usize
    ensures { result ≡ digit_count n n }
{
    let mut count = 1;
    let mut rest = n;
    while 10 <= rest {
        rest /= 10;
        count += 1;
    }
    count
}
