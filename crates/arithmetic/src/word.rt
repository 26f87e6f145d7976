// The arithmetic unit on whole words.
ghost use Rattle.std.specs.Prelude.{◌≡◌};
ghost use Rattle.arithmetic.specs.Words.{top_of, overflow_of};
ghost use Rattle.arithmetic.specs.Alu.{answer, plain_of, sum_of, difference_of, halved_of, alu_of};
ghost use Rattle.arithmetic.specs.Parts.{completed};

use super::AluOut;

// From here on a word's top bit is 1.
const TOP: u32 = 0x8000_0000;

// A result with the two flags that each operation sets by its own rule.
#[derive(Clone, Copy)]
struct Computed {
    carry: bool,
    overflow: bool,
    result: u32,
}

// Overflow of x + y, which is r, from the three signs; x is r - y, whose overflow is the same.
fn overflow_of(x: u32, y: u32, r: u32) -> bool
    ensures { result ≡ overflow_of (top_of 31 x) (top_of 31 y) (top_of 31 r) }
{
    let sign = TOP <= r;
    ((TOP <= x) ^ sign) & ((TOP <= y) ^ sign)
}

// A result that sets neither carry nor overflow.
fn plain(x: u32) -> Computed
    ensures { completed result ≡ plain_of 31 x }
{
    Computed {
        result: x,
        carry: false,
        overflow: false,
    }
}

// x + y + c.
fn sum(x: u32, y: u32, c: bool) -> Computed
    ensures { completed result ≡ sum_of 31 x y c }
{
    let r = x.wrapping_add(y).wrapping_add(c as u32);
    Computed {
        result: r,
        carry: (r < x) | (c & (r == x)),
        overflow: overflow_of(x, y, r),
    }
}

// x - y - c.
fn difference(x: u32, y: u32, c: bool) -> Computed
    ensures { completed result ≡ difference_of 31 x y c }
{
    let r = x.wrapping_sub(y).wrapping_sub(c as u32);
    Computed {
        result: r,
        carry: (x < y) | (c & (x == y)),
        overflow: overflow_of(r, y, x),
    }
}

// a halved, with the top bit given.
fn halved(top: bool, a: u32) -> Computed
    ensures { completed result ≡ halved_of 31 top a }
{
    Computed {
        result: a / 2 + TOP * (top as u32),
        carry: a % 2 == 1,
        overflow: false,
    }
}

// What each operation computes, by the low four bits of its number.
fn by_operation(operation: u8, a: u32, b: u32, carry: bool) -> Computed
    ensures { completed result ≡ alu_of operation a b carry }
{
    match operation % 16 {
        1 => sum(a, 0, true),
        2 => sum(b, a, carry),
        3 => sum(b, a, false),
        4 => difference(0, a, false),
        5 => difference(a, 0, true),
        6 => difference(b, a, carry),
        7 => difference(b, a, false),
        8 => halved(carry, a),
        9 => halved(TOP <= a, a),
        10 => halved(false, a),
        11 => plain(a ^ b),
        12 => plain(a | b),
        13 => plain(a & b),
        14 => plain(!a),
        _ => plain(a),
    }
}

// A result with carry and overflow, and with N and Z, which are read from it.
pub fn answer(res: u32, carry: bool, overflow: bool) -> AluOut
    ensures { result ≡ answer 31 res carry overflow }
{
    AluOut {
        result: res,
        carry,
        overflow,
        negative: TOP <= res,
        zero: res == 0,
    }
}

// The arithmetic unit: the result and its four flags.
pub fn word_unit(operation: u8, a: u32, b: u32, carry: bool) -> AluOut
    ensures { result ≡ alu_of operation a b carry }
{
    let out = by_operation(operation, a, b, carry);
    answer(out.result, out.carry, out.overflow)
}
