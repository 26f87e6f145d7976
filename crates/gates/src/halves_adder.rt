// The adder of the new card (CR 8): two adders of half the width, each made the same way down to one bit, and the carry between them from
// whether the lower half makes or passes one on. A range is `width` places of both rows from `at` on; what comes out is stated where the
// width is a power of two. The rows are lent as arrays, since a slice takes each of the many calls longer.
ghost use Rattle.std.specs.Prelude.{◌≡◌, ◌+◌, ◌≤◌, ◌<◌};
ghost use Rattle.gate_network.specs.Halves.{carry_past, halves_sum, halves_carry};
ghost use Rattle.gates.specs.Halving.{RangeCarries, RangeSums};

use super::adder::Adder;
use gate_network::RangeCarry;

// The carry out of a range, by the carry in.
fn carry_past(r: RangeCarry, carry: bool) -> bool
    ensures { result ≡ carry_past r carry }
{
    r.makes | (r.passes & carry)
}

// Whether a range makes a carry, and whether it passes one on.
fn range_carry(a: &[bool; 32], b: &[bool; 32], at: usize, width: usize) -> RangeCarry
    requires wide { 0 < width }
    requires within { at + width ≤ 32 }
    ensures { RangeCarries a.now b.now at width result }
{
    if width == 1 {
        let x = a[at];
        let y = b[at];
        return RangeCarry {
            makes: x & y,
            passes: x ^ y,
        };
    }
    let half = width / 2;
    let low = range_carry(a, b, at, half);
    let high = range_carry(a, b, at + half, half);
    RangeCarry {
        makes: high.makes | (high.passes & low.makes),
        passes: high.passes & low.passes,
    }
}

// The sum of a range, into the same places of `out`.
fn range_sum(
    a: &[bool; 32],
    b: &[bool; 32],
    at: usize,
    width: usize,
    carry: bool,
    out: &mut [bool; 32],
)
    requires wide { 0 < width }
    requires within { at + width ≤ 32 }
    ensures { RangeSums a.now b.now at width carry out.old out.new }
{
    if width == 1 {
        out[at] = a[at] ^ b[at] ^ carry;
        return;
    }
    let half = width / 2;
    range_sum(a, b, at, half, carry, out);
    let between = carry_past(range_carry(a, b, at, half), carry);
    range_sum(a, b, at + half, half, between, out);
}

// The sum of two rows and a carry, lowest bit first. Returns the carry out.
fn by_halves(a: &[bool; 32], b: &[bool; 32], carry: bool, out: &mut [bool; 32]) -> bool
    ensures carry { result ≡ halves_carry 5 0 a.now b.now carry }
    ensures sum { out.new ≡ halves_sum 5 0 a.now b.now carry }
{
    range_sum(a, b, 0, 32, carry, out);
    carry_past(range_carry(a, b, 0, 32), carry)
}

// The adder of which each half tells whether it makes or passes on a carry.
#[derive(Clone, Copy)]
pub struct Halves;

impl Adder for Halves {
    fn add(self, a: &[bool; 32], b: &[bool; 32], carry: bool, out: &mut [bool; 32]) -> bool {
        by_halves(a, b, carry, out)
    }
}
