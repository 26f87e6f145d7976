// The two rows that the adder is given: selectors let one adder serve every operation.
ghost use Rattle.std.specs.Prelude.{◌≡◌};
ghost use Rattle.gate_network.specs.Gates.{bits_of, first_bit, first_row, second_row};

use super::bits::{above, bit};
use super::control::selector;
use gate_network::Lines;

// One place of the first row: the table's entry for the bits of a and b, or in a shift the bit of a one place up.
fn first_bit(l: Lines, a: bool, b: bool, up: bool) -> bool
    ensures { result ≡ first_bit l a b up }
{
    let entry = selector(a, selector(b, l.t00, l.t01), selector(b, l.t10, l.t11));
    selector(l.shift, entry, up)
}

// Both rows, from the bits of two words.
pub fn adder_rows(l: Lines, a: u32, b: u32, first: &mut [bool; 32], second: &mut [bool; 32])
    ensures first { first.new ≡ first_row l (bits_of 32 a) (bits_of 32 b) }
    ensures second { second.new ≡ second_row l (bits_of 32 a) }
{
    for i in 0..32 {
        let x = bit(a, i);
        first[i] = first_bit(l, x, bit(b, i), above(a, i, l.top));
        // The bit of a or nothing, complemented for a difference.
        second[i] = (x & l.second) ^ l.turn;
    }
}
