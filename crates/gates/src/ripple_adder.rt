// The ripple adder: full adders of gates on single bits, the carry going up from one to the next.
ghost use Rattle.std.specs.Prelude.{◌≡◌};
ghost use Rattle.gate_network.specs.Gates.{ripple_sum, ripple_carry};

use super::adder::Adder;

// The sum of two rows of any one width and a carry, lowest bit first. Returns the carry out.
fn by_rippling<const N: usize>(
    a: &[bool; N],
    b: &[bool; N],
    carry: bool,
    out: &mut [bool; N],
) -> bool
    ensures carry { result ≡ ripple_carry a.now b.now carry }
    ensures sum { out.new ≡ ripple_sum a.now b.now carry }
{
    let mut c = carry;
    for i in 0..N {
        let x = a[i];
        let y = b[i];
        let half = x ^ y;
        out[i] = half ^ c;
        c = (x & y) | (half & c);
    }
    c
}

// The adder whose carry goes up from bit to bit.
#[derive(Clone, Copy)]
pub struct Ripple;

impl Adder for Ripple {
    fn add(self, a: &[bool; 32], b: &[bool; 32], carry: bool, out: &mut [bool; 32]) -> bool {
        by_rippling(a, b, carry, out)
    }
}
