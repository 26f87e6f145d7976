// The arithmetic unit of the FM8502 made of gates, around any adder, against the definition of the crate arithmetic. A gate is one of `!`, `&`,
// `|` and `^` on single bits.
#![tactic(auto)]

mod adder;
mod bits;
mod control;
mod halves_adder;
mod ripple_adder;
mod rows;

ghost use Rattle.std.specs.Prelude.{◌≡◌};
ghost use Rattle.arithmetic.specs.Alu.{alu_of};

pub use adder::Adder;
use arithmetic::AluOut;
use bits::{any, bit, from_bits};
use control::control;
pub use halves_adder::Halves;
pub use ripple_adder::Ripple;
use rows::adder_rows;

// The arithmetic unit of gates around an adder: the result and its flags by the low four bits of the operation.
pub fn unit_around<A: Adder>(adder: A, operation: u8, a: u32, b: u32, carry: bool) -> AluOut
    ensures { result ≡ alu_of operation a b carry }
{
    let lines = u32::from(operation);
    let l = control(
        bit(lines, 0),
        bit(lines, 1),
        bit(lines, 2),
        bit(lines, 3),
        carry,
        bit(a, 31),
    );
    let mut first = [false; 32];
    let mut second = [false; 32];
    adder_rows(l, a, b, &mut first, &mut second);
    let mut sum = [false; 32];
    let c = adder.add(&first, &second, l.carry, &mut sum);
    let top = sum[31];
    AluOut {
        result: from_bits(&sum),
        // The carry of a sum, the borrow of a difference, or the bit that a shift drops.
        carry: (l.shift & bit(a, 0)) | (c ^ l.turn),
        // Both rows have the sign that their sum has not.
        overflow: (first[31] ^ top) & (second[31] ^ top),
        negative: top,
        zero: !any(&sum),
    }
}

// The unit that sits in the gate machine. Which adder it has is said in this line alone; it is the quicker one.
pub fn gate_unit(operation: u8, a: u32, b: u32, carry: bool) -> AluOut
    ensures { result ≡ alu_of operation a b carry }
{
    unit_around(Ripple, operation, a, b, carry)
}
