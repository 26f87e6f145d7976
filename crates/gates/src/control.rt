// The unit's control lines, made by gates from the operation's four lines.
ghost use Rattle.std.specs.Prelude.{◌≡◌};
ghost use Rattle.gate_network.specs.Gates.{select, lines_of};

use gate_network::Lines;

// A selector: `q` where `s` is 1, else `p`.
pub fn selector(s: bool, p: bool, q: bool) -> bool
    ensures { result ≡ select s p q }
{
    (p & !s) | (q & s)
}

// The control lines of an operation, with the carry and a's sign, which a shift may take in.
pub fn control(o0: bool, o1: bool, o2: bool, o3: bool, carry: bool, sign: bool) -> Lines
    ensures { result ≡ lines_of o0 o1 o2 o3 carry sign }
{
    let step = o0 & !o1;
    let carried = (o1 & !o0) & carry;
    Lines {
        t00: o3 & (o2 & (o1 & !o0)),
        t01: selector(o3, o1, !o2 | !o0),
        t10: selector(o3, step, !(o0 ^ o1)),
        t11: selector(o3, o0 | o1, o2 & (!o1 | o0)),
        shift: o3 & (!o2 & !(o1 & o0)),
        top: !o1 & selector(o0, carry, sign),
        second: !o3 & !step,
        turn: !o3 & o2,
        carry: !o3 & ((step | carried) ^ o2),
    }
}
