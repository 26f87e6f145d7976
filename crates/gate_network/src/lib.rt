// The arithmetic unit as a network of gates, and that it answers as the crate arithmetic defines at every width; no code. The theorems:
// specs/Theorems.antt, proved in proofs/Worth.antt (the ripple adder), proofs/Halves.antt (the adder by halves) and proofs/Network.antt (the
// unit).
#![tactic(auto)]

// The control lines: what steers the adder's rows and the flags.
#[derive(Clone, Copy)]
pub struct Lines {
    // The table of the first row's generator, by the bits of a and b.
    pub t00: bool,
    pub t01: bool,
    pub t10: bool,
    pub t11: bool,
    // The first row is a shifted down, with the bit that comes in at the top.
    pub shift: bool,
    pub top: bool,
    // Whether a is in the second row.
    pub second: bool,
    // A difference: the second row is complemented, and the carry out turned round.
    pub turn: bool,
    // The adder's carry in.
    pub carry: bool,
}

// What a range of bits does about carries, whatever comes in (CR 8): in other words, whether it generates and propagates one.
#[derive(Clone, Copy)]
pub struct RangeCarry {
    // It gives one out by itself.
    pub makes: bool,
    // It gives one out just where one comes in.
    pub passes: bool,
}
