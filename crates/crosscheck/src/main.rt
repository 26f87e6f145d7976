// Clocks on a gate state that is lent, one at a time, and the arithmetic unit of gates with each adder, on cases that are read; what comes out is
// printed. The file `stdout` holds what an independent emulator made of the same cases; `stdin` holds the cases, as words of four bytes, lowest
// first. The first word of a case tells its kind:
//   1, M, memory, bottom, W, waits, r0..r7, flags, row, instruction, address, a, b, result, position, begun, left, k
//     k clocks (`lent_clock::clock_once`). A wait takes a word; flags are one number, C 8, V 4, N 2, Z 1
//   2, operation, a, b, carry
//     one operation (`gates::unit_around`), with the ripple adder and with the adder by halves
//   3, adder, n
//     n operations with one adder (0 ripple, 1 by halves), one after the other, to be timed from outside
// Any other kind ends the program, as the input's end does. A case's line is written out, part by part, before the next case is read, so that a caller
// may wait for it; what cannot be written is passed over.
#![tactic(auto)]

mod input;
mod lending;
mod print;
mod state;
mod unit;

use input::CaseReader;
use state::state_case;
use std::io;
use unit::{sequence_case, unit_case};

const MOST_CASES: u32 = 1_048_576;

// What a case is about.
enum Kind {
    State,
    Unit,
    Sequence,
}

impl Kind {
    fn of(number: u32) -> Option<Kind> {
        match number {
            1 => Some(Kind::State),
            2 => Some(Kind::Unit),
            3 => Some(Kind::Sequence),
            _ => None,
        }
    }
}

fn main(rt: HostRuntime) {
    let mut cases = CaseReader::new(rt.reader());
    let mut out = io::writer(&rt);
    for _ in 0..MOST_CASES {
        match Kind::of(cases.next_word()) {
            Some(Kind::State) => state_case(&mut cases, &mut out),
            Some(Kind::Unit) => unit_case(&mut cases, &mut out),
            Some(Kind::Sequence) => sequence_case(&mut cases, &mut out),
            None => break,
        }
    }
}
