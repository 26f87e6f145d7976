// The arithmetic unit of gates around each of its adders.
use super::input::CaseReader;
use super::print::{FlagDigits, Word, print, print_part};
use arithmetic::AluOut;
use gates::{Adder, Halves, Ripple, unit_around};
use model::Flags;
use std::io::{Read, Write};

const MOST_OPERATIONS: u32 = 16_777_216;

// Odd, so that all words come.
const STRIDE: u32 = 2_654_435_769;

// RESULT cvnz
fn print_output<W: Write>(out: &mut W, output: AluOut) {
    print_part(out, Word(output.result));
    print_part(
        out,
        FlagDigits(Flags {
            carry: output.carry,
            overflow: output.overflow,
            negative: output.negative,
            zero: output.zero,
        }),
    );
}

// unit RESULT cvnz RESULT cvnz
pub fn unit_case<R: Read + Drop, W: Write>(cases: &mut CaseReader<R>, out: &mut W) {
    let operation = (cases.next_word() & 0xff) as u8;
    let a = cases.next_word();
    let b = cases.next_word();
    let carry = cases.next_flag();
    print(out, b"unit");
    print_output(out, unit_around(Ripple, operation, a, b, carry));
    print_output(out, unit_around(Halves, operation, a, b, carry));
    print(out, b"\n");
}

// The sixteen operations over and over, each on a new word, the last result and the last carry.
fn operate<A: Adder + Copy>(adder: A, count: u32) -> AluOut {
    let mut out = AluOut {
        result: 0,
        carry: false,
        overflow: false,
        negative: false,
        zero: false,
    };
    let mut word = 0u32;
    for i in 0..count {
        word = word.wrapping_add(STRIDE);
        out = unit_around(adder, (i % 16) as u8, word, out.result, out.carry);
    }
    out
}

// ran RESULT cvnz. The adder is 0 for the ripple adder, any other number for the adder by halves. The first word is written out before the
// operations begin, which may take seconds.
pub fn sequence_case<R: Read + Drop, W: Write>(cases: &mut CaseReader<R>, out: &mut W) {
    let adder = cases.next_word();
    let count = cases.next_number(MOST_OPERATIONS);
    print(out, b"ran");
    let last = match adder {
        0 => operate(Ripple, count),
        _ => operate(Halves, count),
    };
    print_output(out, last);
    print(out, b"\n");
}
