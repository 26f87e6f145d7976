// A gate state: what a number of clocks makes of it, one at a time.
use super::input::{CaseReader, low_half};
use super::lending::clock_by_clock;
use super::print::{FlagDigits, print, print_number, print_part, print_words};
use model::{GateState, Refusal};
use packed_flags::unpacked;
use refusals::refusal_number;
use std::io::{Read, Write};

const MOST_CLOCKS: u32 = 400;

fn next_state<R: Read + Drop>(cases: &mut CaseReader<R>) -> GateState {
    GateState {
        regs: cases.next_registers(),
        flags: unpacked(cases.next_word()),
        row: (cases.next_word() & 0xff) as u8,
        instruction: cases.next_word(),
        address: cases.next_word(),
        a: cases.next_word(),
        b: cases.next_word(),
        result: cases.next_word(),
        position: cases.next_word(),
        begun: cases.next_flag(),
        left: low_half(cases.next_word()),
    }
}

// ran FINISHED, or refused NUMBER and none finished.
fn print_outcome<W: Write>(out: &mut W, outcome: Result<u64, Refusal>) {
    match outcome {
        Ok(_) => print(out, b" ran"),
        Err(why) => {
            print(out, b" refused");
            print_number(out, refusal_number(why) as u64);
        }
    }
    print_number(out, outcome.unwrap_or(0));
}

// cvnz r0..r7 row instruction address a b result position begun left
fn print_state<W: Write>(out: &mut W, s: GateState) {
    print_part(out, FlagDigits(s.flags));
    print_words(out, &s.regs);
    print_number(out, s.row as u64);
    print_words(out, &[s.instruction, s.address, s.a, s.b, s.result]);
    print_number(out, s.position as u64);
    print_number(out, s.begun as u64);
    print_number(out, s.left as u64);
}

// lent ANSWER finished, the state, m0..
pub fn state_case<R: Read + Drop, W: Write>(cases: &mut CaseReader<R>, out: &mut W) {
    let mut memory = cases.next_list();
    let bottom = cases.next_word();
    let waits = cases.next_waits();
    let start = next_state(cases);
    let clocks = cases.next_number(MOST_CLOCKS);
    let end = clock_by_clock(
        memory.as_mut_slice(),
        bottom,
        waits.as_slice(),
        start,
        clocks,
    );
    print(out, b"lent");
    print_outcome(out, end.outcome);
    print_state(out, end.state);
    print_words(out, memory.as_slice());
    print(out, b"\n");
}
