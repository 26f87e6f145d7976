// Prints the ledger of the image on standard input. What is read and what is printed for it is `report_input`'s.
#![tactic(auto)]

use ledger_text::{LONGEST_TEXT, MOST_INPUT, report_input};

// The standard input and the standard output.
const STDIN_FILENO: i32 = 0;

const STDOUT_FILENO: i32 = 1;

fn main() {
    let mut input = [0u8; MOST_INPUT];
    let mut text = [0u8; LONGEST_TEXT];
    let size = io::read_full(STDIN_FILENO, &mut input);
    if let Ok(count) = report_input(&input[..size], &mut text) {
        io::write_all(STDOUT_FILENO, &text[..count]);
    }
}
