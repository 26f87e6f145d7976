// Images made by the writer, some of them spoilt, and their ledgers.
use image_writer::write;
use ledger_text::{LONGEST_TEXT, NoRoom, report};
use model::{Flags, Machine};
use text::put_text;

// The standard output.
const STDOUT_FILENO: i32 = 1;

// The first three registers; the others and the flags are 0.
pub fn machine(r0: u32, r1: u32, r2: u32) -> Machine {
    let flags = Flags {
        carry: false,
        overflow: false,
        negative: false,
        zero: false,
    };
    Machine {
        regs: [r0, r1, r2, 0, 0, 0, 0, 0],
        flags,
    }
}

// A case's name and the ledger of so many bytes, in the output that is lent for it.
fn show_in(name: &[u8], image: &[u8], size: usize, text: &mut [u8]) {
    let mut memory = [0u32; 4_096];
    io::write_all(STDOUT_FILENO, name);
    let Some(bytes) = image.get(..size) else {
        io::write_all(STDOUT_FILENO, b"no image\n");
        return;
    };
    match report(bytes, &mut memory, text) {
        Ok(count) => {
            io::write_all(STDOUT_FILENO, &text[..count]);
        }
        Err(NoRoom) => {
            io::write_all(STDOUT_FILENO, b"no room\n");
        }
    }
}

fn show(name: &[u8], image: &[u8], size: usize) {
    let mut text = [0u8; LONGEST_TEXT];
    show_in(name, image, size, &mut text);
}

// The image of some words, put to the front of a buffer: how long it is, where there is room for it.
fn make(words: &[u32], start: Machine, image: &mut [u8]) -> Option<usize> {
    write(words, start, 1, image).ok()
}

// Where no image was made, the ledger of no bytes. Those that follow have buffers of other sizes, which are part of their types.
pub fn show_program(name: &[u8], words: &[u32], start: Machine) {
    let mut image = [0u8; 512];
    let size = make(words, start, &mut image);
    show(name, &image, size.unwrap_or(0));
}

// One byte less of output than the longest ledger needs.
pub fn show_short(name: &[u8], words: &[u32], start: Machine) {
    let mut image = [0u8; 512];
    let mut text = [0u8; LONGEST_TEXT - 1];
    let size = make(words, start, &mut image);
    show_in(name, &image, size.unwrap_or(0), &mut text);
}

// So many bytes of the image of some words, with bytes after it.
pub fn show_part(name: &[u8], words: &[u32], size: usize) {
    let mut image = [0u8; 16_464];
    make(words, machine(0, 0, 0), &mut image);
    show(name, &image, size);
}

// An image of one word with one byte changed.
pub fn show_changed(name: &[u8], at: usize, byte: u8) {
    let mut image = [0u8; 63];
    make(&[0x0001_3C21], machine(0, 0, 0), &mut image);
    put_text(&mut image, at, &[byte]);
    show(name, &image, 63);
}
