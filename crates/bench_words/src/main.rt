// Ledgers of document 01's example, of its bench words that have no star, and of images that show one rule each:
// every refusal of an image, endings, a program that overwrites itself, the largest image and the longest ledger.
// Each function shows a few, as the proof of a long one takes long.
#![tactic(auto)]

mod images;

use images::{machine, show_changed, show_part, show_program, show_short};

// The bench words' program, from one value of r0.
fn show_bench(name: &[u8], r0: u32) {
    show_program(name, &[0x0001_3C21, 0, 0, 0], machine(r0, 0, 0));
}

fn show_examples() {
    show_program(b"example\n", &[0x0001_0021, 0x0005_0421], machine(0, 0, 0));
    show_bench(b"r0=3\n", 3);
    show_bench(b"r0=4\n", 4);
    show_bench(b"r0=FFFFFFFF\n", 0xFFFF_FFFF);
}

fn show_rules() {
    show_program(
        b"flags\n",
        &[0x0001_3C21, 0x0004_3C21, 0x0005_3C21, 0x000B_3C21],
        machine(0, 0x7FFF_FFFF, 0),
    );
    show_program(
        b"overwritten\n",
        &[0x0000_0122, 0x000B_0000],
        machine(0, 0, 0x0005_0000),
    );
}

fn show_longest() {
    let words = [0x0000_0339; 48];
    show_program(b"longest\n", &words, machine(0, 16, 0));
    show_short(b"short output\n", &words, machine(0, 16, 0));
}

// So many bytes of the same image, which has 63.
fn show_sizes() {
    let one = [0x0001_3C21];
    show_part(b"63 bytes\n", &one, 63);
    show_part(b"62 bytes\n", &one, 62);
    show_part(b"64 bytes\n", &one, 64);
    show_part(b"empty\n", &one, 0);
    show_part(b"cut header\n", &one, 2);
}

// Fields that are not as they should be.
fn show_fields() {
    show_changed(b"tag\n", 0, 2);
    show_changed(b"last tag\n", 60, 5);
    show_changed(b"length\n", 40, 5);
    show_changed(b"version 0\n", 3, 0);
    show_changed(b"version 2\n", 3, 2);
    show_changed(b"version 3\n", 3, 3);
}

// Values that are not as they should be.
fn show_values() {
    show_changed(b"flag\n", 45, 2);
    show_changed(b"no words\n", 49, 0);
    show_changed(b"above 16777216 words\n", 52, 1);
    show_changed(b"above 4096 words\n", 50, 16);
}

fn show_largest() {
    let most = [0u32; 4_096];
    show_part(b"4096 words\n", &most, 16_452);
    show_part(b"4096 words and a byte\n", &most, 16_453);
    show_part(b"4097 words\n", &[0u32; 4_097], 16_459);
}

fn main() {
    show_examples();
    show_rules();
    show_longest();
    show_sizes();
    show_fields();
    show_values();
    show_largest();
}
