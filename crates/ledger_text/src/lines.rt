// The parts of the ledger's text.
ghost use Rattle.std.specs.Prelude.{◌≡◌, ◌+◌, ◌^◌, ◌<◌, ◌≤◌};
ghost use Rattle.ledger_lines.specs.Lines.{heading, line, ending_word, ending_text, refused_text};
ghost use Rattle.ledger_text.specs.Parts.{Extends, Writes};

use super::writer::Writer;
use model::{Ending, Flags, Refusal};
use refusals::refusal_number;

// The line above the instructions' lines.
pub fn put_heading(writer: &mut Writer)
    requires { writer.old.at < 2 ^ 16 }
    ensures { Writes writer.old heading writer.new }
{
    writer.text(b"step pc word clocks cvnz\n");
}

// An instruction's line.
pub fn put_line(
    writer: &mut Writer,
    number: u64,
    address: u32,
    word: u32,
    clocks: u64,
    flags: Flags,
)
    requires { writer.old.at < 2 ^ 16 }
    ensures { Writes writer.old (line number address word clocks flags) writer.new }
{
    writer.decimal(number, b' ');
    writer.hexadecimal(address, b' ');
    writer.hexadecimal(word, b' ');
    writer.decimal(clocks, b' ');
    writer.flags(flags, b'\n');
}

// The word of an ending, with the space after it.
fn word_of(ending: Ending) -> &'static [u8]
    ensures { result.now ≡ ending_word ending }
{
    match ending {
        Ending::Finished => b"finished ",
        Ending::Outside => b"outside ",
        Ending::NoInstruction => b"halted ",
    }
}

// The ending's word, with count and total.
pub fn put_ending(writer: &mut Writer, ending: Ending, count: u64, total: u64)
    requires { writer.old.at < 2 ^ 16 }
    ensures { Writes writer.old (ending_text (ending_word ending) count total) writer.new }
{
    writer.text(word_of(ending));
    writer.decimal(count, b' ');
    writer.decimal(total, b'\n');
}

// All that is printed for a bad image: how many bytes it has.
pub fn put_refused(out: &mut [u8], why: Refusal) -> usize
    ensures { Extends out.old 0 (refused_text why) out.new result }
{
    let mut writer = Writer::new(out);
    writer.text(b"refused ");
    writer.decimal(refusal_number(why) as u64, b'\n');
    writer.size()
}
