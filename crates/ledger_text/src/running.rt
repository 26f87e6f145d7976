// The text of a run: heading, a line for each instruction, ending.
ghost use Rattle.std.specs.Prelude.{◌≡◌, ◌≤◌, ◌<◌, length};
ghost use Rattle.model.specs.Refusals.{most_words};
ghost use Rattle.interpreter.specs.Calls.{Runs};
ghost use Rattle.ledger_lines.specs.Lines.{ledger_board};
ghost use Rattle.ledger_text.specs.Parts.{ending_of, RunPuts};

use super::lines::{put_ending, put_heading, put_line};
use super::writer::Writer;
use interpreter::{RunResult, run};
use model::{Ending, Machine, Refusal};
use operands::load;

const MOST_LINES: u64 = 16;

fn run_one(memory: &mut [u32], machine: Machine) -> RunResult
    ensures { Runs memory.old ledger_board 0 machine 1 memory.new result }
{
    let no_waits: [u16; 0] = [];
    run(memory, 0, &no_waits, 0, machine, 1)
}

// How a run ended. One on an image's words is never refused.
fn ending_of(answer: Result<Ending, Refusal>) -> Ending
    ensures { result ≡ ending_of answer }
{
    answer.unwrap_or(Ending::Outside)
}

// Runs one instruction at a time, as the line shows what was there before it.
pub fn put_run(memory: &mut [u32], start: Machine, out: &mut [u8]) -> usize
    requires { (0 < length memory.old) × (length memory.old ≤ most_words) }
    ensures { RunPuts start memory.old out.old memory.new out.new result }
{
    let mut writer = Writer::new(out);
    put_heading(&mut writer);
    let mut machine = start;
    let mut clocks = 0;
    for ran in 0..MOST_LINES {
        let address = machine.regs[0];
        let word = load(memory, address as usize);
        let step = run_one(memory, machine);
        if step.ran == 0 {
            let answer = step.answer;
            put_ending(&mut writer, ending_of(answer), ran, clocks);
            return writer.size();
        }
        machine = step.machine;
        clocks += step.clocks;
        put_line(
            &mut writer,
            ran + 1,
            address,
            word,
            step.clocks,
            machine.flags,
        );
    }
    put_ending(&mut writer, Ending::Finished, MOST_LINES, clocks);
    writer.size()
}
