// The ledger: what an image's first instructions do, as text.
#![tactic(auto)]

mod lines;
mod running;
mod writer;

ghost use Rattle.ledger_text.specs.Report.{Reports, ReportsInput};

use image_reader::read;
use lines::put_refused;
use running::put_run;
use std::error::Error;
use std::fmt;

// The bytes of the longest ledger.
pub const LONGEST_TEXT: usize = 496;

// The most bytes of the program's input, one more than the largest image that its memory holds, so that a byte after such an image is seen.
pub const MOST_INPUT: usize = 16_453;

const MEMORY_WORDS: usize = 4_096;

// The output has less room than the longest ledger needs.
#[derive(Clone, Copy, PartialEq, Eq, Debug)]
pub struct NoRoom;

impl fmt::Display for NoRoom {
    fn fmt<W: fmt::Write>(&self, f: &mut fmt::Formatter<W>) -> fmt::Result {
        write!(f, "the output has less room than the longest ledger needs")
    }
}

impl Error for NoRoom {}

// The ledger of an image, put to the front of `out`: how many bytes it has. The memory, lent for the image's words, holds what their run leaves.
pub fn report(bytes: &[u8], memory: &mut [u32], out: &mut [u8]) -> Result<usize, NoRoom>
    ensures { Reports bytes.now memory.old out.old memory.new out.new result }
{
    if out.len() < LONGEST_TEXT {
        return Err(NoRoom);
    }
    let result = read(bytes, memory);
    let answer = result.answer;
    match answer {
        Err(why) => Ok(put_refused(out, why)),
        Ok(loaded) => {
            let count = loaded.words as usize;
            let machine = result.machine;
            Ok(put_run(&mut memory[..count], machine, out))
        }
    }
}

// The program: the ledger of an input, of which the first 16,453 bytes count, in a memory of 4,096 words.
pub fn report_input(input: &[u8], out: &mut [u8]) -> Result<usize, NoRoom>
    ensures { ReportsInput input.now out.old out.new result }
{
    let mut memory = [0u32; MEMORY_WORDS];
    let size = MOST_INPUT.min(input.len());
    report(&input[..size], &mut memory, out)
}
