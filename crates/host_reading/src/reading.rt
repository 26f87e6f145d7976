// A machine and a gate state, read from lent words: functions and no `From`, since the types are another crate's, and of so many words.
ghost use Rattle.std.specs.Prelude.{◌≡◌, ◌≤◌, length};
ghost use Rattle.host_reading.specs.Layout.{machine_size, state_size, row_in, left_in, machine_in, state_in};

use model::{Flags, GateState, Machine};

const MOST_CLOCKS_LEFT: u32 = 65_535;

pub fn machine_in(words: &[u32]) -> Machine
    requires { machine_size ≤ length words.now }
    ensures { result ≡ machine_in words.now }
{
    let regs = [
        words[0], words[1], words[2], words[3], words[4], words[5], words[6], words[7],
    ];
    let flags = Flags {
        carry: words[8] != 0,
        overflow: words[9] != 0,
        negative: words[10] != 0,
        zero: words[11] != 0,
    };
    Machine { regs, flags }
}

// Row 255, which is refused, also stands for a row word above 255 and for clocks left above 65,535.
fn row_in(row: u32, left: u32) -> u8
    ensures { result ≡ row_in row left }
{
    if (row <= 255) & (left <= MOST_CLOCKS_LEFT) {
        row as u8
    } else {
        255
    }
}

fn left_in(word: u32) -> u16
    ensures { result ≡ left_in word }
{
    word.min(MOST_CLOCKS_LEFT) as u16
}

pub fn state_in(words: &[u32]) -> GateState
    requires { state_size ≤ length words.now }
    ensures { result ≡ state_in words.now }
{
    let m = machine_in(words);
    let regs = m.regs;
    let flags = m.flags;
    GateState {
        regs,
        flags,
        row: row_in(words[12], words[20]),
        instruction: words[13],
        address: words[14],
        a: words[15],
        b: words[16],
        result: words[17],
        position: words[18],
        begun: words[19] != 0,
        left: left_in(words[20]),
    }
}
