// The step table: next rows and control marks, by row.
#![tactic(auto)]

ghost use Rattle.std.specs.Prelude.{◌≡◌};
ghost use Rattle.step_table.specs.Table.{step_table};

pub const LAST_ROW: u8 = 12;

// What a row is to the clock: nothing more, an access, the last row of an instruction, or one that only a reset leaves.
#[derive(Clone, Copy, PartialEq, Eq, Debug)]
pub enum Mark {
    Plain,
    Access,
    Finishes,
    Stays,
}

// A row of the table: the next row where an operand is in memory, where it is direct, and where nothing is stored or the word read is no
// instruction; its mark.
#[derive(Clone, Copy)]
pub struct Step {
    pub memory: u8,
    pub direct: u8,
    pub skipped: u8,
    pub mark: Mark,
}

pub type Table = [Step; 13];

// A macro, so that the table stands one row to a line: a constant calls no function.
macro_rules! step {
    ($memory:literal, $direct:literal, $skipped:literal, $mark:ident) => {
        Step {
            memory: $memory,
            direct: $direct,
            skipped: $skipped,
            mark: Mark::$mark,
        }
    };
}

const STEPS: Table = [
    step!(1, 1, 1, Plain),
    step!(2, 2, 12, Access),
    step!(3, 3, 3, Plain),
    step!(4, 5, 4, Plain),
    step!(5, 5, 5, Access),
    step!(6, 7, 6, Plain),
    step!(7, 7, 7, Access),
    step!(9, 8, 10, Plain),
    step!(10, 10, 10, Plain),
    step!(10, 10, 10, Access),
    step!(11, 11, 11, Plain),
    step!(0, 0, 0, Finishes),
    step!(12, 12, 12, Stays),
];

pub fn steps() -> Table
    ensures { result ≡ step_table }
{
    STEPS
}
