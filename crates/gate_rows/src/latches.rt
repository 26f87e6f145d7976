// A gate state without its registers: each clock borrows those, and copies no array.
// The small fields stand together, so that a copy has no gap to carry.
ghost use Rattle.model.specs.GateMachine.{with_row, with_instruction, with_address, with_a, with_b};
ghost use Rattle.gate_rows.specs.Work.{Becomes};

use model::Flags;

#[derive(Clone, Copy)]
pub struct Latches {
    pub instruction: u32,
    pub address: u32,
    pub a: u32,
    pub b: u32,
    pub result: u32,
    pub position: u32,
    pub left: u16,
    pub row: u8,
    pub begun: bool,
    pub flags: Flags,
}

// The next row, with one latch set or none.
impl Latches {
    pub(super) fn moved(self, next: u8) -> Self
        ensures { Becomes self (with_row next) result }
    {
        Self { row: next, ..self }
    }

    pub(super) fn with_instruction(self, instruction: u32, next: u8) -> Self
        ensures { Becomes self (λ t. with_row next (with_instruction instruction t)) result }
    {
        Self {
            instruction,
            row: next,
            ..self
        }
    }

    pub(super) fn with_address(self, address: u32, next: u8) -> Self
        ensures { Becomes self (λ t. with_row next (with_address address t)) result }
    {
        Self {
            address,
            row: next,
            ..self
        }
    }

    pub(super) fn with_a(self, a: u32, next: u8) -> Self
        ensures { Becomes self (λ t. with_row next (with_a a t)) result }
    {
        Self {
            a,
            row: next,
            ..self
        }
    }

    pub(super) fn with_b(self, b: u32, next: u8) -> Self
        ensures { Becomes self (λ t. with_row next (with_b b t)) result }
    {
        Self {
            b,
            row: next,
            ..self
        }
    }
}
