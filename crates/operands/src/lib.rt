// Whether a word is an instruction, an instruction's operands, words of memory and a program's store to them: leaves that both engines
// use.
#![tactic(auto, unfolding(model::specs::Words::field, model::specs::Words::bit, model::specs::Words::is_instruction, model::specs::Operands::operand_a, model::specs::Operands::operand_b))]

mod instruction;
mod memory;
mod operand;

pub use instruction::is_instruction;
pub use memory::{load, store, store_above};
pub use operand::{in_memory, operand_a, operand_b};
