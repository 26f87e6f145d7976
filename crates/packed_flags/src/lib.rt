// The four flags packed into one number: leaves that both engines use.
#![tactic(auto, unfolding(model::specs::Words::field, model::specs::Words::bit, model::specs::Packed::flags_of))]

mod flags;

pub use flags::{carry, negative, overflow, packed, unpacked, zero};
