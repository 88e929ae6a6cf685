// Why calls are refused: one list for every public call of the receiver.
#![tactic(auto)]

pub mod other;
pub mod refusal;
pub mod text;
