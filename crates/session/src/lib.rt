// One conversation: from octets to replies, and to the message ends that the receiver carries out.
#![tactic(auto)]

mod chunk;
pub mod hear;
mod obey;
pub mod queue;
pub mod session;
pub mod waiting;
