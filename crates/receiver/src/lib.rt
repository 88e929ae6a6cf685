// The receiver: eight sessions over a directory and a spool, and a ledger.
#![tactic(auto)]

mod converse;
mod ending;
pub mod seat;
