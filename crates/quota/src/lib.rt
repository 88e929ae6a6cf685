// A quota for each mailbox, as a spool over any spool.
#![tactic(auto)]

pub mod layer;
mod limits;
mod tally;
