// Filing one entry in a lot of its own, and collecting a mailbox's entries in order, over any spool.
#![tactic(auto)]

pub mod collect;
pub mod single;
