// Judging command lines: which verb is heard in which phase of a session, and what a line is judged to be.
#![tactic(auto)]

pub mod judge;
pub mod judged;
pub mod phase;
