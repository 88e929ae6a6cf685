// The packed log: a spool that keeps payloads in one memory, in filing order and without gaps.
#![tactic(auto)]

pub mod log;
pub mod row;
