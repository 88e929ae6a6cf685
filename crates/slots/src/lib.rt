// A spool that cuts its memory into equal slots, with a payload in each at most.
#![tactic(auto)]

pub mod row;
pub mod store;
mod table;
