// Paths: the reader with its four faults, the paths of MAIL and RCPT, and their parts.
#![tactic(auto)]

pub mod envelope;
pub mod examples;
pub mod path;
