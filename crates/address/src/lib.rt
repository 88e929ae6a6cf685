// Local parts and domains: octet classes, the words between dots, and comparison.
#![tactic(auto)]

pub mod classes;
pub mod comparison;
pub mod parts;
pub mod words;
