// Directories: the interface, the address list and the domain list.
#![tactic(auto)]

pub mod address_list;
pub mod directory;
pub mod domain_list;
pub mod listing;
pub mod row;
pub mod spelling;
