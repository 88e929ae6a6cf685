// What every layer of the receiver shares: the ordered list, the lot, the spool interface and the ticket.
#![tactic(auto)]

pub mod entry;
pub mod interface;
pub mod list;
pub mod lot;
pub mod ticket;
