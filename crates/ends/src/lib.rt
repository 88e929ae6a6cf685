// The ends of a message over any spool, in SMTP and in LMTP, and the ledger that counts what each mailbox had.
#![tactic(auto)]

pub mod faults;
pub mod ledger;
pub mod lmtp;
mod lot;
pub mod message;
pub mod smtp;
