// Command lines: what one line of an SMTP or LMTP conversation is, before any state of the session is looked at.
// The argument of a hello is a domain: `address::parts::is_domain` tells.
#![tactic(auto)]

pub mod argument;
pub mod chunk;
pub mod fault;
pub mod line;
mod numeral;
mod parameter;
pub mod verb;
