// What an SMTP or LMTP conversation is made of on the wire: lines, replies and the data part of a message.
#![tactic(auto)]

pub mod line;
pub mod part;
pub mod reply;
