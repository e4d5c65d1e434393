// A packet's check. It needs the packet's bytes and the pointers, and no store.
#![tactic(auto)]

pub mod bytes;
pub mod command;
pub mod info;
pub mod judge;
pub mod refusal;
