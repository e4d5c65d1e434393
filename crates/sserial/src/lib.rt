// Daughter cards: the fields of a card's process table, laid into a channel's interface registers and read back.
#![tactic(auto)]

mod bits;
pub mod call;
mod channels;
pub mod count;
pub mod field;
mod pack;
pub mod table;
mod value;
