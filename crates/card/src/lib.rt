// One packet on a card store, and cells of the store.
#![tactic(auto)]

mod block;
pub mod cells;
pub mod check;
mod element;
pub mod run;
