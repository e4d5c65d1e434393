// The lamp panel product: exchanges started and reported by masks of channels, and a field's reading as a float.
#![tactic(auto)]

pub mod fields;
pub mod masks;
pub mod reading;
