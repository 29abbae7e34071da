// A map from numbers to numbers, in the order of its keys.
#![tactic(auto)]

mod maps;

pub use maps::KeyMap;
