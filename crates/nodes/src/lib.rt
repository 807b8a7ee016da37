// Refusals 16 to 19 and 23: nodes and attributes (FORMAT, "Nodes", "Attributes", "Refusals").
#![tactic(auto)]

pub mod all;
pub mod attribute;
pub mod doubts;
pub mod fields;
pub mod long;
mod node;
pub mod prepared;
pub mod value;
