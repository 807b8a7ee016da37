// Refusal 19 of all used attributes, a batch at a time (FORMAT, "Refusals"). Each text and each entry is a wait for memory; the
// steps of a batch touch all its texts, then all its entries, so that the waits overlap. What is not found out here is left to the
// checks node by node, which give the refusal its place.
#![tactic(auto)]

pub mod all;
mod slots;
mod steps;
