// Path listing in an accepted file (FORMAT, "Questions").
#![tactic(auto)]

mod below;
pub mod listing;
pub mod names;
