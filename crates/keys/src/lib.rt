// Refusals 14 and 15: the special names and the keys (FORMAT, "Refusals").
#![tactic(auto)]

pub mod list;
pub mod special;

// The name count, and the indices of `__root__` and `__value__`.
#[derive(Clone, Copy, Debug, PartialEq, Eq)]
pub struct Names {
    pub count: usize,
    pub root: usize,
    pub value: usize,
}
