// The worked values (FORMAT, "Worked values"): see proofs/Table.antt. There is no code here.
#![tactic(auto)]
