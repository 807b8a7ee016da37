// Laws of numbers, bits and lists that more than one layer cites: see proofs/. There is no code here.
#![tactic(auto)]
