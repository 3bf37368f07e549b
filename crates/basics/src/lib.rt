// Lists and numbers: the small functions on lists that the definitions use (specs/), and general
// laws of lists, numbers and signed numbers (proofs/). It has no code.
#![tactic(auto)]
