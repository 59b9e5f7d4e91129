// Truth values, tests over lists, order and tables: the definitions (specs/) and laws (proofs/) that other crates
// share. There is no code here.
#![tactic(auto)]
