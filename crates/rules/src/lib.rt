// The paper's judgements as rules, beside the functions of crate snesl: no code, only definitions and theorems.
#![tactic(auto)]
