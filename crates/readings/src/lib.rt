// The readings of small rules, which are theorems: this crate has no code to call.
#![tactic(auto)]
