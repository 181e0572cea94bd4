// Machines that read letters: their discovery and their automata are theorems, without code.
#![tactic(auto)]
