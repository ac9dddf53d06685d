//! That what a session was told is carried, rule by rule: nothing of a command is torn, swapped or
//! said twice, and what is handed out has come. It has definitions and lemmas alone.
#![tactic(auto)]
