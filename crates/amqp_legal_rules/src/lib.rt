//! That what a session says stays a legal conversation of a client, rule by rule: what was said so
//! far and the state of the session are tied, and each rule keeps the tie. It has lemmas alone.
#![tactic(auto)]
