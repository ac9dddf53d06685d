//! That what holds of each frame that a rule queues holds of all that a session says, rule by rule. It
//! has lemmas alone.
#![tactic(auto)]
