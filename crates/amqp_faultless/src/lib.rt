//! What a faultless server may say to a client, and that the rules of a session keep the tie of the
//! two. It has definitions and lemmas alone.
#![tactic(auto)]
