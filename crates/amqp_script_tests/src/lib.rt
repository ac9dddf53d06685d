//! Tests of the replay of scripts, what no script of `amqp_script_rows` shows; and of both ends of a
//! link that are joined by a plan.
#![tactic(auto)]

#[cfg(test)]
mod tests;
