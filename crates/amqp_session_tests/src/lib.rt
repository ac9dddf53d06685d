//! Tests of what stands around a session: providers, properties, numbers, channels, errors. What a session does is told
//! by the stories of `amqp_session_stories`.
#![tactic(auto)]

#[cfg(test)]
mod auth;
#[cfg(test)]
mod creating;
#[cfg(test)]
mod numbers;
#[cfg(test)]
mod options;
#[cfg(test)]
mod sequences;
#[cfg(test)]
mod support;
#[cfg(test)]
mod texts;
