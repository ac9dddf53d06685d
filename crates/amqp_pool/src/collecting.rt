//! The answers to what a pool opened.

ghost use Rattle.std.specs.Prelude.{◌≡◌, ◌+◌, ◌++◌, ◌≤◌, ◌<◌, [], filter, length, vec_len, vec_capacity, Option, Some, Result, Ok};
ghost use Rattle.std.specs.List.{cons_option};
ghost use Rattle.amqp_promise.specs.declared.error.ErrorKind.{ErrorKind};
ghost use Rattle.amqp_answers.specs.declared.answer.Answer.{Answer};
ghost use Rattle.amqp_rules.specs.Answers.{answer_of, Takes};
ghost use Rattle.amqp_hub.specs.Entering.{with_engine};
ghost use Rattle.amqp_pool.specs.Pooled.{AreDifferent};
ghost use Rattle.amqp_pool.specs.Collecting.{has_answer, channel_in, brought_by, unanswered, TakesEach};

use amqp_hub::Hub;
use amqp_session::{Answer, ChanRef};

/// Polls each opening promise, in order. The channels that were opened go last among the idle; what has no
/// answer stays. It tells how many left the opening, and takes no memory.
pub fn collect_each(idle: &mut Vec<ChanRef>, opening: &mut Vec<u64>, hub: &mut Hub) -> usize
    requires room { vec_len idle.old + vec_len opening.old ≤ vec_capacity idle.old }
    requires different { AreDifferent opening.old.items }
    ensures idle { idle.new.items ≡ idle.old.items ++ brought_by hub.old.engine.talk opening.old.items }
    ensures opening { opening.new.items ≡ unanswered hub.old.engine.talk opening.old.items }
    ensures left { result ≡ length (filter (has_answer hub.old.engine.talk) opening.old.items) }
    ensures polled { TakesEach opening.old.items hub.old.engine.talk hub.new.engine.talk }
    ensures rest { hub.new ≡ with_engine (record hub.old.engine { talk = hub.new.engine.talk }) hub.old }
    ensures places { vec_capacity idle.new ≡ vec_capacity idle.old }
{
    let mut waiting = 0;
    'opening: for place in 0..opening.len() {
        let number = opening[place];
        if !poll_one(idle, hub, number) {
            opening[waiting] = number;
            waiting += 1;
        }
    }
    let left = opening.len() - waiting;
    opening.truncate(waiting);
    left
}

// Polls one promise. Whether it was answered; a channel that was opened goes last among the idle.
fn poll_one(idle: &mut Vec<ChanRef>, hub: &mut Hub, number: u64) -> bool
    requires { vec_len idle.old < vec_capacity idle.old }
    ensures answered { result ≡ has_answer hub.old.engine.talk number }
    ensures idle { idle.new.items
        ≡ idle.old.items ++ channel_in number (answer_of number hub.old.engine.talk) }
    ensures taken { (given : Option (Result Answer ErrorKind))
        × Takes number given hub.old.engine.talk hub.new.engine.talk }
    ensures rest { hub.new ≡ with_engine (record hub.old.engine { talk = hub.new.engine.talk }) hub.old }
    ensures places { vec_capacity idle.new ≡ vec_capacity idle.old }
{
    match hub.poll(number) {
        Some(Ok(answer)) => {
            if let Some(channel) = opened_by(number, answer) {
                idle.push_reserved(channel);
            }
            true
        }
        Some(Err(error)) => {
            drop(error);
            true
        }
        None => false,
    }
}

// The channel that a promise opened, where it is answered so.
fn opened_by(number: u64, answer: Answer) -> Option<ChanRef>
    ensures { cons_option result [] ≡ channel_in number (Some (Ok answer)) }
{
    match answer {
        Answer::Channel(id, _) => Some(ChanRef {
            id,
            opened: Some(number),
        }),
        Answer::Connected | Answer::Done | Answer::Sent | Answer::Flow(_) => None,
    }
}
