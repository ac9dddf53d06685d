//! Which publishes of a channel in confirm mode the broker has not answered.

ghost use Rattle.std.specs.Prelude.{◌≡◌, ◌+◌, ◌++◌, ◌∷◌, [], ℕ, List, Bool, None, length, position, ◌<◌, IfSome, IfOk, OnOk, OnErr};
ghost use Rattle.amqp_tools.specs.Confirms.{means, left_unanswered, meant, is_given_back, given_back};
ghost use Rattle.amqp_tools.specs.declared.confirms.Open.{Open as OneOpen};

use amqp_types::{NoMemory, Payload};
use std::alloc::Global;
use std::mem;

/// A publish that has no answer.
#[derive(Drop)]
pub struct Open {
    number: u64,
    /// Which message it is, counted from 1 over all channels.
    pub message: u64,
    /// The code with which the broker gave it back, where it did.
    pub returned: Option<u16>,
    /// Its body, where it is kept to be published again.
    pub body: Option<Payload>,
}

/// The publishes of a channel in confirm mode, numbered from 1 on, and which of them the broker has not
/// answered.
#[derive(Drop)]
pub struct Confirms {
    alloc: Global,
    messages: u64,
    published: u64,
    unanswered: Vec<Open>,
}

// Whether an answer with this tag means this publish.
fn means(tag: u64, multiple: bool, publish: u64) -> bool
    ensures { result ≡ means tag multiple publish }
{
    if multiple {
        tag == 0 || publish <= tag
    } else {
        publish == tag
    }
}

impl Open {
    /// Whether an answer with this tag means it.
    pub fn is_meant(&self, tag: u64, multiple: bool) -> bool
        ensures { result ≡ means tag multiple self.now.number }
    {
        means(tag, multiple, self.number)
    }
}

// Whether a message with this body is meant where one is given back: it was not given back yet.
fn is_given_back(publish: &Open, body: &[u8]) -> bool
    ensures { result ≡ is_given_back body.now publish.now }
{
    match &publish.body {
        Some(kept) => publish.returned.is_none() && kept.as_bytes() == body,
        None => false,
    }
}

// Where the first of these stands that is meant.
fn place_of(opens: &[Open], body: &[u8]) -> Option<usize>
    ensures at { result ≡ position (is_given_back body.now) opens.now }
    ensures within { IfSome result (λ at. at < length opens.now) }
{
    opens.iter().position(|open| is_given_back(open, body))
}

impl Confirms {
    /// Nothing was published.
    pub fn new(alloc: Global) -> Confirms
        ensures published { (result.published ≡ 0) × (result.messages ≡ 0) }
        ensures unanswered { result.unanswered.items ≡ [] }
    {
        Confirms {
            alloc,
            messages: 0,
            published: 0,
            unanswered: Vec::new(alloc),
        }
    }

    /// One more publish, which has no answer, and whose body is kept where it is given. Where memory is
    /// refused, or no number is left, nothing has changed.
    pub fn publish(&mut self, body: Option<Payload>) -> Result<(), NoMemory>
        ensures published { OnOk result (self.new.published ≡ self.old.published + 1) }
        ensures messages { OnOk result (self.new.messages ≡ self.old.messages + 1) }
        ensures unanswered { OnOk result (self.new.unanswered.items ≡ self.old.unanswered.items
            ++ record { number = self.old.published + 1; message = self.old.messages + 1; returned = None; body = body }
            ∷ []) }
        ensures same { OnErr result ((self.new.published ≡ self.old.published)
            × (self.new.messages ≡ self.old.messages)
            × (self.new.unanswered.items ≡ self.old.unanswered.items)) }
    {
        if self.published == u64::MAX || self.messages == u64::MAX {
            drop(body);
            return Err(NoMemory);
        }
        let number = self.published + 1;
        let message = self.messages + 1;
        let open = Open {
            number,
            message,
            returned: None,
            body,
        };
        match self.unanswered.push(open) {
            Ok(()) => {
                self.published = number;
                self.messages = message;
                Ok(())
            }
            Err(_) => Err(NoMemory),
        }
    }

    /// A message that had no answer on a channel before is published again, under another number. Where memory
    /// is refused, or no number is left, nothing has changed but that it is let go.
    pub fn publish_again(&mut self, unanswered: Open) -> Result<(), NoMemory>
        ensures published { OnOk result (self.new.published ≡ self.old.published + 1) }
        ensures messages { OnOk result (self.new.messages ≡ self.old.messages) }
        ensures unanswered { OnOk result (self.new.unanswered.items
            ≡ self.old.unanswered.items ++ record unanswered { number = self.old.published + 1 } ∷ []) }
        ensures same { OnErr result ((self.new.published ≡ self.old.published)
            × (self.new.messages ≡ self.old.messages)
            × (self.new.unanswered.items ≡ self.old.unanswered.items)) }
    {
        if self.published == u64::MAX {
            drop(unanswered);
            return Err(NoMemory);
        }
        let number = self.published + 1;
        match self.unanswered.push(Open {
            number,
            ..unanswered
        }) {
            Ok(()) => {
                self.published = number;
                Ok(())
            }
            Err(_) => Err(NoMemory),
        }
    }

    /// The broker gave a message with this body back, with a code: the first of it that has no answer and was
    /// not given back yet.
    pub fn give_back(&mut self, code: u16, body: &[u8])
        ensures unanswered { self.new.unanswered.items ≡ given_back code body.now self.old.unanswered.items }
        ensures published { (self.new.published ≡ self.old.published) × (self.new.messages ≡ self.old.messages) }
    {
        if let Some(place) = place_of(&self.unanswered, body) {
            self.unanswered[place].returned = Some(code);
        }
    }

    /// Those that have no answer, in order.
    pub fn open(&self) -> &[Open]
        ensures { result.now ≡ self.now.unanswered.items }
    {
        self.unanswered.as_slice()
    }

    /// The broker answered with this tag: one publish, or with `multiple` all up to it. How many that had
    /// no answer it means.
    pub fn answered(&mut self, tag: u64, multiple: bool) -> usize
        ensures meant { result ≡ meant tag multiple self.old.unanswered.items }
        ensures unanswered { self.new.unanswered.items ≡ left_unanswered tag multiple self.old.unanswered.items }
        ensures published { (self.new.published ≡ self.old.published) × (self.new.messages ≡ self.old.messages) }
    {
        let before = self.unanswered.len();
        self.unanswered
            .retain(|publish| !means(tag, multiple, publish.number));
        before - self.unanswered.len()
    }

    /// Another channel takes the place of this one: what had no answer is given, in order, and nothing was
    /// published on the new one.
    pub fn begin_again(&mut self) -> Vec<Open>
        ensures given { result.items ≡ self.old.unanswered.items }
        ensures published { (self.new.published ≡ 0) × (self.new.messages ≡ self.old.messages) }
        ensures unanswered { self.new.unanswered.items ≡ [] }
    {
        self.published = 0;
        mem::replace(&mut self.unanswered, Vec::new(self.alloc))
    }

    /// How many have no answer.
    pub fn unanswered(&self) -> usize
        ensures { result ≡ length self.now.unanswered.items }
    {
        self.unanswered.len()
    }
}

/// What an answer means and what it leaves are together what had no answer. A law, which needs no memory and
/// does nothing.
pub fn each_is_answered_or_not()
    ensures { (tag : ℕ) (multiple : Bool) (waiting : List OneOpen)
        → meant tag multiple waiting + length (left_unanswered tag multiple waiting) ≡ length waiting }
{}
