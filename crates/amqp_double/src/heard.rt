//! What a double heard of its client, and what it answers.

ghost use Rattle.std.specs.Prelude.{◌≡◌, ◌≤◌, ◌+◌, ◌-◌, ◌++◌, ◌∷◌, [], ℕ, List, length, drop, vec_capacity, Some, None};
ghost use Rattle.std.specs.Prelude.{IfOk, OnOk, OnErr, IsTrue, IsFalse};
ghost use Rattle.amqp_double.specs.Replies.{closes_connection};
ghost use Rattle.amqp_frame.specs.declared.frame.Frame.{Frame};

use crate::arrivals::{Arrival, Arrivals, Behind, read_arrivals};
use crate::refusal::Refusal;
use amqp_frame::{Frame, Method};
use amqp_legal::{Speech, is_amqp_header};
use amqp_settings::Configuration;
use amqp_types::NoMemory;
use std::alloc::Global;

/// What a double heard of its client, and what it answers.
#[derive(Drop)]
pub struct Heard {
    /// The numbers of its tune.
    pub numbers: Configuration,
    /// What the client said in the frames that were read. Of no frame and of the protocol header alone it
    /// is the same.
    pub speech: Speech,
    /// The client's octets.
    pub client: Vec<u8>,
    /// How many of them are the frames that were read.
    pub read: usize,
    /// How many frames were read.
    pub frames: u64,
    /// Why nothing further is read.
    pub refusal: Option<Refusal>,
    /// The octets of all replies.
    pub said: Vec<u8>,
    /// How many of them were sent.
    pub sent: usize,
    /// Whether the last frame that was read is a close of the connection, or its close-ok.
    pub closed: bool,
    // no frame is empty
    ghost few: { frames ≤ read },
    // what was read had come
    ghost within: { read ≤ length client.items },
    // what was sent had been said
    ghost sent_few: { sent ≤ length said.items },
}

impl Heard {
    ghost use Rattle.amqp_legal.specs.Legal.{Legal};
    ghost use Rattle.amqp_legal.specs.Speeches.{HasSaid};
    ghost use Rattle.amqp_double.specs.declared.refusal.Refusal.TheVariants as refusals;
    ghost use Rattle.amqp_double.specs.Arrivals.{IsArrival, Arrive, AreArrivals, replies_length};
    ghost use Rattle.amqp_double.specs.Doubles.{fresh, SaysMore, SaysOn};
    ghost use Rattle.amqp_double.specs.Hearing.{double_of, HasRead, HeardAll, HasTaken, Unchanged, Kept};

    /// Nothing was heard.
    pub fn new(alloc: Global, numbers: Configuration) -> Result<Heard, NoMemory>
        ensures heard { IfOk result (λ heard. HeardAll heard) }
        ensures fresh { IfOk result (λ heard. double_of heard ≡ fresh numbers) }
    {
        Ok(Heard {
            numbers,
            speech: Speech::new(alloc)?,
            client: Vec::new(alloc),
            read: 0,
            frames: 0,
            refusal: None,
            said: Vec::new(alloc),
            sent: 0,
            closed: false,
        })
    }

    /// Hears more octets, and answers each frame that is whole then. Where there is no memory for that,
    /// nothing was heard.
    #[tactic(auto, using(crate::proofs::Taking::taken_off))]
    pub fn hear(&mut self, alloc: Global, bytes: &[u8]) -> Result<(), NoMemory>
        requires { self.old.refusal ≡ None }
        ensures heard { OnOk result (HeardAll self.old → HeardAll self.new) }
        ensures client { OnOk result (self.new.client.items ≡ self.old.client.items ++ bytes.now) }
        ensures same { (self.new.numbers ≡ self.old.numbers) × (self.new.sent ≡ self.old.sent) }
        ensures unchanged { OnErr result (Unchanged self.old self.new) }
    {
        let known = self.client.len();
        self.client.extend_from_slice(bytes)?;
        match self.arrivals(alloc) {
            Ok(arrivals) => {
                self.take_all(&arrivals);
                drop(arrivals);
                Ok(())
            }
            Err(NoMemory) => {
                self.client.truncate(known);
                Err(NoMemory)
            }
        }
    }

    /// The same, once a list has places for as many items more as octets are then said and not sent, and
    /// for so many beside. Where there is no memory for that, nothing was heard.
    #[tactic(auto, using(crate::proofs::Taking::taken_off))]
    pub fn hear_with<T>(
        &mut self,
        alloc: Global,
        bytes: &[u8],
        list: &mut Vec<T>,
        beside: usize,
    ) -> Result<(), NoMemory>
        requires { self.old.refusal ≡ None }
        ensures heard { OnOk result (HeardAll self.old → HeardAll self.new) }
        ensures client { OnOk result (self.new.client.items ≡ self.old.client.items ++ bytes.now) }
        ensures same { (self.new.numbers ≡ self.old.numbers) × (self.new.sent ≡ self.old.sent) }
        ensures said { OnOk result (SaysOn self.old.said.items self.new.said.items) }
        ensures items { list.new.items ≡ list.old.items }
        ensures capacity { vec_capacity list.old ≤ vec_capacity list.new }
        ensures places { OnOk result (length list.new.items
            + (length self.new.said.items - self.new.sent) + beside ≤ vec_capacity list.new) }
        ensures unchanged { OnErr result (Unchanged self.old self.new) }
    {
        let before = self.client.len();
        self.client.extend_from_slice(bytes)?;
        match self.arrivals_with(alloc, list, beside) {
            Ok(arrivals) => {
                self.take_all(&arrivals);
                drop(arrivals);
                Ok(())
            }
            Err(NoMemory) => {
                self.client.truncate(before);
                Err(NoMemory)
            }
        }
    }

    // All frames that are whole and were not read yet; memory for the replies to them; and places for as
    // many items as octets are not sent once these are said, and for so many beside.
    fn arrivals_with<T>(
        &mut self,
        alloc: Global,
        list: &mut Vec<T>,
        beside: usize,
    ) -> Result<Arrivals, NoMemory>
        ensures unchanged { Unchanged self.old self.new }
        ensures arrivals { IfOk result (λ arrivals.
            AreArrivals self.new.client.items self.new.numbers self.new.read arrivals) }
        ensures room { IfOk result (λ arrivals.
            length self.new.said.items + replies_length arrivals.list.items ≤ vec_capacity self.new.said) }
        ensures items { list.new.items ≡ list.old.items }
        ensures capacity { vec_capacity list.old ≤ vec_capacity list.new }
        ensures places { IfOk result (λ arrivals. length list.new.items
            + (length self.new.said.items - self.new.sent) + replies_length arrivals.list.items + beside
            ≤ vec_capacity list.new) }
    {
        let arrivals = self.arrivals(alloc)?;
        let unsent = self.said.len() - self.sent;
        if reserve_all(list, unsent, arrivals.replies, beside).is_err() {
            drop(arrivals);
            return Err(NoMemory);
        }
        Ok(arrivals)
    }

    // All frames that are whole and were not read yet; and memory for the replies to them.
    fn arrivals(&mut self, alloc: Global) -> Result<Arrivals, NoMemory>
        ensures unchanged { Unchanged self.old self.new }
        ensures arrivals { IfOk result (λ arrivals.
            AreArrivals self.new.client.items self.new.numbers self.new.read arrivals) }
        ensures room { IfOk result (λ arrivals.
            length self.new.said.items + replies_length arrivals.list.items ≤ vec_capacity self.new.said) }
    {
        let arrivals = read_arrivals(alloc, self.numbers, &self.client, self.read)?;
        match self.said.reserve(arrivals.replies) {
            Ok(()) => Ok(arrivals),
            Err(_) => {
                drop(arrivals);
                Err(NoMemory)
            }
        }
    }

    // Takes all that came.
    #[tactic(auto, using(crate::proofs::Ends::more, crate::proofs::Ends::no_frame, crate::proofs::Ends::refused))]
    fn take_all(&mut self, arrivals: &Arrivals)
        requires going { self.old.refusal ≡ None }
        requires room { length self.old.said.items + replies_length arrivals.now.list.items
            ≤ vec_capacity self.old.said }
        requires arrived { AreArrivals self.old.client.items self.old.numbers self.old.read arrivals.now }
        ensures heard { (frames : List Frame) → HasRead frames self.old → HeardAll self.new }
        ensures said { SaysMore (replies_length arrivals.now.list.items) self.old.said.items self.new.said.items }
        ensures same { Kept self.old self.new }
    {
        self.take_list(&arrivals.list);
        match (self.refusal, arrivals.behind) {
            (None, Behind::NoFrame) => self.refusal = Some(Refusal::BadBytes(self.read as u64)),
            _ => {}
        }
    }

    // Takes frames, as long as the client may say them.
    #[tactic(auto, using(crate::proofs::Taking::none_taken, crate::proofs::Taking::taken_more))]
    fn take_list(&mut self, list: &[Arrival])
        requires going { self.old.refusal ≡ None }
        requires room { length self.old.said.items + replies_length list.now ≤ vec_capacity self.old.said }
        requires arrived { (end : ℕ) × Arrive self.old.client.items self.old.numbers self.old.read list.now end }
        ensures heard { (frames : List Frame) → HasRead frames self.old → HasTaken self.old list.now self.new }
        ensures said { SaysMore (replies_length list.now) self.old.said.items self.new.said.items }
        ensures same { Kept self.old self.new }
    {
        for next in list {
            if !self.take(next) {
                return;
            }
        }
    }

    // Takes the next frame, and says the reply to it, for which there is memory; or refuses it, where the
    // client may not say it.
    fn take(&mut self, next: &Arrival) -> bool
        requires going { self.old.refusal ≡ None }
        requires room { length self.old.said.items + length next.now.reply.items ≤ vec_capacity self.old.said }
        requires arrived { IsArrival self.old.client.items self.old.numbers self.old.read next.now }
        ensures taken { IsTrue result → (frames : List Frame) → HasRead frames self.old
            → HasRead (frames ++ next.now.frame ∷ []) self.new }
        ensures going { IsTrue result → self.new.refusal ≡ None }
        ensures place { IsTrue result → self.new.read ≡ self.old.read + next.now.size }
        ensures said { IsTrue result → self.new.said.items ≡ self.old.said.items ++ next.now.reply.items }
        ensures room { vec_capacity self.old.said ≤ vec_capacity self.new.said }
        ensures refused { IsFalse result → (frames : List Frame) → HasRead frames self.old
            → HasRead frames self.new × (Legal (frames ++ next.now.frame ∷ []) → ⊥) }
        ensures refusal { IsFalse result → self.new.refusal ≡ Some (refusals.Unexpected self.old.frames) }
        ensures here { IsFalse result → self.new.read ≡ self.old.read }
        ensures unsaid { IsFalse result → self.new.said.items ≡ self.old.said.items }
        ensures same { Kept self.old self.new }
    {
        if !self.say(&next.frame) {
            self.refusal = Some(Refusal::Unexpected(self.frames));
            return false;
        }
        // The memory was taken before, so this cannot be refused.
        let _ = self.said.extend_from_slice(&next.reply);
        self.read += next.size;
        self.frames += 1;
        self.closed = is_last(&next.frame);
        true
    }

    // Whether the client may say the next frame, and it is said then.
    fn say(&mut self, frame: &Frame) -> bool
        ensures same { self.new ≡ record self.old { speech = self.new.speech } }
        ensures said { IsTrue result → (frames : List Frame) → HasRead frames self.old
            → Legal (frames ++ frame.now ∷ []) × HasSaid (drop 1 (frames ++ frame.now ∷ [])) self.new.speech }
        ensures refused { IsFalse result → (frames : List Frame) → HasRead frames self.old
            → Legal (frames ++ frame.now ∷ []) → ⊥ }
        ensures kept { IsFalse result → self.new ≡ self.old }
    {
        if self.frames == 0 {
            is_amqp_header(frame)
        } else {
            self.speech.say(frame)
        }
    }
}

/// Places in a list for three numbers of items together.
pub fn reserve_all<T>(
    list: &mut Vec<T>,
    first: usize,
    second: usize,
    third: usize,
) -> Result<(), NoMemory>
    ensures items { list.new.items ≡ list.old.items }
    ensures capacity { vec_capacity list.old ≤ vec_capacity list.new }
    ensures places { OnOk result (length list.new.items + (first + second + third) ≤ vec_capacity list.new) }
{
    let Some(both) = first.checked_add(second) else {
        return Err(NoMemory);
    };
    let Some(all) = both.checked_add(third) else {
        return Err(NoMemory);
    };
    list.reserve(all)?;
    Ok(())
}

// Whether a frame is a close of the connection, or its close-ok.
fn is_last(frame: &Frame) -> bool
    ensures { result ≡ closes_connection frame.now }
{
    matches!(
        frame,
        Frame::Method(0, Method::Close(..)) | Frame::Method(0, Method::CloseOk)
    )
}
