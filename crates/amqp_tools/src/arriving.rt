//! The message that arrives, frame by frame.

ghost use Rattle.std.specs.Prelude.{◌≡◌, [], IfOk, OnOk, OnErr};
ghost use Rattle.amqp_tools.specs.Arriving.{stage_at, announced_size, body_size, after_part, joined, whole, is_redelivered};
ghost use Rattle.amqp_methods.specs.Heard.{deliver_in};

use amqp_frame::RawKind;
use amqp_methods::read_deliver;
use amqp_types::NoMemory;
use std::alloc::Global;

/// How far the message is that arrives.
#[derive(Clone, Copy, Debug, PartialEq, Eq)]
pub enum Stage {
    /// There is none.
    Idle,
    /// It was delivered with this tag; its content header is to come.
    Announced(u64),
    /// So many octets of its body are to come; 0 where it is whole.
    Missing(u64, u64),
}

/// The message that arrives, with as much of its body as has come.
#[derive(Drop)]
pub struct Arriving {
    stage: Stage,
    redelivered: bool,
    body: Vec<u8>,
}

/// How many octets the body has, by its content header.
pub fn size_in(header: &[u8]) -> u64
    ensures { result ≡ body_size header.now }
{
    if header.len() < 12 {
        return 0;
    }
    let mut octets = [0; 8];
    octets.copy_from_slice(&header[4..12]);
    u64::from_be_bytes(octets)
}

impl Arriving {
    /// There is none.
    pub fn new(alloc: Global) -> Arriving
        ensures stage { result.stage ≡ Stage.Idle }
        ensures body { result.body.items ≡ [] }
    {
        Arriving {
            stage: Stage::Idle,
            redelivered: false,
            body: Vec::new(alloc),
        }
    }

    /// A method came: a message begins where it is basic.deliver, and what had come of another is forgotten.
    pub fn method(&mut self, alloc: Global, payload: &[u8]) -> Result<(), NoMemory>
        ensures stage { OnOk result (self.new.stage ≡ stage_at payload.now) }
        ensures body { OnOk result (self.new.body.items ≡ []) }
        ensures redelivered { OnOk result (self.new.redelivered ≡ is_redelivered (deliver_in payload.now)) }
    {
        let delivered = read_deliver(alloc, payload)?;
        self.body.clear();
        self.redelivered = false;
        self.stage = match &delivered {
            Some(deliver) => {
                self.redelivered = deliver.redelivered;
                Stage::Announced(deliver.delivery_tag)
            }
            None => Stage::Idle,
        };
        drop(delivered);
        Ok(())
    }

    /// A content header came.
    pub fn header(&mut self, payload: &[u8])
        ensures stage { self.new.stage ≡ announced_size (body_size payload.now) self.old.stage }
        ensures body { self.new.body.items ≡ self.old.body.items }
        ensures redelivered { self.new.redelivered ≡ self.old.redelivered }
    {
        if let Stage::Announced(tag) = self.stage {
            self.stage = Stage::Missing(tag, size_in(payload));
        }
    }

    /// A part of a body came. More than is missing is not taken.
    pub fn part(&mut self, payload: &[u8]) -> Result<(), NoMemory>
        ensures stage { OnOk result (self.new.stage ≡ after_part payload.now self.old.stage) }
        ensures body { OnOk result (self.new.body.items ≡ joined payload.now self.old.stage self.old.body.items) }
        ensures redelivered { self.new.redelivered ≡ self.old.redelivered }
    {
        if let Stage::Missing(tag, missing) = self.stage
            && payload.len() as u64 <= missing
        {
            self.body.extend_from_slice(payload)?;
            self.stage = Stage::Missing(tag, missing - payload.len() as u64);
        }
        Ok(())
    }

    /// The tag of the message, where it is whole.
    pub fn whole(&self) -> Option<u64>
        ensures { result ≡ whole self.now.stage }
    {
        match self.stage {
            Stage::Missing(tag, 0) => Some(tag),
            _ => None,
        }
    }

    /// Whether the broker says that it may have delivered the message before.
    pub fn redelivered(&self) -> bool
        ensures { result ≡ self.now.redelivered }
    {
        self.redelivered
    }

    /// What has come of the body.
    pub fn body(&self) -> &[u8]
        ensures { result.now ≡ self.now.body.items }
    {
        self.body.as_slice()
    }

    /// The message was taken: there is none.
    pub fn forget(&mut self)
        ensures stage { self.new.stage ≡ Stage.Idle }
        ensures body { self.new.body.items ≡ [] }
    {
        self.stage = Stage::Idle;
        self.body.clear();
    }
}
