//! The state of an engine that stands still.

ghost use Rattle.std.specs.Prelude.{◌≡◌, IfOk};

use amqp_ring::Buffer;
use amqp_session::{Kept, Session};
use amqp_types::{NoMemory, Payload};
use std::alloc::Global;
use std::fmt;
use std::marker::Model;

/// The state of a loop, kept as it was: what its session was, with the octets of its link. Nothing can be
/// told to it. Its `Debug` shows what that of `IoLoop` does.
#[derive(Drop)]
pub struct KeptLoop {
    alloc: Global,
    session: Kept,
    unread: Payload,
    place: u64,
    unsent: Payload,
    starved: Option<u64>,
}

impl Model for KeptLoop {
    ghost use Rattle.amqp_engine.specs.Engine.{Engine};

    ghost Value = { Engine };

    ghost use Rattle.std.specs.Coded.{codes};
    ghost use Rattle.amqp_types.specs.ValueCode.{value_code};

    ghost coded = { Prim.hlevel (codes, value_code) };

    ghost view = { λ k. record {
      talk = k.session;
      unread = k.unread;
      place = k.place;
      unsent = k.unsent;
      starved = k.starved;
    } };
}

impl fmt::Debug for KeptLoop {
    ghost use Rattle.std.specs.Prelude.{Some};
    ghost use Rattle.amqp_engine.specs.Shown.{kept_debug};

    ghost debug_output = { λ e. Some (kept_debug e) };

    fn fmt<W: fmt::Write>(&self, f: &mut fmt::Formatter<W>) -> fmt::Result {
        let session = self.session.session();
        write!(
            f,
            "KeptLoop {{ state: {}, channels: {}, promises: {}, unread: {}, unsent: {}, .. }}",
            session.state().name(),
            session.listed(),
            session.promises(),
            self.unread.len(),
            self.unsent.len()
        )
    }
}

impl KeptLoop {
    // What stands so: a session, the octets that it has not read, how many were received before them, those
    // that the link has not taken, and where memory was refused.
    pub(crate) fn of(
        alloc: Global,
        session: Session,
        unread: &Buffer,
        place: u64,
        unsent: &Buffer,
        starved: Option<u64>,
    ) -> Result<KeptLoop, NoMemory>
        ensures { IfOk result (λ kept. kept ≡ record {
          talk = session;
          unread = unread.now.kept;
          place = place;
          unsent = unsent.now.kept;
          starved = starved;
        }) }
    {
        match kept_octets(alloc, unread, unsent) {
            Ok((unread, unsent)) => Ok(KeptLoop {
                alloc,
                session: Kept::of(session),
                unread,
                place,
                unsent,
                starved,
            }),
            Err(refused) => {
                drop(session);
                Err(refused)
            }
        }
    }

    /// The session as it stood.
    pub fn session(&self) -> &Session
        ensures { result.now ≡ self.now.talk }
    {
        self.session.session()
    }

    /// The octets that were received on the link and not yet read.
    pub fn unread(&self) -> &[u8]
        ensures { result.now ≡ self.now.unread }
    {
        self.unread.as_bytes()
    }

    /// How many octets of the link were received before them.
    pub fn place(&self) -> u64
        ensures { result ≡ self.now.place }
    {
        self.place
    }

    /// The octets of committed frames that the link had not yet taken.
    pub fn unsent(&self) -> &[u8]
        ensures { result.now ≡ self.now.unsent }
    {
        self.unsent.as_bytes()
    }

    /// How many parts of a turn were done when memory was refused, where it was.
    pub fn starved(&self) -> Option<u64>
        ensures { result ≡ self.now.starved }
    {
        self.starved
    }

    /// An equal state.
    pub fn try_clone(&self) -> Result<KeptLoop, NoMemory>
        ensures { IfOk result (λ kept. kept ≡ self.now) }
    {
        let unread = self.unread.try_clone(self.alloc)?;
        let unsent = self.unsent.try_clone(self.alloc)?;
        let session = self.session.try_clone()?;
        Ok(KeptLoop {
            alloc: self.alloc,
            session,
            unread,
            place: self.place,
            unsent,
            starved: self.starved,
        })
    }
}

// The octets that two buffers keep.
fn kept_octets(
    alloc: Global,
    unread: &Buffer,
    unsent: &Buffer,
) -> Result<(Payload, Payload), NoMemory>
    ensures unread { IfOk result (λ made. made.0 ≡ unread.now.kept) }
    ensures unsent { IfOk result (λ made. made.1 ≡ unsent.now.kept) }
{
    let unread = octets_in(alloc, unread)?;
    let unsent = octets_in(alloc, unsent)?;
    Ok((unread, unsent))
}

// The octets that a buffer keeps.
fn octets_in(alloc: Global, buffer: &Buffer) -> Result<Payload, NoMemory>
    ensures { IfOk result (λ octets. octets ≡ buffer.now.kept) }
{
    let (first, second) = buffer.slices();
    let mut octets = Vec::from_slice(alloc, first)?;
    octets.extend_from_slice(second)?;
    Ok(Payload::from_vec(octets))
}
