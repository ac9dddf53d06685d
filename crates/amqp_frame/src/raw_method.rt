//! Methods of classes that are passed through.

ghost use Rattle.std.specs.Prelude.{◌≡◌, ◌≢◌, ◌↔◌, ◌&&◌, IfOk, IsTrue, nat_eq};
ghost use Rattle.std.specs.Cmp.Lexicographic.{pointwise};
ghost use Rattle.std.specs.Cmp.Rules.{comparing};
ghost use Rattle.std.proofs.Common.{rules};
ghost use Rattle.amqp_frame.specs.RawMethods.{spell_raw_method};
ghost use Rattle.amqp_frame.specs.Frames.{IsOtherMethod};

use amqp_types::{NoMemory, Payload};
use std::alloc::Global;
use std::marker::Model;

/// A method of a class other than 10 and 20, with its arguments as octets. It is kept as the
/// payload of its frame.
#[derive(Debug, Drop)]
pub struct RawMethod {
    payload: Payload,
}

impl Model for RawMethod {
    ghost use Rattle.std.specs.Prelude.{◌≡◌, ◌≢◌, ◌≤◌, length};
    ghost use Rattle.amqp_frame.specs.RawMethods.{OtherMethod, spell_raw_method, raw_method_of};

    ghost Value = { OtherMethod };

    ghost view = { λ m. raw_method_of m.payload };

    ghost invariant = { λ m. ((raw_method_of m.payload).class ≢ 10) × ((raw_method_of m.payload).class ≢ 20)
        × (4 ≤ length m.payload) × (m.payload ≡ spell_raw_method (raw_method_of m.payload)) };
}

impl RawMethod {
    /// The method `method` of the class `class`, whose arguments are copied once.
    pub fn new(alloc: Global, class: u16, method: u16, args: &[u8]) -> Result<RawMethod, NoMemory>
        requires connection { class ≢ 10 }
        requires channel { class ≢ 20 }
        ensures { IfOk result (λ m. m ≡ record { class = class; method = method; arguments = args.now }) }
    {
        let mut payload = Vec::with_capacity(alloc, args.len().saturating_add(4))?;
        payload.extend_from_slice(&class.to_be_bytes())?;
        payload.extend_from_slice(&method.to_be_bytes())?;
        payload.extend_from_slice(args)?;
        Ok(RawMethod {
            payload: Payload::from_vec(payload),
        })
    }

    /// The number of its class, neither 10 nor 20.
    pub fn class_id(&self) -> u16
        ensures class { result ≡ self.now.class }
        ensures connection { result ≢ 10 }
        ensures channel { result ≢ 20 }
    {
        let octets = self.payload.as_bytes();
        u16::from_be_bytes([octets[0], octets[1]])
    }

    /// Its number in its class.
    pub fn method_id(&self) -> u16
        ensures { result ≡ self.now.method }
    {
        let octets = self.payload.as_bytes();
        u16::from_be_bytes([octets[2], octets[3]])
    }

    /// Its arguments, unread.
    pub fn args(&self) -> &[u8]
        ensures { result.now ≡ self.now.arguments }
    {
        &self.payload.as_bytes()[4..]
    }

    /// The payload of its frame: class, method and arguments.
    pub fn payload(&self) -> &Payload
        ensures payload { result.now ≡ spell_raw_method self.now }
        ensures passed_through { IsOtherMethod result.now }
    {
        // Read for their ranges alone, by which the clauses are shown.
        let _numbers = (self.class_id(), self.method_id());
        &self.payload
    }

    /// The payload of its frame, which is moved out.
    pub fn into_payload(self) -> Payload
        ensures payload { result ≡ spell_raw_method self }
        ensures passed_through { IsOtherMethod result }
    {
        // Read for their ranges alone, by which the clauses are shown.
        let _numbers = (self.class_id(), self.method_id());
        self.payload
    }

    /// An equal method.
    pub fn try_clone(&self, alloc: Global) -> Result<RawMethod, NoMemory>
        ensures { IfOk result (λ m. m ≡ self.now) }
    {
        Ok(RawMethod {
            payload: self.payload.try_clone(alloc)?,
        })
    }
}

impl PartialEq for RawMethod {
    ghost eq = { λ x y. nat_eq x.class y.class
        && (nat_eq x.method y.method && pointwise nat_eq x.arguments y.arguments) };

    ghost laws = { Prim.search (comparing, rules) };

    fn eq(&self, other: &Self) -> bool
        ensures { IsTrue result ↔ (self.now ≡ other.now) }
    {
        self.class_id() == other.class_id()
            && self.method_id() == other.method_id()
            && self.args() == other.args()
    }
}

impl Eq for RawMethod {
    ghost laws = { Prim.search (comparing, rules) };
}
