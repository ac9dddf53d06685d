//! The properties of a content header.

ghost use Rattle.std.specs.Prelude.{◌≡◌, ◌<◌, ◌≤◌, ◌↔◌, IfOk, IfSome, IsNone, IsTrue, length, nat_eq};
ghost use Rattle.std.specs.Cmp.Lexicographic.{pointwise, nat_list_eq_equiv};
ghost use Rattle.std.specs.Cmp.{partial_equiv_from_equiv};

use amqp_types::{NoMemory, Payload};
use std::alloc::Global;
use std::marker::Model;

/// The property flags of a content header and the properties that they name, unread: at least the
/// two octets of the flags (AMQP 0-9-1, 4.2.6.1).
#[derive(Debug, Drop)]
pub struct Properties {
    octets: Payload,
}

impl Model for Properties {
    ghost use Rattle.std.specs.Prelude.{ℕ, List, ◌≤◌, length};

    ghost Value = { List ℕ };

    ghost view = { λ p. p.octets };

    ghost invariant = { λ p. 2 ≤ length p.octets };
}

impl Properties {
    /// The octets, where they are at least two.
    pub fn new(octets: Payload) -> Option<Properties>
        ensures some { IfSome result (λ p. p ≡ octets) }
        ensures none { IsNone result ↔ (length octets < 2) }
    {
        if octets.len() < 2 {
            return None;
        }
        Some(Properties { octets })
    }

    /// The octets.
    pub fn as_bytes(&self) -> &[u8]
        ensures octets { result.now ≡ self.now }
        ensures flags { 2 ≤ length self.now }
    {
        self.octets.as_bytes()
    }

    /// Equal properties.
    pub fn try_clone(&self, alloc: Global) -> Result<Properties, NoMemory>
        ensures { IfOk result (λ p. p ≡ self.now) }
    {
        Ok(Properties {
            octets: self.octets.try_clone(alloc)?,
        })
    }
}

impl PartialEq for Properties {
    ghost eq = { pointwise nat_eq };

    ghost laws = { partial_equiv_from_equiv nat_list_eq_equiv };

    fn eq(&self, other: &Self) -> bool
        ensures { IsTrue result ↔ (self.now ≡ other.now) }
    {
        self.as_bytes() == other.as_bytes()
    }
}

impl Eq for Properties {
    ghost laws = { nat_list_eq_equiv };
}
