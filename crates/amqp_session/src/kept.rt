//! The state of a session that stands still.

ghost use Rattle.std.specs.Prelude.{◌≡◌, IfOk};

use crate::session::Session;
use amqp_types::NoMemory;
use std::marker::Model;

/// The state of a session, kept as it was: it is read as that of a session, and nothing can be told to it.
#[derive(Debug, Drop)]
pub struct Kept {
    session: Session,
}

impl Model for Kept {
    ghost use Rattle.amqp_rules.specs.Talk.{Talk};

    ghost Value = { Talk };

    ghost use Rattle.std.specs.Coded.{codes};
    ghost use Rattle.amqp_types.specs.ValueCode.{value_code};

    ghost coded = { Prim.hlevel (codes, value_code) };

    ghost view = { λ k. k.session };
}

impl Kept {
    /// This session stands still from now on.
    pub fn of(session: Session) -> Kept
        ensures { result ≡ session }
    {
        Kept { session }
    }

    /// The session as it stood.
    pub fn session(&self) -> &Session
        ensures { result.now ≡ self.now }
    {
        &self.session
    }

    /// An equal state.
    pub fn try_clone(&self) -> Result<Kept, NoMemory>
        ensures { IfOk result (λ kept. kept ≡ self.now) }
    {
        Ok(Kept {
            session: self.session.snapshot()?,
        })
    }
}
