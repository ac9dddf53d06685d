//! The last error that was set.

ghost use Rattle.std.specs.Prelude.{◌≡◌, None, Some};
ghost use Rattle.amqp_promise.specs.Checks.{Checks};

use crate::{Error, Result};
use std::alloc::Global;
use std::marker::Model;

/// The last error that was set, kept once.
#[derive(Debug, Drop)]
pub struct ErrorHolder {
    error: Option<Error>,
}

impl Model for ErrorHolder {
    ghost use Rattle.std.specs.Prelude.{Option};
    ghost use Rattle.amqp_promise.specs.declared.error.ErrorKind.{ErrorKind};

    ghost Value = { Option ErrorKind };

    ghost view = { λ holder. holder.error };
}

impl ErrorHolder {
    /// No error was set.
    pub fn new() -> ErrorHolder
        ensures { result ≡ None }
    {
        ErrorHolder { error: None }
    }

    /// Sets an error in place of the last one.
    pub fn set(&mut self, error: Error)
        ensures { self.new ≡ Some error }
    {
        self.error = Some(error);
    }

    /// A copy of the last error that was set, as an error; `NoMemory` in its place, where memory
    /// for the copy was refused.
    pub fn check(&self, alloc: Global) -> Result<()>
        ensures { Checks self.now result }
    {
        match &self.error {
            None => Ok(()),
            Some(error) => Err(error.try_clone(alloc)?),
        }
    }
}
