//! Tokens by two closures.

ghost use Rattle.std.specs.Prelude.{◌≡◌, None};

use crate::asked::{Refusal, refused};
use crate::tokens::TokenProvider;
use amqp_types::LongString;
use std::alloc::Global;
use std::fmt;

/// Makes tokens by a closure, keeps the last one, and asks another closure how long it is valid. Its
/// `Debug` shows nothing of them.
#[derive(Drop)]
pub struct DefaultTokenProvider<VF, CT> {
    alloc: Global,
    valid_for: VF,
    create_token: CT,
    last: Option<LongString>,
    refusals: u64,
}

impl<VF, CT> fmt::Debug for DefaultTokenProvider<VF, CT> {
    ghost use Rattle.std.specs.Prelude.{Some, codes};

    ghost debug_output = { λ _. Some (codes "DefaultTokenProvider { .. }") };

    fn fmt<W: fmt::Write>(&self, f: &mut fmt::Formatter<W>) -> fmt::Result {
        f.write_str("DefaultTokenProvider { .. }")
    }
}

impl<
    VF: Fn(&LongString) -> Option<u64> + Send + Sync + Drop,
    CT: Fn() -> Result<LongString, Refusal> + Send + Sync + Drop,
> DefaultTokenProvider<VF, CT> {
    /// By a closure that says for how many milliseconds a token is valid, and one that makes tokens.
    /// There is no token yet.
    pub fn new(alloc: Global, valid_for: VF, create_token: CT) -> DefaultTokenProvider<VF, CT>
        ensures valid_for { result.valid_for ≡ valid_for }
        ensures create_token { result.create_token ≡ create_token }
        ensures last { result.last ≡ None }
        ensures refusals { result.refusals ≡ 0 }
    {
        DefaultTokenProvider {
            alloc,
            valid_for,
            create_token,
            last: None,
            refusals: 0,
        }
    }
}

impl<
    VF: Fn(&LongString) -> Option<u64> + Send + Sync + Drop,
    CT: Fn() -> Result<LongString, Refusal> + Send + Sync + Drop,
> TokenProvider for DefaultTokenProvider<VF, CT> {
    ghost use Rattle.std.specs.Fn.{FnReturnsAt};
    ghost use Rattle.amqp_auth.specs.Tokens.{ByClosures};

    ghost can = { λ p. VF.IsAlwaysCallable p.valid_for × CT.IsAlwaysCallable p.create_token };

    ghost refusals = { λ p. p.refusals };

    ghost allows = { λ p. ByClosures
        (λ token time. FnReturnsAt VF.Fn p.valid_for token time)
        (λ answer. CT.post p.create_token answer)
        p.last };

    fn valid_for(&self) -> Option<u64> {
        match &self.last {
            Some(token) => (self.valid_for)(token),
            None => None,
        }
    }

    fn create_token(&mut self) -> Result<LongString, Refusal> {
        match (self.create_token)() {
            Ok(token) => {
                self.last = Some(token.try_clone(self.alloc)?);
                Ok(token)
            }
            Err(Refusal::Said(text)) => Err(refused(&mut self.refusals, text)),
            Err(Refusal::NoMemory) => Err(Refusal::NoMemory),
        }
    }
}
