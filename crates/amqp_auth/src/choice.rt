//! Who answers for a client: who its options name, or else its address.

ghost use Rattle.std.specs.Prelude.{◌≡◌, IfOk};
ghost use Rattle.amqp_uri.specs.declared.uri.AMQPUri.{AMQPUri};

use crate::default_provider::DefaultAuthProvider;
use crate::provider::AuthProvider;
use amqp_types::NoMemory;
use amqp_uri::AMQPUri;
use std::alloc::Global;
use std::fmt;

/// Which provider answers for a client. Where its options hold none, that is `()`, the one of its
/// address answers; where they hold a `HandedProvider`, the one in it. So what connects takes either by
/// one type parameter.
pub trait ProviderChoice: Drop {
    /// Who answers.
    type Provider: AuthProvider;

    /// The closures that it stores, if there are any, may be called.
    ghost can: { Self → Type 0 };

    /// The provider that is chosen for an address.
    ghost chosen: { Self → AMQPUri → Self.Provider → Type 0 };

    /// The provider that answers on a connection to this address.
    fn provider(self, alloc: Global, uri: &AMQPUri) -> Result<Self::Provider, NoMemory>
        requires { can self }
        ensures chosen { IfOk result (λ provider. chosen self uri.now provider) }
        ensures can { IfOk result (λ provider. Self.Provider.can provider) };
}

impl ProviderChoice for () {
    type Provider = DefaultAuthProvider;

    ghost use Rattle.std.specs.Prelude.{◌≡◌, ⊤};
    ghost use Rattle.amqp_auth.specs.DefaultAnswers.{default_of};

    ghost can = { λ _. ⊤ };

    ghost chosen = { λ _ uri provider. provider ≡ default_of uri };

    fn provider(self, alloc: Global, uri: &AMQPUri) -> Result<DefaultAuthProvider, NoMemory> {
        DefaultAuthProvider::new(alloc, uri)
    }
}

/// A provider that was handed to a client. Its `Debug` shows nothing of it.
#[derive(Drop)]
pub struct HandedProvider<A> {
    provider: A,
}

impl<A> fmt::Debug for HandedProvider<A> {
    ghost use Rattle.std.specs.Prelude.{Some, codes};

    ghost debug_output = { λ _. Some (codes "HandedProvider { .. }") };

    fn fmt<W: fmt::Write>(&self, f: &mut fmt::Formatter<W>) -> fmt::Result {
        f.write_str("HandedProvider { .. }")
    }
}

impl<A> HandedProvider<A> {
    /// This provider is handed over.
    pub fn new(provider: A) -> HandedProvider<A>
        ensures { result.provider ≡ provider }
    {
        HandedProvider { provider }
    }

    /// The provider that was handed over.
    pub fn into_provider(self) -> A
        ensures { result ≡ self.provider }
    {
        self.provider
    }
}

impl<A: AuthProvider> ProviderChoice for HandedProvider<A> {
    type Provider = A;

    ghost use Rattle.std.specs.Prelude.{◌≡◌};

    ghost can = { λ handed. A.can handed.provider };

    ghost chosen = { λ handed _ provider. provider ≡ handed.provider };

    fn provider(self, _alloc: Global, _uri: &AMQPUri) -> Result<A, NoMemory> {
        Ok(self.provider)
    }
}
