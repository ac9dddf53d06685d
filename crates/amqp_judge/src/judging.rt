//! The verdict on a link whose octets come in pieces.

ghost use Rattle.std.specs.Prelude.{◌≡◌, ◌++◌, [], ℕ, List, IfOk, OnOk, Err, length};
ghost use Rattle.amqp_check.specs.Verdicts.{IsVerdict};

use crate::client::Client;
use crate::server::Server;
use crate::side::{Ending, Unjudged};
use amqp_check::{Finding, Verdict};
use amqp_types::NoMemory;
use std::alloc::Global;

/// What was taken of both sides of a link. It keeps no octets but those of a frame that is not all
/// there, and of what is no frame.
#[derive(Drop)]
pub struct Judging {
    client: Client,
    server: Server,
}

impl Judging {
    ghost use Rattle.amqp_judge.specs.Taken.{HasTakenSides, IsTooMuch};

    /// Nothing was taken.
    pub fn new(alloc: Global) -> Result<Judging, NoMemory>
        ensures { IfOk result (λ judging. HasTakenSides [] [] judging) }
    {
        let client = Client::new(alloc)?;
        Ok(Judging {
            client,
            server: Server::new(alloc),
        })
    }

    /// Takes further octets of the client. After an error it is not to be used any more.
    pub fn client(&mut self, alloc: Global, piece: &[u8]) -> Result<(), Unjudged>
        ensures taken { (client server : List ℕ) → HasTakenSides client server self.old
            → OnOk result (HasTakenSides (client ++ piece.now) server self.new) }
        ensures too_long { result ≡ Err Unjudged.TooLong → IsTooMuch self.old.client.side (length piece.now) }
    {
        self.client.take(alloc, piece)
    }

    /// Takes further octets of the server. After an error it is not to be used any more.
    pub fn server(&mut self, alloc: Global, piece: &[u8]) -> Result<(), Unjudged>
        ensures taken { (client server : List ℕ) → HasTakenSides client server self.old
            → OnOk result (HasTakenSides client (server ++ piece.now) self.new) }
        ensures too_long { result ≡ Err Unjudged.TooLong → IsTooMuch self.old.server.side (length piece.now) }
    {
        self.server.take(alloc, piece)
    }

    /// The verdict on the octets that were taken, however they were cut: that which `check` has.
    pub fn verdict(&self) -> Verdict
        ensures { (client server : List ℕ) → HasTakenSides client server self.now → IsVerdict client server result }
    {
        let (client, server) = (self.client.side(), self.server.side());
        match (client.ending(), server.ending(), self.client.illegal()) {
            (Ending::Bad, _, _) => Verdict::BadClient(client.place()),
            (Ending::Cut, _, _) => Verdict::CutClient(client.place()),
            (Ending::Whole, Ending::Bad, _) => Verdict::BadServer(server.place()),
            (Ending::Whole, Ending::Cut, _) => Verdict::CutServer(server.place()),
            (Ending::Whole, Ending::Whole, Some(frame)) => Verdict::Illegal(frame),
            (Ending::Whole, Ending::Whole, None) => {
                Verdict::Legal(self.client.frames(), self.server.frames())
            }
        }
    }

    /// The client's side.
    pub fn client_side(&self) -> &Client {
        &self.client
    }

    /// The server's side.
    pub fn server_side(&self) -> &Server {
        &self.server
    }

    /// The first frame that the client may not say.
    pub fn into_finding(self) -> Option<Finding> {
        let Judging { client, server } = self;
        drop(server);
        client.into_finding()
    }
}
