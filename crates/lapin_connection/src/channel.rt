//! Channels.

ghost use Rattle.std.specs.Prelude.{◌≡◌, ◌+◌, Some, true, IfOk, IfErr, IsOk, OnOk, OnErr};
ghost use Rattle.amqp_rules.specs.Commands.{takes_promise};
ghost use Rattle.amqp_commands.specs.declared.command.Cmd.TheVariants.{CloseChannel, Flow, Send, Publish};
ghost use Rattle.lapin_connection.specs.Commands.{HasReceipt, Refuses};
ghost use Rattle.lapin_connection.specs.Handles.{reference_of, channel_source, pending_source, recovery_source};

use crate::pending::{Gives, Pending};
use crate::recovery::Recovery;
use crate::shared::Shared;
use crate::status::ChannelStatus;
use amqp_frame::RawMethod;
use amqp_hub::{DropMark, Pass};
use amqp_locked::Taken;
use amqp_session::{ChanRef, Cmd, Error, ErrorKind, Handed, Properties, Result};
use amqp_types::{ChannelId, NoMemory, Payload, ReplyCode, ShortString};
use std::sync::{Arc, Wait};

/// A channel. Any number of threads share it by reference. Where it is dropped, it is closed once what was sent on it
/// has gone out, and what it was handed is let go.
pub struct Channel {
    pub(crate) shared: Arc<Shared>,
    id: ChannelId,
    pub(crate) opened: u64,
    mark: DropMark,
}

// The loop is told that there is something to do.
impl Drop for Channel {
    fn drop(self) {
        let Channel {
            shared,
            id: _,
            opened: _,
            mark,
        } = self;
        drop(mark);
        shared.nudge.wake();
        drop(shared);
    }
}

impl PartialEq for Channel {
    ghost use Rattle.std.specs.Prelude.{◌==◌};
    ghost use Rattle.std.proofs.Common.{rules};
    ghost use Rattle.std.specs.Cmp.Rules.{comparing};
    ghost use Rattle.std.specs.Ordering.{on};

    ghost eq = { on (λ c. c.id) ◌==◌ };

    ghost laws = { Prim.search (comparing, rules) };

    fn eq(&self, other: &Channel) -> bool {
        self.id == other.id
    }
}

impl Channel {
    // A channel that is to be opened, by this promise.
    pub(crate) fn to_open(shared: Arc<Shared>, mark: DropMark, opened: u64) -> Channel
        ensures opened { result.opened ≡ opened }
        ensures shared { result.shared ≡ shared }
    {
        Channel {
            shared,
            id: 0,
            opened,
            mark,
        }
    }

    // The same, which has this number and was opened by this promise.
    pub(crate) fn named(self, id: ChannelId, opened: u64) -> Channel
        ensures { result ≡ record self { id = id; opened = opened } }
    {
        let Channel {
            shared,
            id: _,
            opened: _,
            mark,
        } = self;
        Channel {
            shared,
            id,
            opened,
            mark,
        }
    }

    /// Its number.
    pub fn id(&self) -> ChannelId
        ensures { result ≡ self.now.id }
    {
        self.id
    }

    // Its number, with the promise that opened it.
    pub(crate) fn name(&self) -> ChanRef
        ensures { result ≡ reference_of self.now }
    {
        ChanRef {
            id: self.id,
            opened: Some(self.opened),
        }
    }

    /// A handle on its state.
    pub fn status(&self) -> std::result::Result<ChannelStatus, NoMemory>
        ensures { IfOk result (λ s. s.channel ≡ reference_of self.now) }
    {
        let shared = Arc::try_clone(&self.shared)?;
        Ok(ChannelStatus::of(shared, self.name()))
    }

    // Enters a command, whose answer is to come.
    fn tell<T: Gives, R: Wait>(&self, rt: &R, pass: &mut Pass, cmd: Cmd) -> Result<Pending<T>>
        requires { takes_promise cmd ≡ true }
        ensures made { OnOk result (pass.new.made ≡ pass.old.made + 1) }
        ensures number { pass.new.number ≡ pass.old.number }
        ensures same { OnErr result (pass.new ≡ pass.old) }
        ensures refused { Refuses pass.old result }
        ensures receipt { IfOk result (λ p. HasReceipt pass.new cmd (Some p.number) p.receipt) }
        ensures one_connection { IfOk result (λ p. pending_source p ≡ channel_source self.now) }
    {
        crate::connection::tell(rt, &self.shared, pass, cmd, None)
    }

    // Enters a command that sends something, whose answer is to come.
    fn send<R: Wait>(&self, rt: &R, pass: &mut Pass, cmd: Cmd) -> Result<Pending<()>>
        requires { takes_promise cmd ≡ true }
        ensures made { OnOk result (pass.new.made ≡ pass.old.made + 1) }
        ensures number { pass.new.number ≡ pass.old.number }
        ensures same { OnErr result (pass.new ≡ pass.old) }
        ensures refused { Refuses pass.old result }
        ensures receipt { IfOk result (λ p. HasReceipt pass.new cmd (Some p.number) p.receipt) }
        ensures one_connection { IfOk result (λ p. pending_source p ≡ channel_source self.now) }
    {
        crate::connection::tell(rt, &self.shared, pass, cmd, Some(&self.mark))
    }

    // How many promises had been made once the last thing was sent on it, 0 where none was.
    pub(crate) fn sent_made(&self) -> u64 {
        self.mark.sent()
    }

    /// Closes it, with a reply code and a text.
    pub fn close<R: Wait>(
        &self,
        rt: &R,
        pass: &mut Pass,
        reply_code: ReplyCode,
        reply_text: ShortString,
    ) -> Result<Pending<()>>
        ensures made { OnOk result (pass.new.made ≡ pass.old.made + 1) }
        ensures number { pass.new.number ≡ pass.old.number }
        ensures same { OnErr result (pass.new ≡ pass.old) }
        ensures refused { Refuses pass.old result }
        ensures receipt { IfOk result (λ p. HasReceipt pass.new
            (CloseChannel (reference_of self.now) reply_code reply_text) (Some p.number) p.receipt) }
        ensures one_connection { IfOk result (λ p. pending_source p ≡ channel_source self.now) }
    {
        self.tell(
            rt,
            pass,
            Cmd::CloseChannel(self.name(), reply_code, reply_text),
        )
    }

    /// Tells the server to start or to stop sending content; the server answers which it does.
    pub fn channel_flow<R: Wait>(
        &self,
        rt: &R,
        pass: &mut Pass,
        active: bool,
    ) -> Result<Pending<bool>>
        ensures made { OnOk result (pass.new.made ≡ pass.old.made + 1) }
        ensures number { pass.new.number ≡ pass.old.number }
        ensures same { OnErr result (pass.new ≡ pass.old) }
        ensures refused { Refuses pass.old result }
        ensures receipt { IfOk result (λ p. HasReceipt pass.new
            (Flow (reference_of self.now) active) (Some p.number) p.receipt) }
        ensures one_connection { IfOk result (λ p. pending_source p ≡ channel_source self.now) }
    {
        self.tell(rt, pass, Cmd::Flow(self.name(), active))
    }

    /// Sends a method.
    pub fn send_raw<R: Wait>(
        &self,
        rt: &R,
        pass: &mut Pass,
        method: RawMethod,
    ) -> Result<Pending<()>>
        ensures made { OnOk result (pass.new.made ≡ pass.old.made + 1) }
        ensures number { pass.new.number ≡ pass.old.number }
        ensures same { OnErr result (pass.new ≡ pass.old) }
        ensures refused { Refuses pass.old result }
        ensures receipt { IfOk result (λ p. HasReceipt pass.new
            (Send (reference_of self.now) method) (Some p.number) p.receipt) }
        ensures one_connection { IfOk result (λ p. pending_source p ≡ channel_source self.now) }
    {
        self.send(rt, pass, Cmd::Send(self.name(), method))
    }

    /// Publishes with a method: the properties of the content header, and the body. The answer is that all
    /// of it was given to the port; it says nothing of the server.
    pub fn publish_raw<R: Wait>(
        &self,
        rt: &R,
        pass: &mut Pass,
        method: RawMethod,
        properties: Properties,
        body: Payload,
    ) -> Result<Pending<()>>
        ensures made { OnOk result (pass.new.made ≡ pass.old.made + 1) }
        ensures number { pass.new.number ≡ pass.old.number }
        ensures same { OnErr result (pass.new ≡ pass.old) }
        ensures refused { Refuses pass.old result }
        ensures receipt { IfOk result (λ p. HasReceipt pass.new
            (Publish (reference_of self.now) method properties body) (Some p.number) p.receipt) }
        ensures one_connection { IfOk result (λ p. pending_source p ≡ channel_source self.now) }
    {
        self.send(
            rt,
            pass,
            Cmd::Publish(self.name(), method, properties, body),
        )
    }

    /// Takes the frames that were handed out, in order, as many as were not yet taken.
    pub fn take_frames<R: Wait>(&self, rt: &R) -> Result<Vec<Handed>>
        ensures takes_no_memory { IsOk result }
    {
        let taken = self.shared.locked.lock(rt).take_frames(self.opened);
        Ok(self.handed(taken))
    }

    /// How many of its frames went that nobody took, where only so many may wait.
    pub fn frames_gone<R: Wait>(&self, rt: &R) -> u64 {
        self.shared.locked.lock(rt).frames_gone(self.opened)
    }

    // The frames that were taken, which are its own.
    pub(crate) fn handed(&self, taken: Taken) -> Vec<Handed>
        requires { taken.opened ≡ self.now.opened }
        ensures { result ≡ taken.frames }
    {
        taken.frames()
    }

    /// Whether the channel may go on after this error.
    pub fn wait_for_recovery(&self, error: Error) -> Result<Recovery>
        ensures channel { IfOk result (λ r. r.channel ≡ reference_of self.now) }
        ensures error { IfOk result (λ r. r.error ≡ error) }
        ensures one_connection { IfOk result (λ r. recovery_source r ≡ channel_source self.now) }
        ensures only { IfErr result (λ e. e ≡ ErrorKind.NoMemory) }
    {
        match Arc::try_clone(&self.shared) {
            Ok(shared) => Ok(Recovery::of(shared, self.name(), error)),
            Err(_refused) => {
                drop(error);
                Err(ErrorKind::NoMemory.into())
            }
        }
    }
}
