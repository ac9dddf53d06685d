//! Connections.

ghost use Rattle.std.specs.Prelude.{◌≡◌, ◌≤◌, ◌+◌, Option, Some, None, true, IfOk, IfErr, OnOk, OnErr, All, map};
ghost use Rattle.std.specs.Arc.{arc_value};
ghost use Rattle.std.specs.Fn.{FnOnceReturnsAtMut, CalledAtMut};
ghost use Rattle.amqp_rules.specs.Commands.{takes_promise};
ghost use Rattle.amqp_commands.specs.declared.command.Cmd.TheVariants.{OpenChannel, CloseConnection, UpdateSecret, Listen};
ghost use Rattle.amqp_hub.specs.Guarded.{Guarded};
ghost use Rattle.amqp_hub.specs.Lending.{GoesOn};
ghost use Rattle.amqp_hub.specs.Passes.{made_of, places, gapless};
ghost use Rattle.lapin_connection.specs.Commands.{Shows, HasReceipt, Refuses, RefusesOneOf, AreNumberedOn};
ghost use Rattle.lapin_connection.specs.Handles.{connection_source, pending_source, listener_source, settling_of, engine_begun};

use crate::channel::Channel;
use crate::listener::EventsListener;
use crate::live::ThreadHandle;
use crate::nudge::Nudge;
use crate::pending::{Gives, Pending};
use crate::shared::Shared;
use crate::status::ConnectionStatus;
use crate::upkeep::Upkeep;
use amqp_hub::{Base, DropMark, Entry, Hub, Pass, Tally};
use amqp_locked::Locked;
use amqp_session::{Cmd, Configuration, ErrorKind, Result};
use amqp_types::{LongString, NoMemory, ReplyCode, ShortString};
use std::alloc::Global;
use std::snapshot::Snapshot;
use std::sync::{Arc, Wait};

/// A connection. Any number of threads share it by reference. Where it is dropped, it is closed once no
/// channel is listed.
pub struct Connection {
    pub(crate) shared: Arc<Shared>,
    mark: DropMark,
}

// The loop is told that there is something to do.
impl Drop for Connection {
    fn drop(self) {
        let Connection { shared, mark } = self;
        drop(mark);
        shared.nudge.wake();
        drop(shared);
    }
}

/// Enters a command, and gives what waits for its answer. Where it sends something, that is said by the mark of its
/// channel.
pub fn tell<T: Gives, R: Wait>(
    rt: &R,
    shared: &Arc<Shared>,
    pass: &mut Pass,
    cmd: Cmd,
    sender: Option<&DropMark>,
) -> Result<Pending<T>>
    requires { takes_promise cmd ≡ true }
    ensures made { OnOk result (pass.new.made ≡ pass.old.made + 1) }
    ensures number { pass.new.number ≡ pass.old.number }
    ensures same { OnErr result (pass.new ≡ pass.old) }
    ensures refused { Refuses pass.old result }
    ensures receipt { IfOk result (λ p. HasReceipt pass.new cmd (Some p.number) p.receipt) }
    ensures one_connection { IfOk result (λ p. pending_source p ≡ (arc_value shared.now).source.id) }
{
    let theirs = match Arc::try_clone(shared) {
        Ok(theirs) => theirs,
        Err(_refused) => {
            drop(cmd);
            return Err(ErrorKind::NoMemory.into());
        }
    };
    match shared.ask(rt, pass, cmd, sender) {
        Ok((number, receipt, mark)) => Ok(Pending::of(
            theirs,
            number,
            Some(receipt),
            Some(mark),
            None,
        )),
        Err(refused) => {
            drop(theirs);
            Err(refused)
        }
    }
}

impl Connection {
    // A connection of this hub, whose loop is to be started.
    pub(crate) fn over(alloc: Global, hub: Hub, nudge: Nudge, upkeep: Upkeep) -> Result<Connection>
        ensures settles { IfOk result (λ c. settling_of c ≡ upkeep.settles_after) }
        ensures begun { IfOk result (λ c. engine_begun c ≡ hub.engine) }
        ensures only { IfErr result (λ e. e ≡ ErrorKind.NoMemory) }
    {
        let begun = Snapshot::of(&hub);
        let (locked, mark) = Locked::new(alloc, hub)?;
        let locked = upkeep.of_lock(locked);
        let shared = Shared::new(alloc, locked, begun, nudge, upkeep.settles_after)?;
        Ok(Connection { shared, mark })
    }

    // Another owner of what is shared.
    pub(crate) fn share(&self) -> std::result::Result<Arc<Shared>, NoMemory>
        ensures { IfOk result (λ s. arc_value s ≡ arc_value self.now.shared) }
    {
        Ok(Arc::try_clone(&self.shared)?)
    }

    /// What waits until the connection is open. It is given once, whoever asks: ask for the status after
    /// that.
    pub fn opened(&self) -> std::result::Result<Pending<()>, NoMemory>
        ensures opening { IfOk result (λ p. (p.number ≡ 0) × (p.receipt ≡ None)) }
        ensures one_connection { IfOk result (λ p. pending_source p ≡ connection_source self.now) }
    {
        Ok(Pending::of(self.share()?, 0, None, None, None))
    }

    /// New passes, with which callers command: as many as the lesser of this count and of the numbers that
    /// are left.
    pub fn passes<R: Wait>(&self, rt: &R, count: u32) -> Result<Vec<Pass>>
        ensures passes { IfOk result (λ passes. AreNumberedOn count passes.items) }
        ensures only { IfErr result (λ e. e ≡ ErrorKind.NoMemory) }
    {
        self.shared.locked.lock(rt).passes(count)
    }

    /// One new pass. Once no number is left, the answer is `NoMemory`.
    pub fn pass<R: Wait>(&self, rt: &R) -> Result<Pass>
        ensures pass { IfOk result (λ p. (1 ≤ p.number) × (p.made ≡ 0)) }
        ensures only { IfErr result (λ e. e ≡ ErrorKind.NoMemory) }
    {
        let mut passes = self.passes(rt, 1)?;
        match passes.pop() {
            Some(pass) => Ok(pass),
            None => Err(ErrorKind::NoMemory.into()),
        }
    }

    /// Opens a channel. All that it needs is made first.
    pub fn create_channel<R: Wait>(&self, rt: &R, pass: &mut Pass) -> Result<Pending<Channel>>
        ensures made { OnOk result (pass.new.made ≡ pass.old.made + 1) }
        ensures number { pass.new.number ≡ pass.old.number }
        ensures same { OnErr result (pass.new ≡ pass.old) }
        ensures refused { Refuses pass.old result }
        ensures receipt { IfOk result (λ p. HasReceipt pass.new OpenChannel (Some p.number) p.receipt) }
        ensures one_connection { IfOk result (λ p. pending_source p ≡ connection_source self.now) }
    {
        let theirs = self.share()?;
        let channels = self.share()?;
        let (number, receipt, mark) = self.shared.open(rt, pass)?;
        let channel = Channel::to_open(channels, mark, number);
        Ok(Pending::of(theirs, number, Some(receipt), None, Some(channel)))
    }

    /// Closes the connection, with a reply code and a text.
    pub fn close<R: Wait>(
        &self,
        rt: &R,
        pass: &mut Pass,
        reply_code: ReplyCode,
        reply_text: ShortString,
    ) -> Result<Pending<()>>
        ensures made { OnOk result (pass.new.made ≡ pass.old.made + 1) }
        ensures number { pass.new.number ≡ pass.old.number }
        ensures same { OnErr result (pass.new ≡ pass.old) }
        ensures refused { Refuses pass.old result }
        ensures receipt { IfOk result (λ p. HasReceipt pass.new
            (CloseConnection reply_code reply_text) (Some p.number) p.receipt) }
        ensures one_connection { IfOk result (λ p. pending_source p ≡ connection_source self.now) }
    {
        tell(
            rt,
            &self.shared,
            pass,
            Cmd::CloseConnection(reply_code, reply_text),
            None,
        )
    }

    /// Tells the server a new secret, for a reason.
    pub fn update_secret<R: Wait>(
        &self,
        rt: &R,
        pass: &mut Pass,
        new_secret: LongString,
        reason: ShortString,
    ) -> Result<Pending<()>>
        ensures made { OnOk result (pass.new.made ≡ pass.old.made + 1) }
        ensures number { pass.new.number ≡ pass.old.number }
        ensures same { OnErr result (pass.new ≡ pass.old) }
        ensures refused { Refuses pass.old result }
        ensures receipt { IfOk result (λ p. HasReceipt pass.new
            (UpdateSecret new_secret reason) (Some p.number) p.receipt) }
        ensures one_connection { IfOk result (λ p. pending_source p ≡ connection_source self.now) }
    {
        tell(
            rt,
            &self.shared,
            pass,
            Cmd::UpdateSecret(new_secret, reason),
            None,
        )
    }

    /// Keeps events from now on, and gives a handle on them.
    pub fn events_listener<R: Wait>(&self, rt: &R, pass: &mut Pass) -> Result<EventsListener>
        ensures made { OnOk result (pass.new.made ≡ pass.old.made + 1) }
        ensures number { pass.new.number ≡ pass.old.number }
        ensures same { OnErr result (pass.new ≡ pass.old) }
        ensures refused { Refuses pass.old result }
        ensures receipt { IfOk result (λ l. Shows pass.new Listen None l.receipt) }
        ensures one_connection { IfOk result (λ l. listener_source l ≡ connection_source self.now) }
    {
        let theirs = self.share()?;
        let (_no_promise, receipt) = self.shared.command(rt, pass, Cmd::Listen)?;
        Ok(EventsListener::of(theirs, receipt))
    }

    /// The numbers of the connection.
    pub fn configuration<R: Wait>(&self, rt: &R) -> Configuration {
        self.shared.locked.lock(rt).session().configuration()
    }

    /// How many events went that nobody took, where only so many may wait.
    pub fn events_gone<R: Wait>(&self, rt: &R) -> u64 {
        self.shared.locked.lock(rt).events_gone()
    }

    /// A handle on its state.
    pub fn status(&self) -> std::result::Result<ConnectionStatus, NoMemory> {
        Ok(ConnectionStatus::of(self.share()?))
    }

    /// A copy of the journal since its base. The loop stands still while it is made.
    pub fn journal<R: Wait>(&self, rt: &R) -> Result<Vec<Entry>>
        ensures only { IfErr result (λ e. e ≡ ErrorKind.NoMemory) }
    {
        self.shared.locked.lock(rt).journal()
    }

    /// A copy of the base of the journal. The loop stands still while it is made.
    pub fn base<R: Wait>(&self, rt: &R) -> Result<Base>
        ensures only { IfErr result (λ e. e ≡ ErrorKind.NoMemory) }
    {
        self.shared.locked.lock(rt).base()
    }

    /// Lets the journal begin anew where the engine stands, and gives how many entries were let go. The
    /// loop stands still meanwhile.
    pub fn settle<R: Wait>(&self, rt: &R) -> Result<u64>
        ensures only { IfErr result (λ e. e ≡ ErrorKind.NoMemory) }
    {
        self.shared.locked.lock(rt).settle()
    }

    /// How many commands were made with each of these passes.
    pub fn tally<R: Wait>(&self, rt: &R, passes: &[Pass]) -> Result<Tally>
        ensures counts { IfOk result (λ t. t.counts.items ≡ map (λ p. p.made) passes.now) }
        ensures places { IfOk result (λ t. All (λ p. places p.number t.journal.value.items
            ≡ gapless (made_of p.number t.base.value.made) p.made) passes.now) }
        ensures refused { RefusesOneOf passes.now result }
    {
        self.shared.locked.lock(rt).tally(passes)
    }

    /// Lends the hub for one hold of the lock, and gives what it was used for. That goes on with it, as its calls for
    /// commands and for what is taken do, and `settle`: it applies no turn, and puts no other hub in its place. It
    /// calls nothing of this connection. A channel that is opened by the hub has no
    /// handle: nothing closes it but a command, and while it is listed no drop closes the connection.
    pub fn with_hub<R: Wait, T, F: FnOnce(&mut Hub) -> T>(&self, rt: &R, use_hub: F) -> T
        requires callable { F.IsAlwaysCallable use_hub }
        requires goes_on { (before after : Guarded) (given : T) → FnOnceReturnsAtMut F.FnOnce use_hub before given after
            → GoesOn before after }
        ensures { (before after : Guarded) × FnOnceReturnsAtMut F.FnOnce use_hub before result after
            × GoesOn before after }
    {
        self.shared.lend(rt, use_hub)
    }

    /// Lends the hub for one hold of the lock after another, as `with_hub` does, until something was found there, and
    /// gives that. Between two holds it sleeps until there may be something new: an answer, frames, an event, the
    /// state of a channel or of the connection, room, or what another hold of `with_hub` entered. Where a hold
    /// entered something and found nothing, the next one follows at once.
    pub fn wait_with_hub<R: Wait, T, F: FnMut(&mut Hub) -> Option<T>>(&self, rt: &R, look: F) -> T
        requires callable { F.IsAlwaysCallable look }
        requires goes_on { (looks looked : F) (before after : Guarded) (found : Option T)
            → CalledAtMut F.FnMut looks before found looked after → GoesOn before after }
        ensures { (before after : Guarded) × (looks looked : F)
            × CalledAtMut F.FnMut looks before (Some result) looked after × GoesOn before after }
    {
        self.shared.look(rt, look)
    }

    /// What waits for the end of the connection.
    pub fn thread_handle(&self) -> std::result::Result<ThreadHandle, NoMemory> {
        Ok(ThreadHandle::of(self.share()?))
    }

    /// Lets the connection go, and waits for its end. It is closed once no channel is listed: who keeps a
    /// channel in this thread waits for ever.
    pub fn run<R: Wait>(self, rt: &R) -> Result<()> {
        let Connection { shared, mark } = self;
        drop(mark);
        shared.nudge.wake();
        shared.wait_for_the_end(rt).result()
    }
}
