//! What the handles of a connection share.

ghost use Rattle.std.specs.Prelude.{◌≡◌, ◌≤◌, ◌+◌, Option, Some, None, true, false, IfOk, OnOk, OnErr};
ghost use Rattle.std.specs.Arc.{arc_value};
ghost use Rattle.std.specs.Fn.{FnOnceReturnsAtMut, CalledAtMut};
ghost use Rattle.amqp_rules.specs.Commands.{takes_promise};
ghost use Rattle.amqp_commands.specs.declared.command.Cmd.TheVariants.{OpenChannel};
ghost use Rattle.amqp_hub.specs.Guarded.{Guarded};
ghost use Rattle.amqp_hub.specs.Lending.{GoesOn};
ghost use Rattle.lapin_connection.specs.Commands.{Shows, Refuses};

use crate::changes::{Changes, Waits};
use crate::nudge::Nudge;
use crate::patience::Patience;
use amqp_engine::Port;
use amqp_hub::{DropMark, Ended, Hub, Pass, Receipt};
use amqp_locked::{Heard, Line, Locked, News};
use amqp_session::{AuthProvider, Cmd, Result};
use amqp_types::NoMemory;
use futures::task::Source;
use std::alloc::Global;
use std::snapshot::Snapshot;
use std::sync::{Arc, Condvar, CondvarTimeouts, Mutex, MutexGuard, Wait};
use std::time::{Clock, Duration};

// For so many microseconds callers gather before a turn.
const GATHERS: u64 = 50;

// In so many holds what waits to be taken is bounded after a turn, each of 64 events: no more than 341 come by the
// 4,096 octets of a piece.
const BOUNDS: usize = 6;

/// What the handles of a connection share: what lies under the lock, and beside it what wakes those who
/// wait for it.
#[derive(Drop)]
pub struct Shared {
    pub(crate) alloc: Global,
    pub(crate) source: Source,
    pub(crate) locked: Mutex<Locked>,
    changed: Changes,
    // where the loop sleeps while it lets callers gather
    gathered: Condvar,
    pub(crate) nudge: Nudge,
    // the hub as it was when the connection began, as contracts see it
    pub(crate) begun: Snapshot<Hub>,
    // once how many octets were entered the journal begins anew, if it does by itself
    pub(crate) settles_after: Option<u64>,
}

// Whether a command may answer what others wait for.
fn answers_others(cmd: &Cmd) -> bool {
    matches!(cmd, Cmd::CloseChannel(..) | Cmd::CloseConnection(..))
}

// Says by the mark of a channel that something was sent on it, where it was: in the hold that entered it.
fn say_sent(sender: Option<&DropMark>, told: &Result<(u64, Receipt, DropMark)>) {
    if let (Some(mark), Ok((number, _, _))) = (sender, told) {
        mark.say_sent(*number);
    }
}

impl Shared {
    /// What is shared, over what lies under the lock.
    pub fn new(
        alloc: Global,
        locked: Locked,
        begun: Snapshot<Hub>,
        nudge: Nudge,
        settles_after: Option<u64>,
    ) -> std::result::Result<Arc<Shared>, NoMemory>
        ensures settles { IfOk result (λ s. (arc_value s).settles_after ≡ settles_after) }
        ensures begun { IfOk result (λ s. (arc_value s).begun.value ≡ begun.value) }
    {
        let shared = Shared {
            alloc,
            source: Source::new(),
            locked: Mutex::new(locked),
            changed: Changes::new(),
            gathered: Condvar::new(),
            nudge,
            begun,
            settles_after,
        };
        Ok(Arc::new(alloc, shared)?)
    }

    /// Enters a command that makes no promise.
    pub fn command<R: Wait>(
        &self,
        rt: &R,
        pass: &mut Pass,
        cmd: Cmd,
    ) -> Result<(Option<u64>, Receipt)>
        requires { takes_promise cmd ≡ false }
        ensures made { OnOk result (pass.new.made ≡ pass.old.made + 1) }
        ensures number { pass.new.number ≡ pass.old.number }
        ensures same { OnErr result (pass.new ≡ pass.old) }
        ensures refused { Refuses pass.old result }
        ensures receipt { IfOk result (λ r. Shows pass.new cmd None r.1) }
    {
        let mut guard = self.locked.lock(rt);
        let told = guard.command(pass, cmd);
        self.show(&guard);
        let first = guard.nudge();
        let ended = guard.session().has_ended();
        drop(guard);
        self.nudge_if(first);
        self.tidy_if(rt, ended);
        told
    }

    /// Enters the command that opens a channel.
    pub fn open<R: Wait>(&self, rt: &R, pass: &mut Pass) -> Result<(u64, Receipt, DropMark)>
        ensures made { OnOk result (pass.new.made ≡ pass.old.made + 1) }
        ensures number { pass.new.number ≡ pass.old.number }
        ensures same { OnErr result (pass.new ≡ pass.old) }
        ensures refused { Refuses pass.old result }
        ensures receipt { IfOk result (λ r. Shows pass.new OpenChannel (Some r.0) r.1) }
    {
        let mut guard = self.locked.lock(rt);
        let told = guard.open(pass);
        self.show(&guard);
        let first = guard.nudge();
        let ended = guard.session().has_ended();
        drop(guard);
        self.nudge_if(first);
        self.tidy_if(rt, ended);
        told
    }

    /// Enters a command that makes a promise; where it sends something on a channel, that is said by the channel's
    /// mark. A close answers at once what others wait for, so these are woken.
    pub fn ask<R: Wait>(
        &self,
        rt: &R,
        pass: &mut Pass,
        cmd: Cmd,
        sender: Option<&DropMark>,
    ) -> Result<(u64, Receipt, DropMark)>
        requires { takes_promise cmd ≡ true }
        ensures made { OnOk result (pass.new.made ≡ pass.old.made + 1) }
        ensures number { pass.new.number ≡ pass.old.number }
        ensures same { OnErr result (pass.new ≡ pass.old) }
        ensures refused { Refuses pass.old result }
        ensures receipt { IfOk result (λ r. Shows pass.new cmd (Some r.0) r.1) }
    {
        let answers = answers_others(&cmd);
        let mut guard = self.locked.lock(rt);
        let told = guard.ask(pass, cmd);
        say_sent(sender, &told);
        self.show(&guard);
        let first = guard.nudge();
        let ended = guard.session().has_ended();
        if answers {
            self.wake(guard, News::for_all());
        } else {
            drop(guard);
        }
        self.nudge_if(first);
        self.tidy_if(rt, ended);
        told
    }

    // Nudges the loop, where that is still to be done once a hold has ended: within it the loop would find the
    // lock taken.
    fn nudge_if(&self, first: bool) {
        if first {
            self.nudge.wake();
        }
    }

    // Wakes those who wait for what there is something of, tasks in the hold of this guard and threads once it has
    // ended.
    fn wake(&self, mut guard: MutexGuard<'_, Locked>, news: News) {
        guard.wake(news);
        drop(guard);
        self.changed.wake(news);
    }

    // The port is shown how the session stands, where a command may have changed it.
    fn show(&self, locked: &Locked) {
        self.nudge.show(locked.session().state());
    }

    // Once the session has ended no turn comes any more. So whoever commanded then does what is done between
    // turns, in holds of its own: what nobody will take is let go, and the journal begins anew.
    fn tidy_if<R: Wait>(&self, rt: &R, ended: bool) {
        if ended {
            self.locked.lock(rt).tidy();
            self.settle(rt);
        }
    }

    // Lets the journal begin anew where that is worth while, in a hold of its own.
    fn settle<R: Wait>(&self, rt: &R) {
        if let Some(octets) = self.settles_after {
            self.locked.lock(rt).settle_when_due(octets);
        }
    }

    /// One turn: one hold of the lock. Then those who wait are woken for whom there is something, and the loop, where
    /// something is due about a mark. It says how the session ended, where it has.
    pub fn turn<P: Port, A: AuthProvider, R: Wait>(
        &self,
        rt: &R,
        heard: Heard<'_>,
        line: &mut Line<P>,
        provider: &mut A,
    ) -> Option<Ended>
        requires { A.can provider.old }
        ensures can { A.can provider.new }
        ensures faults { P.faults line.old.port ≤ P.faults line.new.port }
        ensures kept { P.kept line.new.port ≡ P.kept line.old.port }
        ensures never_falls { A.refusals provider.old ≤ A.refusals provider.new }
    {
        let mut guard = self.locked.lock(rt);
        let before = guard.counts();
        // Where memory is refused, the session has ended.
        let _ = guard.apply(heard, line, provider);
        let news = guard.news_since(before);
        self.nudge.show(guard.session().state());
        let ended = guard.ended();
        let first = ended.is_none() && guard.has_due() && guard.nudge();
        self.wake(guard, news);
        self.nudge_if(first);
        ended
    }

    /// Lets callers go on for a moment where they are ahead of the loop and none of them waits, so that its next turn
    /// writes more at once. Whoever begins to wait ends that.
    pub fn gather<R: Wait + Clock>(&self, rt: &R) {
        let mut guard = self.locked.lock(rt);
        if guard.begin_gathering() {
            let limit = Duration::from_micros(GATHERS);
            let mut guard = self.gathered.wait_timeout(rt, guard, limit).0;
            let _ = guard.end_gathering();
        }
    }

    // The loop goes on, where it lets callers gather.
    fn go_on(&self, guard: &mut Locked) {
        if guard.end_gathering() {
            self.gathered.notify_one();
        }
    }

    /// Sleeps until there may be something for those who wait for this.
    pub(crate) fn sleep<'a, R: Wait>(
        &'a self,
        rt: &R,
        mut guard: MutexGuard<'a, Locked>,
        waits: Waits,
    ) -> MutexGuard<'a, Locked> {
        self.go_on(&mut guard);
        if !waits.is_short() {
            return self.changed.of(waits).wait(rt, guard);
        }
        guard.begin_sleep();
        let mut guard = self.changed.of(waits).wait(rt, guard);
        guard.end_sleep();
        guard
    }

    /// The same, but no longer than so long.
    pub(crate) fn sleep_for<'a, R: Wait + Clock>(
        &'a self,
        rt: &R,
        mut guard: MutexGuard<'a, Locked>,
        waits: Waits,
        limit: Duration,
    ) -> MutexGuard<'a, Locked> {
        self.go_on(&mut guard);
        if !waits.is_short() {
            return self.changed.of(waits).wait_timeout(rt, guard, limit).0;
        }
        guard.begin_sleep();
        let mut guard = self.changed.of(waits).wait_timeout(rt, guard, limit).0;
        guard.end_sleep();
        guard
    }

    /// What a loop does between two turns, each in a hold of its own: what nobody will take is let go; where only
    /// so much may wait to be taken, the oldest goes of more; and the journal begins anew.
    pub fn rest<R: Wait>(&self, rt: &R) {
        let mut guard = self.locked.lock(rt);
        if guard.has_unasked() {
            guard.let_go();
        }
        let bounds = guard.is_to_bound();
        drop(guard);
        if bounds {
            for _ in 0..BOUNDS {
                self.locked.lock(rt).bound();
            }
        }
        self.settle(rt);
    }

    /// Lends the hub for one hold. Where something was entered then, all who wait are woken, and the loop.
    pub fn lend<R: Wait, T, F: FnOnce(&mut Hub) -> T>(&self, rt: &R, use_hub: F) -> T
        requires callable { F.IsAlwaysCallable use_hub }
        requires goes_on { (before after : Guarded) (given : T) → FnOnceReturnsAtMut F.FnOnce use_hub before given after
            → GoesOn before after }
        ensures { (before after : Guarded) × FnOnceReturnsAtMut F.FnOnce use_hub before result after
            × GoesOn before after }
    {
        let mut guard = self.locked.lock(rt);
        let before = guard.entries();
        let given = guard.lend(use_hub);
        let ended = guard.entries() != before && guard.session().has_ended();
        self.let_go_on(guard, before);
        self.tidy_if(rt, ended);
        given
    }

    /// Lends the hub for one hold after another until something was found there.
    pub fn look<R: Wait, T, F: FnMut(&mut Hub) -> Option<T>>(&self, rt: &R, mut look: F) -> T
        requires callable { F.IsAlwaysCallable look }
        requires goes_on { (looks looked : F) (before after : Guarded) (found : Option T)
            → CalledAtMut F.FnMut looks before found looked after → GoesOn before after }
        ensures { (before after : Guarded) × (looks looked : F)
            × CalledAtMut F.FnMut looks before (Some result) looked after × GoesOn before after }
    {
        let mut guard = self.locked.lock(rt);
        for _ in rt.forever() {
            let before = guard.entries();
            let found = guard.look_in(&mut look);
            if let Some(found) = found {
                self.let_go_on(guard, before);
                return found;
            }
            if guard.entries() == before {
                guard = self.sleep(rt, guard, Waits::Hub);
            } else {
                self.let_go_on(guard, before);
                guard = self.locked.lock(rt);
            }
        }
        unreachable!()
    }

    // Where there are other entries than before, wakes all who wait, and the loop.
    fn let_go_on(&self, mut guard: MutexGuard<'_, Locked>, before: usize) {
        if guard.entries() == before {
            return;
        }
        self.show(&guard);
        let first = guard.nudge();
        self.wake(guard, News::for_all());
        self.nudge_if(first);
    }

    /// Waits until the session has ended, and says how.
    pub fn wait_for_the_end<R: Wait>(&self, rt: &R) -> Ended {
        let mut guard = self.locked.lock(rt);
        for _ in rt.forever() {
            if let Some(ended) = guard.ended() {
                return ended;
            }
            guard = self.sleep(rt, guard, Waits::End);
        }
        unreachable!()
    }

    /// The same, but no longer than so long.
    pub fn wait_for_the_end_within<R: Wait + Clock>(
        &self,
        rt: &R,
        limit: Duration,
    ) -> Option<Ended> {
        let patience = Patience::of(rt, limit);
        let mut guard = self.locked.lock(rt);
        for _ in rt.forever() {
            let ended = guard.ended();
            if ended.is_some() {
                return ended;
            }
            drop(ended);
            let Some(left) = patience.left(rt) else {
                return None;
            };
            guard = self.sleep_for(rt, guard, Waits::End, left);
        }
        unreachable!()
    }
}
