//! Pools of channels.

ghost use Rattle.std.specs.Prelude.{◌≡◌, ◌≤◌, ◌<◌, ◌+◌, ◌^◌, ℕ, IsTrue, IsFalse, IfOk, IfErr, OnOk, OnErr, length, vec_len, vec_capacity};
ghost use Rattle.amqp_rules.specs.Answers.{answer_of};
ghost use Rattle.amqp_hub.specs.Entering.{with_engine};
ghost use Rattle.amqp_pool.specs.Pooled.{empty_pool, AreMade, above, opening_promises, times};
ghost use Rattle.amqp_pool.specs.Leasing.{AsksForOne, IsLeased, IsLeaseRefused, after_lease, hub_after_lease, made_after_lease, IsBack, after_back};
ghost use Rattle.amqp_pool.specs.Collecting.{collected, collected_count, TakesEach};
ghost use Rattle.amqp_pool.specs.Closing.{ClosesFrom, IsCloseRefused};

use crate::lease::{Back, Lease, Leased};
use crate::looking::{self, Seen};
use crate::{closing, collecting};
use amqp_hub::{Hub, Pass};
use amqp_session::{ChanRef, Cmd, Result};
use amqp_types::NoMemory;
use std::alloc::Global;
use std::marker::Model;

/// Channels of one connection, at most so many: idle ones, leased ones, and promises of those that are
/// opening. Each call with a hub is to be with the hub of that connection.
#[derive(Drop)]
pub struct Pool {
    limit: u16,
    idle: Vec<ChanRef>,
    leased: Vec<ChanRef>,
    opening: Vec<u64>,
}

impl Model for Pool {
    ghost use Rattle.amqp_pool.specs.Pooled.{Pooled};

    ghost Value = { Pooled };

    ghost use Rattle.std.specs.Prelude.{vec_capacity};
    ghost use Rattle.amqp_pool.specs.Pooled.{pooled, IsPool, HavePlaces};

    ghost view = { λ p. pooled p.limit p.idle.items p.leased.items p.opening.items };

    ghost invariant = { λ p. IsPool (pooled p.limit p.idle.items p.leased.items p.opening.items)
        × HavePlaces (pooled p.limit p.idle.items p.leased.items p.opening.items)
        (vec_capacity p.idle) (vec_capacity p.leased) };
}

impl Pool {
    /// A pool of at most so many channels, which has none. It takes no memory.
    pub fn new(alloc: Global, max: u16) -> Pool
        ensures { result ≡ empty_pool max }
    {
        Pool {
            limit: max,
            idle: Vec::new(alloc),
            leased: Vec::new(alloc),
            opening: Vec::new(alloc),
        }
    }

    /// Leases the first idle channel that is open. Where there is none, and the pool has fewer channels than
    /// it may, one is opened with the pass; else the pool is full. Idle channels that were lost are forgotten
    /// first. Once the session has ended, what is opened fails: the next `collect` finds that.
    ///
    /// Errors: `ForeignPass` where a channel is to be opened and the pass is of another hub, and `NoMemory`;
    /// pool, hub and pass are then as before.
    pub fn lease(&mut self, hub: &mut Hub, pass: &mut Pass) -> Result<Leased>
        requires made { AreMade self.old hub.old.engine.talk }
        ensures answer { IfOk result (λ l. IsLeased hub.old pass.old self.old l) }
        ensures pool { IfOk result (λ l. self.new ≡ after_lease hub.old.engine.talk l self.old) }
        ensures hub { IfOk result (λ l. hub.new ≡ hub_after_lease l pass.old hub.old) }
        ensures pass { IfOk result (λ l. pass.new.made ≡ made_after_lease l pass.old.made) }
        ensures number { pass.new.number ≡ pass.old.number }
        ensures refused { IfErr result (λ e. IsLeaseRefused hub.old pass.old self.old e) }
        ensures unchanged { OnErr result ((self.new ≡ self.old) × (hub.new ≡ hub.old) × (pass.new ≡ pass.old)) }
        ensures still_made { AreMade self.new hub.new.engine.talk }
        ensures promises { hub.old.engine.talk.made ≤ hub.new.engine.talk.made }
    {
        match looking::look(hub.session(), &self.idle) {
            Seen::Ready(channel) => {
                looking::sweep(hub.session(), &mut self.idle, Some(channel));
                self.leased.push_reserved(channel);
                Ok(Leased::Now(Lease { channel }))
            }
            Seen::Waiting(waiting) => {
                let count = waiting + self.leased.len() + self.opening.len();
                if count < self.limit as usize {
                    return self.open_one(hub, pass);
                }
                looking::sweep(hub.session(), &mut self.idle, None);
                Ok(Leased::Full(self.limit))
            }
        }
    }

    // Opens one channel more. The places for all later moves between the lists are made first.
    fn open_one(&mut self, hub: &mut Hub, pass: &mut Pass) -> Result<Leased>
        requires made { AreMade self.old hub.old.engine.talk }
        requires asks { AsksForOne hub.old.engine.talk self.old }
        ensures answer { IfOk result (λ l. IsLeased hub.old pass.old self.old l) }
        ensures pool { IfOk result (λ l. self.new ≡ after_lease hub.old.engine.talk l self.old) }
        ensures hub { IfOk result (λ l. hub.new ≡ hub_after_lease l pass.old hub.old) }
        ensures pass { IfOk result (λ l. pass.new.made ≡ made_after_lease l pass.old.made) }
        ensures number { pass.new.number ≡ pass.old.number }
        ensures refused { IfErr result (λ e. IsLeaseRefused hub.old pass.old self.old e) }
        ensures unchanged { OnErr result ((self.new ≡ self.old) × (hub.new ≡ hub.old) × (pass.new ≡ pass.old)) }
        ensures still_made { AreMade self.new hub.new.engine.talk }
        ensures promises { hub.old.engine.talk.made ≤ hub.new.engine.talk.made }
    {
        reserve_places(&mut self.idle, &mut self.leased, &mut self.opening)?;
        let (promise, receipt) = hub.command(pass, Cmd::OpenChannel)?;
        drop(receipt);
        looking::sweep(hub.session(), &mut self.idle, None);
        match promise {
            Some(number) => {
                self.opening.push_reserved(number);
                Ok(Leased::Opening(number))
            }
            None => unreachable!(),
        }
    }

    /// Takes the answers to what was opened, in order, and tells how many there were. Where a channel is open
    /// it goes last among the idle; with any other answer nothing is left of it. It takes no memory. A promise
    /// whose answer another call took stays for ever.
    pub fn collect(&mut self, hub: &mut Hub) -> u64
        requires made { AreMade self.old hub.old.engine.talk }
        ensures count { result ≡ collected_count hub.old.engine.talk self.old }
        ensures pool { self.new ≡ collected hub.old.engine.talk self.old }
        ensures polled { TakesEach self.old.opening hub.old.engine.talk hub.new.engine.talk }
        ensures rest { hub.new ≡ with_engine (record hub.old.engine { talk = hub.new.engine.talk }) hub.old }
        ensures others { (n : ℕ) → times n self.old.opening ≡ 0
            → answer_of n hub.new.engine.talk ≡ answer_of n hub.old.engine.talk }
        ensures still_made { AreMade self.new hub.new.engine.talk }
        ensures promises { hub.new.engine.talk.made ≡ hub.old.engine.talk.made }
    {
        collecting::collect_each(&mut self.idle, &mut self.opening, hub) as u64
    }

    /// Takes a channel back that was leased from this pool. Where it was lost it is forgotten, and else it
    /// goes last among the idle. The lease of a channel that is not leased from here is handed back. It takes
    /// no memory.
    pub fn give_back(&mut self, lease: Lease, hub: &Hub) -> Back
        requires made { AreMade self.old hub.now.engine.talk }
        ensures back { IsBack hub.now.engine.talk lease self.old result }
        ensures pool { self.new ≡ after_back result lease self.old }
        ensures still_made { AreMade self.new hub.now.engine.talk }
    {
        let channel = lease.channel();
        match looking::place_of(&self.leased, channel) {
            None => Back::Foreign(lease),
            Some(place) => {
                lease.give_up();
                self.leased.remove(place);
                if looking::is_lost(hub.session(), channel) {
                    return Back::Lost;
                }
                self.idle.push_reserved(channel);
                Back::Kept
            }
        }
    }

    /// Closes the idle channels, the last first, and forgets them: with Ok none is left. Those that are leased stay
    /// so, and what is opening: once they are given back or collected, another call closes them. A channel that is
    /// not open is forgotten and not closed.
    ///
    /// Errors: `ForeignPass` where the pass is of another hub, and `NoMemory`; what was not closed then stays idle.
    pub fn close(&mut self, hub: &mut Hub, pass: &mut Pass) -> Result<()>
        requires made { AreMade self.old hub.old.engine.talk }
        ensures closed { (left : ℕ) × ClosesFrom left self.old.idle self.new.idle hub.old hub.new pass.old pass.new }
        ensures none { OnOk result (length self.new.idle ≡ 0) }
        ensures rest { (self.new.limit ≡ self.old.limit) × (self.new.leased ≡ self.old.leased)
            × (self.new.opening ≡ self.old.opening) }
        ensures refused { IfErr result (λ e. IsCloseRefused hub.new pass.new e) }
        ensures still_made { AreMade self.new hub.new.engine.talk }
        ensures promises { hub.old.engine.talk.made ≤ hub.new.engine.talk.made }
    {
        closing::close_each(&mut self.idle, hub, pass)
    }

    /// Whether this hub made as many promises as the channels of the pool name: the condition of each call
    /// with a hub. It is for a hub that is lent, of which nothing else is known, and looks at each channel
    /// once.
    pub fn fits(&self, hub: &Hub) -> bool
        ensures yes { IsTrue result → AreMade self.now hub.now.engine.talk }
        ensures no { IsFalse result → hub.now.engine.talk.made < above (opening_promises self.now) }
    {
        let made = hub.session().promises();
        if !looking::are_opened_below(&self.idle, made) {
            return false;
        }
        if !looking::are_opened_below(&self.leased, made) {
            return false;
        }
        looking::are_below(&self.opening, made)
    }

    /// How many channels are idle, are leased, and are opening.
    pub fn counts(&self) -> (u64, u64, u64)
        ensures { result ≡ (length self.now.idle, length self.now.leased, length self.now.opening) }
    {
        (
            self.idle.len() as u64,
            self.leased.len() as u64,
            self.opening.len() as u64,
        )
    }
}

// Places for all channels of the three lists, and one more.
fn reserve_places(
    idle: &mut Vec<ChanRef>,
    leased: &mut Vec<ChanRef>,
    opening: &mut Vec<u64>,
) -> std::result::Result<(), NoMemory>
    requires few { vec_len idle.old + vec_len leased.old + vec_len opening.old < 2 ^ 16 }
    ensures items { (idle.new.items ≡ idle.old.items) × (leased.new.items ≡ leased.old.items)
        × (opening.new.items ≡ opening.old.items) }
    ensures idle { vec_capacity idle.old ≤ vec_capacity idle.new }
    ensures leased { vec_capacity leased.old ≤ vec_capacity leased.new }
    ensures places { OnOk result (
        (vec_len idle.old + vec_len leased.old + vec_len opening.old + 1 ≤ vec_capacity idle.new)
        × (vec_len idle.old + vec_len leased.old + vec_len opening.old + 1 ≤ vec_capacity leased.new)
        × (vec_len opening.new + 1 ≤ vec_capacity opening.new)) }
{
    let (ready, taken, waiting) = (idle.len(), leased.len(), opening.len());
    idle.reserve(taken + waiting + 1)?;
    leased.reserve(ready + waiting + 1)?;
    opening.reserve(1)?;
    Ok(())
}
