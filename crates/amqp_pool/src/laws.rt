//! What holds of a pool over any calls with one hub, as a law.

ghost use Rattle.std.specs.Prelude.{◌≡◌, ◌≢◌, ◌≤◌, ◌<◌, ℕ, List, ◌∷◌, ◌++◌, length, Contains};
ghost use Rattle.std.specs.List.{AllByRecursion};
ghost use Rattle.amqp_promise.specs.declared.state.ChannelState.TheVariants.{Connected};
ghost use Rattle.amqp_commands.specs.declared.command.ChanRef.{ChanRef};
ghost use Rattle.amqp_rules.specs.Talk.{Talk};
ghost use Rattle.amqp_rules.specs.Queries.{channel_state};
ghost use Rattle.amqp_hub.specs.Guarded.{Guarded};
ghost use Rattle.amqp_pool.specs.Pooled.{Pooled, AreMade, empty_pool, opening_promises, opened_by, times, AreDifferent};
ghost use Rattle.amqp_pool.specs.Moments.{Moment, FollowEachOther, handed_out_by, found_lost};

/// Over any calls of a new pool and of its hub, one after another: the pool never has more channels than its
/// limit, and all have different opening promises; each channel that is handed out is open at that moment;
/// and once a channel was found lost, the promise that opened it is in no list and the channel is not leased
/// again.
pub fn a_lost_channel_stays_lost()
    ensures few { (limit : ℕ) (h : Guarded) (ms : List Moment) → FollowEachOther (empty_pool limit) h ms
        → AllByRecursion (λ m. length (opening_promises m.next_pool) ≤ limit) ms }
    ensures different { (limit : ℕ) (h : Guarded) (ms : List Moment) → FollowEachOther (empty_pool limit) h ms
        → AllByRecursion (λ m. AreDifferent (opening_promises m.next_pool)) ms }
    ensures ready { (limit : ℕ) (h : Guarded) (ms : List Moment) → FollowEachOther (empty_pool limit) h ms
        → AllByRecursion (λ m. AllByRecursion (λ r. channel_state r m.hub.engine.talk ≡ Connected)
        (handed_out_by m.call)) ms }
    ensures lost { (limit : ℕ) (h : Guarded) (before : List Moment) (m : Moment) (later : List Moment) (r : ChanRef)
        → FollowEachOther (empty_pool limit) h (before ++ m ∷ later)
        → Contains (found_lost m.call m.hub.engine.talk m.pool) r
        → AllByRecursion (λ l. times (opened_by r) (opening_promises l.next_pool) ≡ 0) (m ∷ later) }
    ensures never_again { (limit : ℕ) (h : Guarded) (before : List Moment) (m : Moment) (later : List Moment)
        (r : ChanRef) → FollowEachOther (empty_pool limit) h (before ++ m ∷ later)
        → Contains (found_lost m.call m.hub.engine.talk m.pool) r
        → AllByRecursion (λ l. AllByRecursion (λ s. s ≢ r) (handed_out_by l.call)) later }
{}

/// The condition of each call with a hub says of each opening promise of the pool that it is below the
/// session's next. So it stays while only the session goes on.
pub fn promises_of_a_pool_are_below()
    ensures below { (p : Pooled) (t : Talk) → AreMade p t
        → AllByRecursion (λ n. n < t.made) (opening_promises p) }
    ensures stays { (p : Pooled) (before after : Talk) → AreMade p before → before.made ≤ after.made
        → AreMade p after }
{}
