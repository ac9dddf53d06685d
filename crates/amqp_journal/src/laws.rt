//! What a journal says of its engine, as laws.

ghost use Rattle.std.specs.Prelude.{◌≡◌, ◌⊎◌, ◌<◌, ◌≤◌, ℕ, Option, Some, None, Err, IsSome, List, [], ◌∷◌, ◌++◌, true, false};
ghost use Rattle.amqp_promise.specs.declared.error.ErrorKind.{ErrorKind};
ghost use Rattle.amqp_commands.specs.declared.command.Cmd.{Cmd};
ghost use Rattle.amqp_rules.specs.Talk.{Talk, has_ended, end_of};
ghost use Rattle.amqp_rules.specs.Commands.{command};
ghost use Rattle.amqp_rules.specs.Answers.{answer_of, take_answer, take_event, take_frames};
ghost use Rattle.amqp_maps.specs.Listed.{at};
ghost use Rattle.amqp_rules.specs.Sound.{IsSound};
ghost use Rattle.amqp_engine.specs.Engine.{Engine, with_talk, starve_at};
ghost use Rattle.amqp_engine.specs.declared.port.Step.{Step};
ghost use Rattle.amqp_engine.specs.Turn.{IsApplied, asks, applied};
ghost use Rattle.amqp_journal.specs.declared.entry.Entry.{Entry};
ghost use Rattle.amqp_journal.specs.declared.entry.Entry.TheVariants as entry;
ghost use Rattle.amqp_journal.specs.declared.entry.Turn.{Turn as Taken};
ghost use Rattle.amqp_journal.specs.Left.{IsOrdered, IsLeft, IsGone};
ghost use Rattle.amqp_journal.specs.Journal.{turn_in, cut_before, stands_for, AllMay, StandsSince, WasTaken, EndsBy};

/// The engine stands where its journal leads from the base, less what was taken since: it does at the
/// beginning, and through whatever happens to it; and it is its own base, with an empty journal.
pub fn the_journal_is_kept()
    ensures new { (base : Engine) → IsOrdered base.talk → StandsSince base [] (asks base) }
    ensures called { (base x : Engine) (js : List Entry) (pass nth : ℕ) (c : Cmd) (promise : Option ℕ)
        → IsSound base.talk → StandsSince base js x
        → StandsSince base (js ++ entry.Called pass nth c promise ∷ []) (with_talk (command c) x) }
    ensures own { (base x : Engine) (js : List Entry) (c : Cmd) → IsSound base.talk → StandsSince base js x
        → StandsSince base (js ++ entry.Own c ∷ []) (with_talk (command c) x) }
    ensures turn { (base x : Engine) (js : List Entry) (u : Taken) → IsSound base.talk → StandsSince base js x
        → StandsSince base (js ++ entry.Turn u ∷ []) (asks (applied (turn_in u) x)) }
    ensures answer { (base x : Engine) (js : List Entry) (n : ℕ) → StandsSince base js x
        → StandsSince base js (with_talk (take_answer n) x) }
    ensures frames { (base x : Engine) (js : List Entry) (n : ℕ) → StandsSince base js x
        → StandsSince base js (with_talk (take_frames n) x) }
    ensures event { (base x : Engine) (js : List Entry) → StandsSince base js x
        → StandsSince base js (with_talk take_event x) }
    ensures settled { (base x : Engine) (js : List Entry) → StandsSince base js x → StandsSince x [] x }
{}

/// What stands there is sound where the base is, wants no link that it did not ask for, is of the same
/// address and options, and made no fewer promises; and a turn of it is one of what the journal stands
/// for, so that what holds of turns holds of a journal.
pub fn what_stands_there()
    ensures sound { (base x : Engine) (js : List Entry) → StandsSince base js x → IsSound base.talk → IsSound x.talk }
    ensures asked { (base x : Engine) (js : List Entry) → StandsSince base js x → asks x ≡ x }
    ensures config { (base x : Engine) (js : List Entry) → StandsSince base js x → x.talk.config ≡ base.talk.config }
    ensures grown { (base x : Engine) (js : List Entry) → StandsSince base js x → base.talk.made ≤ x.talk.made }
    ensures may { (base x : Engine) (js : List Entry) (u : Taken) → StandsSince base js x
        → IsApplied (turn_in u) x → IsApplied (turn_in u) (asks (stands_for js base)) }
{}

/// An answer that was not taken is that of the journal, and a promise that waits there waits, while the
/// session goes on.
pub fn answers_are_those_of_the_journal()
    ensures given { (n : ℕ) (f t : Talk) → IsLeft f t
        → (answer_of n t ≡ answer_of n f) ⊎ ((answer_of n t ≡ None) × IsSome (answer_of n f)) }
    ensures waits { (n : ℕ) (f t : Talk) → IsLeft f t → has_ended f ≡ false → at n f.promises ≡ Some None
        → at n t.promises ≡ Some None }
{}

/// A promise that was made and is gone had its answer taken: since the base, or it was gone there. So where
/// the session has ended, none is pending: each has its answer, or it was taken.
pub fn none_is_pending_after_the_end()
    ensures gone { (base x : Engine) (js : List Entry) (n : ℕ) → StandsSince base js x → IsGone n x.talk
        → WasTaken n base js x }
    ensures answered { (base x : Engine) (js : List Entry) (n : ℕ) → StandsSince base js x
        → has_ended x.talk ≡ true → n < x.talk.made → IsSome (answer_of n x.talk) ⊎ WasTaken n base js x }
{}

/// Where the session of what stands there ended with an error, and not before the base, a turn of the journal
/// brought that about, after which it stayed so.
pub fn an_end_was_brought_by_a_turn()
    ensures { (base x : Engine) (js : List Entry) (k : ErrorKind) → IsSound base.talk → StandsSince base js x
        → AllMay js base → has_ended base.talk ≡ false → end_of x.talk ≡ Some (Err k) → EndsBy k js base }
{}

/// A turn of which nothing was done, since memory for its entry was refused, ends the session at its
/// moment, whatever its step was, and does nothing else.
pub fn a_starved_turn_is_nothing_but_an_end()
    ensures { (at : ℕ) (step : Step) (e : Engine) → has_ended e.talk ≡ false
        → applied (turn_in (cut_before at step)) e ≡ starve_at at 0 e }
{}
