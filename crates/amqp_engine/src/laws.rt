//! What holds of all turns.

ghost use Rattle.std.specs.Prelude.{◌≡◌, ℕ, ◌+◌, [], false, true, List, Option, Some, Ok, Err, map};
ghost use Rattle.std.specs.List.{AllByRecursion};
ghost use Rattle.amqp_auth.specs.declared.asked.Asked.{Asked};
ghost use Rattle.amqp_promise.specs.declared.error.ErrorKind.{ErrorKind};
ghost use Rattle.amqp_answers.specs.declared.answer.Answer.TheVariants.{Connected};
ghost use Rattle.amqp_maps.specs.Listed.{at};
ghost use Rattle.amqp_rules.specs.Talk.{Talk, is_open, end_of, has_ended};
ghost use Rattle.amqp_uri.specs.declared.uri.AMQPUri.{AMQPUri};
ghost use Rattle.amqp_settings.specs.Config.{Options, config_of};
ghost use Rattle.amqp_written_rules.specs.Sayable.{CanBeSaid};
ghost use Rattle.amqp_engine.specs.Built.{IsSayableAddress, AreBuilt};
ghost use Rattle.amqp_engine.specs.declared.given.Given.{Given};
ghost use Rattle.amqp_engine.specs.Log.{Log, loaded};
ghost use Rattle.amqp_engine.specs.Engine.{Engine, begin};
ghost use Rattle.amqp_engine.specs.Turn.{Turn, turn, turns, talk, IsTurn, AreTurns, AreTold, AreFit};
ghost use Rattle.amqp_engine.specs.Causes.{IsCaused};
ghost use Rattle.amqp_engine.specs.Tell.{Runs, PlaysTurns, log_turns};
ghost use Rattle.amqp_engine.specs.Play.{replayed, AreAnswered};
ghost use Rattle.amqp_engine.specs.Sending.{Sending, sendings, sendings_from, link_bytes, SendsInOrder};
ghost use Rattle.amqp_engine.specs.Saying.{TellsLinks, AreGivenTold, SentLegal, CommittedLegal, CommittedAgreed, CommittedWritable, CommittedWithin, IsReadBack, HoldsRest, SpellLegal};
ghost use Rattle.amqp_engine.specs.Unread.{IsRead};
ghost use Rattle.amqp_engine.specs.Carried.{Carried};
ghost use Rattle.amqp_engine.specs.Account.{IsNew, History, add_turns, HasHistory, account, history_of};
ghost use Rattle.amqp_engine.specs.Valid.{Valid};

/// A run that may take no turn, and one of a session that had ended, take no step and write
/// nothing.
pub fn a_run_without_turns_touches_nothing()
    ensures allowed { (e e' : Engine) (log log' : Option Log) → Runs 0 e e' log log'
        → (e' ≡ e) × (log' ≡ log) }
    ensures ended { (allowed : ℕ) (e e' : Engine) (log log' : Option Log) → has_ended e.talk ≡ true
        → Runs allowed e e' log log'
        → (e' ≡ e) × (log' ≡ log) }
{}

/// A run that follows one that took all its turns goes on: both together are one run.
pub fn a_run_goes_on()
    ensures { (m n : ℕ) (first middle last : Engine) (before between after : Option Log)
        → Runs m first middle before between → has_ended middle.talk ≡ false → Runs n middle last between after
        → Runs (m + n) first last before after }
{}

/// The turns of a script are turns of a new engine over a port that plays the script, where what they
/// ask is answered. So what holds of all turns holds of these.
pub fn a_script_has_its_turns()
    ensures turns { (t : Talk) (gs : List Given) (answers : List Asked)
        → AreAnswered (replayed t gs answers) (begin t)
        → AreTurns (replayed t gs answers) (begin t) }
    ensures plays { (t : Talk) (gs : List Given) (answers : List Asked)
        → PlaysTurns (replayed t gs answers) (begin t) (loaded gs) }
{}

/// What a port tells of its links, which told of those of an engine before some turns, are the bytes of the
/// frames that were committed on each, as many as were taken: the spellings of the frames that were sent, in
/// order, and then a part of the next one. While a link is open, the bytes that the engine holds unsent are
/// what is left of the spellings of all that was committed on it. What is sent by turns goes on with what the
/// history of the engine has.
pub fn a_link_has_the_frames_sent()
    ensures sent { (e : Engine) (h : History) (us : List Turn)
        → (add_turns us e h).sent ≡ sendings_from us e h.sent }
    ensures told { (e : Engine) (h : History) (us : List Turn) (log : Log) → HasHistory e h → AreTurns us e
        → TellsLinks e h.sent log
        → (log_turns us e log).links ≡ map link_bytes (sendings_from us e h.sent) }
    ensures order { (e : Engine) (h : History) (us : List Turn) → HasHistory e h → AreTurns us e
        → AllByRecursion SendsInOrder (sendings_from us e h.sent) }
    ensures unsent { (e : Engine) (h : History) → HasHistory e h → is_open e.talk ≡ true → HoldsRest e h.sent }
{}

/// While a link is open, no turn leaves a whole frame unread.
pub fn nothing_whole_is_left_unread()
    ensures begin { (t : Talk) → IsRead (begin t) }
    ensures turn { (u : Turn) (e : Engine) → IsRead e → IsTurn u e → IsRead (turn u e) }
{}

/// What is said on each link is a legal conversation: the frames that were sent, and also with those
/// that were committed and not yet sent, through the turns of an engine that was new, what it was
/// told and what was taken of it between them.
pub fn conversations_are_legal()
    ensures sent { (e : Engine) (h : History) → HasHistory e h → AllByRecursion SentLegal h.sent }
    ensures committed { (e : Engine) (h : History) → HasHistory e h → AllByRecursion CommittedLegal h.sent }
    ensures turns { (e : Engine) (h : History) (us : List Turn) → HasHistory e h → AreTurns us e → AreTold us
        → AllByRecursion SentLegal (sendings_from us e h.sent) }
    ensures script { (t : Talk) (h : History) (gs : List Given) (answers : List Asked) → HasHistory (begin t) h
        → AreGivenTold gs → AreAnswered (replayed t gs answers) (begin t)
        → AllByRecursion SentLegal (sendings_from (replayed t gs answers) (begin t) h.sent) }
{}

/// What is committed on each link keeps the numbers of its own tune-ok: no frame is on a channel above
/// channel-max, and no body frame is longer than frame-max.
pub fn agreed_numbers_are_kept()
    ensures committed { (e : Engine) (h : History) → HasHistory e h → AllByRecursion CommittedAgreed h.sent }
    ensures turns { (t : Talk) (us : List Turn) → IsNew t → AreTurns us (begin t)
        → AllByRecursion CommittedAgreed (sendings t us) }
{}

/// What an engine is made from can be said: an address, which `IoLoop::new` has from its types, and what is
/// said of the client by one call of `ConnectionProperties` after another.
pub fn what_is_built_can_be_said()
    ensures { (uri : AMQPUri) (options : Options) → IsSayableAddress uri → AreBuilt options
        → CanBeSaid (config_of uri options) }
{}

/// What is committed on each link can be written, where what the session is made from can be said.
pub fn what_is_said_can_be_written()
    ensures committed { (e : Engine) (h : History) → HasHistory e h → CanBeSaid e.talk.config
        → AllByRecursion CommittedWritable h.sent }
    ensures turns { (t : Talk) (us : List Turn) → IsNew t → CanBeSaid t.config → AreTurns us (begin t)
        → AreTold us → AreFit us → AllByRecursion CommittedWritable (sendings t us) }
{}

/// Whoever reads a link, one frame after another, gets exactly the frames that were sent, where what was
/// committed can be written and is within the reader's limit, or the limit is the greatest. So it is of
/// all links of an engine.
pub fn what_is_said_is_read_back()
    ensures link { (limit : ℕ) (s : Sending) → SendsInOrder s → CommittedWritable s → CommittedWithin limit s
        → IsReadBack limit s }
    ensures any { (s : Sending) → SendsInOrder s → CommittedWritable s → IsReadBack 4294967295 s }
    ensures committed { (limit : ℕ) (e : Engine) (h : History) → HasHistory e h → CanBeSaid e.talk.config
        → AllByRecursion (CommittedWithin limit) h.sent → AllByRecursion (IsReadBack limit) h.sent }
    ensures greatest { (e : Engine) (h : History) → HasHistory e h → CanBeSaid e.talk.config
        → AllByRecursion (IsReadBack 4294967295) h.sent }
{}

/// What a port tells of the links of an engine that was new spells what the engine said on them, through
/// its turns: legal conversations that keep the agreed numbers and can be written.
pub fn the_links_spell_what_is_said()
    ensures { (t : Talk) (us : List Turn) (log : Log) → IsNew t → TellsLinks (begin t) [] log
        → CanBeSaid t.config → AreTurns us (begin t) → AreTold us → AreFit us
        → SpellLegal (sendings t us) (log_turns us (begin t) log).links }
{}

/// No send and no publish is torn, swapped or sent twice, and nothing is handed out that did not come:
/// so through the turns of an engine that was new, what it was told and what was taken of it between
/// them.
pub fn what_is_told_is_carried()
    ensures history { (e : Engine) (h : History) → HasHistory e h → Carried (account e.talk h) }
    ensures turns { (t : Talk) (us : List Turn) → IsNew t → AreTurns us (begin t) → AreTold us
        → Carried (account (talk t us) (history_of t us)) }
{}

/// An end with an error has its cause in the last turn, also where the answer of a run does not tell of
/// it, as at the end of a script.
pub fn an_end_has_its_cause()
    ensures { (us : List Turn) (e : Engine) (k : ErrorKind) → has_ended e.talk ≡ false → AreTurns us e
        → end_of (turns us e).talk ≡ Some (Err k) → IsCaused k us e }
{}

/// A script of a faultless server opens the connection and leaves the session Closed.
pub fn a_valid_script_ends_closed()
    ensures opened { (t : Talk) (gs : List Given) (answers : List Asked) → IsNew t
        → AreAnswered (replayed t gs answers) (begin t) → Valid t gs answers
        → at 0 (talk t (replayed t gs answers)).promises ≡ Some (Some (Ok Connected)) }
    ensures closed { (t : Talk) (gs : List Given) (answers : List Asked) → IsNew t
        → AreAnswered (replayed t gs answers) (begin t) → Valid t gs answers
        → end_of (talk t (replayed t gs answers)) ≡ Some (Ok tt) }
{}
