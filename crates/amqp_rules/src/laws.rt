//! What the rules keep.

ghost use Rattle.std.specs.Prelude.{◌≡◌, ◌≢◌, ◌<◌, ◌≤◌, ◌↔◌, ℕ, ◌+◌, ◌++◌, ◌∷◌, [], List, length, Result, Some, None, Ok, Err, IsTrue, IsFalse, Contains};
ghost use Rattle.amqp_frame.specs.declared.frame.Frame.{Frame};
ghost use Rattle.amqp_frame.specs.Frames.{encoding};
ghost use Rattle.amqp_outbox.specs.declared.item.Item.{Item};
ghost use Rattle.amqp_commands.specs.declared.command.Cmd.{Cmd};
ghost use Rattle.amqp_commands.specs.declared.command.Cmd.TheVariants.{Listen};
ghost use Rattle.amqp_settings.specs.declared.configuration.Configuration.{Configuration};
ghost use Rattle.amqp_promise.specs.declared.error.ErrorKind.{ErrorKind};
ghost use Rattle.amqp_promise.specs.declared.error.ErrorKind.TheVariants.{InvalidConnectionState, IOError, MissingHeartbeatError, OutboxFull};
ghost use Rattle.amqp_answers.specs.declared.answer.Answer.{Answer};
ghost use Rattle.amqp_answers.specs.declared.answer.Answer.TheVariants as answers;
ghost use Rattle.amqp_promise.specs.declared.io_fault.IoFault.{IoFault};
ghost use Rattle.amqp_violations.specs.declared.misread.Misread.{Misread};
ghost use Rattle.amqp_promise.specs.declared.state.ConnectionState.TheVariants.{Connected, Reconnecting};
ghost use Rattle.amqp_auth.specs.declared.asked.Question.TheVariants.{Refresh};
ghost use Rattle.amqp_auth.specs.declared.asked.Asked.{Asked};
ghost use Rattle.amqp_settings.specs.Config.{Config};
ghost use Rattle.amqp_rules.specs.Talk.{Talk, start, acts, has_ended, is_open, end_of};
ghost use Rattle.amqp_settings.specs.Negotiation.{tune};
ghost use Rattle.amqp_rules.specs.Recovery.{recovery_delay};
ghost use Rattle.amqp_rules.specs.Changes.{fail, lose, note};
ghost use Rattle.amqp_rules.specs.Frames.{on_frame};
ghost use Rattle.amqp_rules.specs.Commands.{command, takes_promise};
ghost use Rattle.amqp_maps.specs.Listed.{at};
ghost use Rattle.amqp_rules.specs.Links.{misread, lost};
ghost use Rattle.amqp_violations.specs.Violations.{misread_error};
ghost use Rattle.amqp_rules.specs.Ticks.{is_missed, tick, tick_questions};
ghost use Rattle.amqp_rules.specs.Secrets.{HasExpired, KeepsSecret};
ghost use Rattle.amqp_rules.specs.Writing.{next_within, commit, taken, unsent};
ghost use Rattle.amqp_answers.specs.declared.event.Event.{Event};
ghost use Rattle.amqp_answers.specs.declared.event.Event.TheVariants as told;
ghost use Rattle.amqp_rules.specs.Answers.{answer_of, take_answer, events_of, event_of, take_event};
ghost use Rattle.amqp_rules.specs.Causes.{IsFrameError};
ghost use Rattle.amqp_rules.specs.Sound.{IsSound};
ghost use Rattle.amqp_channels.specs.Openings.{opener};
ghost use Rattle.amqp_rules.specs.Laws.{IsEnded, IsOver, StaysSound, IsRefused, IsAnsweredAtOnce, IsRefusal, IsOutboxFull};

/// Negotiation leaves a channel to open, and frames of at least 4,096 octets.
pub fn negotiation_leaves_room()
    ensures channels { (own server : Configuration) → 1 ≤ (tune own server).channel_max }
    ensures frames { (own server : Configuration) → 4096 ≤ (tune own server).frame_max }
{}

/// A command out of the state Connected is refused, and a refused command changes nothing but the
/// promises, and the cursor where every number is listed. One that lets a channel or the connection go
/// takes no promise, and does nothing then.
pub fn a_refusal_changes_promises_alone()
    ensures state { (cmd : Cmd) (t : Talk) → t.state ≢ Connected → IsTrue (takes_promise cmd)
        → IsRefused (InvalidConnectionState t.state) t (command cmd t) }
    ensures alone { (cmd : Cmd) (t : Talk) (e : ErrorKind) → IsTrue (takes_promise cmd)
        → IsAnsweredAtOnce e t (command cmd t) → IsRefusal e t (command cmd t) }
    ensures dropped { (cmd : Cmd) (t : Talk) → t.state ≢ Connected → IsFalse (takes_promise cmd) → cmd ≢ Listen
        → command cmd t ≡ t }
{}

/// A command is refused because too much would wait exactly where it sends or publishes while the
/// connection and its channel are open, each of its frames fits the capacity, a limit was set, and more
/// octets than that would wait with its frames: those of both lanes, of what is left of the group that
/// has begun, and of its frames. The error names that number.
pub fn an_outbox_is_full_above_its_limit()
    ensures { (octets : ℕ) (cmd : Cmd) (t : Talk) → IsTrue (takes_promise cmd)
        → IsAnsweredAtOnce (OutboxFull octets) t (command cmd t) ↔ IsOutboxFull octets cmd t }
{}

/// A session is in a sound state at the beginning, and each rule leads from a sound state to one; so
/// one that has ended is Closed or in Error.
pub fn states_stay_sound()
    ensures first { (config : Config) → IsSound (start config) }
    ensures kept { (t : Talk) → IsSound t → StaysSound t }
    ensures ended { (t : Talk) → IsSound t → IsTrue (has_ended t) → IsEnded t }
{}

/// Where frames act, a frame ends a session exactly with an error that it brings, with what the provider
/// answers to what it asks, and from which the session does not recover. By each error that it brings the
/// link is lost, and a frame after which the session waits for another link, as it did not before, brings
/// one.
pub fn a_frame_ends_with_its_errors()
    ensures ends { (error : ErrorKind) (f : Frame) (answers : List Asked) (t : Talk) → IsTrue (acts t)
        → (end_of (on_frame f answers t) ≡ Some (Err error))
        ↔ (IsFrameError error f answers t × (recovery_delay error t ≡ None)) }
    ensures lost { (error : ErrorKind) (f : Frame) (answers : List Asked) (t : Talk) → IsTrue (acts t)
        → IsFrameError error f answers t → on_frame f answers t ≡ lose error t }
    ensures recovered { (f : Frame) (answers : List Asked) (t : Talk) → IsTrue (acts t)
        → t.state ≢ Reconnecting → (on_frame f answers t).state ≡ Reconnecting
        → (error : ErrorKind) × IsFrameError error f answers t }
{}

/// What is no frame, the end of the input, a fault, and a server that is silent for too long lose the open
/// link while frames act, each by its error: the session ends with it exactly where it does not recover
/// from it. Where it recovers, each promise that waits gets the error, but that of the connection, which
/// goes on to wait, and an answer that was given stays.
pub fn a_lost_link_answers_what_waits()
    ensures misread { (why : Misread) (e : ErrorKind) (t : Talk) → IsTrue (acts t)
        → (end_of (misread why t) ≡ Some (Err e)) ↔ ((e ≡ misread_error why) × (recovery_delay e t ≡ None)) }
    ensures lost { (fault : IoFault) (e : ErrorKind) (t : Talk) → IsTrue (acts t)
        → (end_of (lost fault t) ≡ Some (Err e)) ↔ ((e ≡ IOError fault) × (recovery_delay e t ≡ None)) }
    ensures silence { (answers : List Asked) (e : ErrorKind) (t : Talk) → IsTrue (is_open t)
        → (end_of (tick answers t) ≡ Some (Err e))
        ↔ (IsTrue (is_missed t) × (e ≡ MissingHeartbeatError) × (recovery_delay e t ≡ None)) }
    ensures answered { (e : ErrorKind) (t : Talk) (delay number : ℕ) → recovery_delay e t ≡ Some delay → number ≢ 0
        → at number t.promises ≡ Some None → at number (lose e t).promises ≡ Some (Some (Err e)) }
    ensures stays { (e : ErrorKind) (t : Talk) (number : ℕ) (answer : Result Answer ErrorKind)
        → at number t.promises ≡ Some (Some answer) → at number (lose e t).promises ≡ Some (Some answer) }
    ensures waits { (e : ErrorKind) (t : Talk) → at 0 t.promises ≡ Some None → at 0 (lose e t).promises ≡ Some None }
{}

/// An ended session stays as it ended.
pub fn an_end_is_kept()
    ensures { (t : Talk) → IsEnded t → IsOver t }
{}

/// A new secret is asked for only where the secret has expired: as much time has gone by as the provider
/// says that it is valid, since the moment from which it is. That moment is the present at each open-ok
/// that opens the connection, at the update-secret-ok of a refresh, and where the provider had no new
/// secret; nothing else moves it.
pub fn a_secret_is_asked_for_when_it_has_expired()
    ensures asked { (answers : List Asked) (t : Talk) → Contains (tick_questions answers t) Refresh
        → HasExpired answers t }
    ensures moment { (t : Talk) → KeepsSecret t }
{}

/// An answer is taken once, and a promise that was not made has none.
pub fn an_answer_is_taken_once()
    ensures once { (number : ℕ) (t : Talk) → IsSound t → answer_of number (take_answer number t) ≡ None }
    ensures unmade { (number : ℕ) (t : Talk) → IsSound t → t.made ≤ number → answer_of number t ≡ None }
{}

/// An answer that a channel is open names the promise that it answers, and no two listed channels were
/// opened by one promise, which was made. So a promise and a number name one channel.
pub fn a_channel_names_what_opened_it()
    ensures answer { (number id opened : ℕ) (t : Talk) → IsSound t
        → answer_of number t ≡ Some (Ok (answers.Channel id opened)) → opened ≡ number }
    ensures made { (n number : ℕ) (t : Talk) → IsSound t → opener n t.channels ≡ Some number → number < t.made }
    ensures once { (m n number : ℕ) (t : Talk) → IsSound t → opener m t.channels ≡ Some number
        → opener n t.channels ≡ Some number → m ≡ n }
{}

/// Events are told once each, and in order, and once none is left, nothing changes. While someone listens
/// and the session goes on, an event that comes is the last of those that are kept, and so is that of an
/// end by an error; while nobody listens none is kept.
pub fn events_are_told_once()
    ensures told { (t : Talk) (event : Event) (later : List Event) → events_of t ≡ event ∷ later
        → (event_of t ≡ Some event) × (events_of (take_event t) ≡ later) }
    ensures none { (t : Talk) → events_of t ≡ [] → (event_of t ≡ None) × (take_event t ≡ t) }
    ensures kept { (event : Event) (t : Talk) → IsFalse (has_ended t) → IsTrue t.noted.listens
        → events_of (note event t) ≡ events_of t ++ event ∷ [] }
    ensures unheard { (event : Event) (t : Talk) → IsFalse t.noted.listens → note event t ≡ t }
    ensures ended { (error : ErrorKind) (t : Talk) → IsFalse (has_ended t) → IsTrue t.noted.listens
        → events_of (fail error t) ≡ events_of t ++ told.Error error ∷ [] }
{}

/// What is committed is unsent, and what is taken is no longer so, while the link is open; in a sound
/// state that goes for the write that ends the session too.
pub fn unsent_bytes_are_counted()
    ensures committed { (space : ℕ) (t : Talk) (item : Item) → next_within space t ≡ Some item
        → unsent (commit space t) ≡ unsent t + length (encoding item.frame) }
    ensures taken { (n : ℕ) (t : Talk) → IsTrue (is_open (taken n t)) → n ≤ unsent t
        → unsent (taken n t) + n ≡ unsent t }
    ensures sound { (n : ℕ) (t : Talk) → IsSound t → IsTrue (is_open t) → n ≤ unsent t
        → unsent (taken n t) + n ≡ unsent t }
{}
