//! What comes of a session, whatever happens.

ghost use Rattle.std.specs.Prelude.{List};
ghost use Rattle.amqp_auth.specs.declared.asked.Asked.{Asked};
ghost use Rattle.amqp_settings.specs.Config.{Config};
ghost use Rattle.amqp_rules.specs.Sound.{IsSound};
ghost use Rattle.amqp_rules.specs.Talk.{Talk, start};
ghost use Rattle.amqp_outcome_rules.specs.Closings.{EndsClosed, KnowsClose, RemembersClose, StaysKnown};
ghost use Rattle.amqp_outcome_rules.specs.Heeding.{AsksAtFrames, AsksInTime, HeedsFlow};
ghost use Rattle.amqp_outcome_rules.specs.Rejections.{RejectsAtLosses};
ghost use Rattle.amqp_outcome_rules.specs.Standing.{ForgetsReplies, StandsForReplies, StaysWaiting, WaitsForSome};

/// A session ends Closed exactly where its close is answered by close-ok, and where the server closed by a
/// code that is none of an error, and the link is lost or our close-ok was sent. How the server closed is
/// what its close says, and on an open link that is remembered exactly from then on.
pub fn a_session_closes_for_its_cause()
    ensures ends { (t : Talk) → EndsClosed t }
    ensures remembers { (t : Talk) → RemembersClose t }
    ensures first { (c : Config) → KnowsClose (start c) }
    ensures stays { (t : Talk) → KnowsClose t → StaysKnown t }
{}

/// The promise that a command takes is answered at once with an error, or waits: for the reply to what the
/// command says, which is awaited for that promise, or for the last byte of what it sends or publishes. A
/// reply that came is awaited no more, and no promise waits for nothing while frames act, in sound states.
pub fn a_promise_stands_for_what_comes()
    ensures told { (t : Talk) → StandsForReplies t }
    ensures came { (t : Talk) → IsSound t → ForgetsReplies t }
    ensures first { (c : Config) → WaitsForSome (start c) }
    ensures stays { (t : Talk) → IsSound t → WaitsForSome t → StaysWaiting t }
{}

/// Where a session waits for another link after a rule, as it did not before, each promise that waited, but
/// that of the connection, has the error by which the link was lost.
pub fn a_lost_link_is_never_silent()
    ensures { (t : Talk) → RejectsAtLosses t }
{}

/// After the server's flow on a channel in use its flow is what that says, and nothing else changes the flow
/// of a channel that stays listed, but that another link is waited for. A tick asks the provider how long
/// the secret is valid, and where that time is over for a new one, exactly while the connection is open, no
/// refresh awaits its reply, and the server is not missed. At a frame it is asked exactly where start or a
/// challenge is due.
pub fn flow_and_time_are_heeded()
    ensures flow { (t : Talk) → IsSound t → HeedsFlow t }
    ensures time { (answers : List Asked) (t : Talk) → AsksInTime answers t }
    ensures asked { (t : Talk) → AsksAtFrames t }
{}
