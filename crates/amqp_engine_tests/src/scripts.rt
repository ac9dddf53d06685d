//! Which scripts are those of a faultless server, by the definition alone: whole ones, and its parts.

ghost use Rattle.std.specs.Prelude.{◌≡◌, [], ◌∷◌, ◌++◌, List, None, Some, Ok, Err, take, codes};
ghost use Rattle.amqp_promise.specs.declared.error.ErrorKind.TheVariants.{MissingHeartbeatError};
ghost use Rattle.amqp_auth.specs.declared.asked.Asked.TheVariants as answer;
ghost use Rattle.amqp_settings.specs.Config.{no_options};
ghost use Rattle.amqp_rules.specs.Talk.{end_of};
ghost use Rattle.amqp_faultless.specs.Faultless.{AreSayable};
ghost use Rattle.amqp_engine.specs.declared.given.GivenStep.TheVariants as given;
ghost use Rattle.amqp_engine.specs.Turn.{talk};
ghost use Rattle.amqp_engine.specs.Play.{replayed};
ghost use Rattle.amqp_engine.specs.Valid.{SpelledFrame, AreSpelled, AreFrames, IsLinkedOnce, MomentsRise, EndsWithBytes, IsTimely, Valid};
ghost use Rattle.amqp_engine_tests.specs.Scripts.{client, listening, guest, renewed, opened, channel_opened, heartbeat, steps_at, comes, shut, closed_by_us, in_pieces, closed_by_them, blocked_a_while, heard_in_time, messages_pass, token_renewed, tunes_at_once, closes_cross, missed};

// Whole scripts: closed by the client, also by one that keeps its events, cut into other pieces, closed by
// the server, one in which the close waits while the server blocks, one in which it is silent for as long
// as it may be, one with a channel, a publish and a delivery, and one in which a token is told anew.
fn are_valid()
    ensures closed_by_us { Valid client closed_by_us guest }
    ensures listens { Valid listening closed_by_us guest }
    ensures in_pieces { Valid client in_pieces guest }
    ensures closed_by_them { Valid client closed_by_them guest }
    ensures blocked_a_while { Valid client blocked_a_while guest }
    ensures heard_in_time { Valid client heard_in_time guest }
    ensures messages_pass { Valid client messages_pass guest }
    ensures token_renewed { Valid client token_renewed renewed }
{}

// A script in which the server is silent for too long, one in which it tunes before we logged in, and one
// in which it closes a channel that we closed, and does not answer.
fn are_not_valid()
    ensures silent { IsTimely client (replayed client missed guest) → ⊥ }
    ensures missed { Valid client missed guest → ⊥ }
    ensures tunes_at_once { Valid client tunes_at_once guest → ⊥ }
    ensures closes_cross { Valid client closes_cross guest → ⊥ }
{}

// How their sessions end: Closed after each that is valid, and after two that are not; the one that misses a
// heartbeat ends with that error.
fn sessions_end_so()
    ensures closed_by_us { end_of (talk client (replayed client closed_by_us guest)) ≡ Some (Ok tt) }
    ensures listens { end_of (talk listening (replayed listening closed_by_us guest)) ≡ Some (Ok tt) }
    ensures in_pieces { end_of (talk client (replayed client in_pieces guest)) ≡ Some (Ok tt) }
    ensures closed_by_them { end_of (talk client (replayed client closed_by_them guest)) ≡ Some (Ok tt) }
    ensures blocked_a_while { end_of (talk client (replayed client blocked_a_while guest)) ≡ Some (Ok tt) }
    ensures heard_in_time { end_of (talk client (replayed client heard_in_time guest)) ≡ Some (Ok tt) }
    ensures messages_pass { end_of (talk client (replayed client messages_pass guest)) ≡ Some (Ok tt) }
    ensures token_renewed { end_of (talk client (replayed client token_renewed renewed)) ≡ Some (Ok tt) }
    ensures tunes_at_once { end_of (talk client (replayed client tunes_at_once guest)) ≡ Some (Ok tt) }
    ensures closes_cross { end_of (talk client (replayed client closes_cross guest)) ≡ Some (Ok tt) }
    ensures missed { end_of (talk client (replayed client missed guest)) ≡ Some (Err MissingHeartbeatError) }
{}

// Two heartbeats are frames, and a part of one is not.
fn heartbeats_are_frames()
    ensures two { AreFrames 131072 (heartbeat.octets ++ heartbeat.octets) (heartbeat ∷ heartbeat ∷ []) }
    ensures part { (spelled : List SpelledFrame) → AreFrames 131072 (take 7 heartbeat.octets) spelled → ⊥ }
{}

// Frames of at most so many octets, up to open-ok, and of at most so many after it.
fn frames_are_of_a_length()
    ensures each { AreSpelled 13 16 (opened ∷ channel_opened ∷ []) }
    ensures first { AreSpelled 12 16 (opened ∷ []) → ⊥ }
    ensures later { AreSpelled 13 15 (opened ∷ channel_opened ∷ []) → ⊥ }
{}

// One link, first of all, which takes all and is not lost.
fn a_link_stands_once()
    ensures once { IsLinkedOnce (steps_at 0 (given.Link None ∷ given.Tick ∷ given.Room 1 ∷ shut
        ∷ comes (heartbeat ∷ []))) }
    ensures none { IsLinkedOnce [] → ⊥ }
    ensures late { IsLinkedOnce (steps_at 0 (given.Tick ∷ given.Link None ∷ [])) → ⊥ }
    ensures twice { IsLinkedOnce (steps_at 0 (given.Link None ∷ given.Link None ∷ [])) → ⊥ }
    ensures room { IsLinkedOnce (steps_at 0 (given.Link (Some 131072) ∷ [])) → ⊥ }
    ensures refused { IsLinkedOnce (steps_at 0 (given.Link None ∷ given.Refuse ∷ [])) → ⊥ }
    ensures lost { IsLinkedOnce (steps_at 0 (given.Link None ∷ given.End ∷ [])) → ⊥ }
    ensures fault { IsLinkedOnce (steps_at 0 (given.Link None ∷ given.Fault ∷ [])) → ⊥ }
    ensures write_failed { IsLinkedOnce (steps_at 0 (given.Link None ∷ given.WriteFail ∷ [])) → ⊥ }
{}

// Moments that rise or stay, and moments that fall.
fn moments_rise()
    ensures rise { MomentsRise 0 (steps_at 0 (given.Link None ∷ given.Tick ∷ [])
        ++ steps_at 5 (given.Tick ∷ given.Tick ∷ [])) }
    ensures fall { MomentsRise 0 (steps_at 5 (given.Link None ∷ []) ++ steps_at 4 (given.Tick ∷ [])) → ⊥ }
{}

// Bytes that come last, and a command that does.
fn bytes_come_last()
    ensures bytes { EndsWithBytes (steps_at 0 (given.Link None ∷ comes (heartbeat ∷ []))) }
    ensures command { EndsWithBytes (steps_at 0 (given.Link None ∷ comes (heartbeat ∷ []) ++ shut ∷ [])) → ⊥ }
    ensures nothing { EndsWithBytes [] → ⊥ }
{}

// What one logs in with, a refusal, and a login without a mechanism.
fn logins_can_be_said()
    ensures guest { AreSayable no_options guest }
    ensures refused { AreSayable no_options (answer.Mechanism (codes "PLAIN")
        ∷ answer.Starter (Err (codes "no")) ∷ []) → ⊥ }
    ensures unnamed { AreSayable no_options (answer.Starter (Ok []) ∷ []) → ⊥ }
{}

#[test]
fn faultless_scripts_are_valid() {
    are_valid();
}

#[test]
fn other_scripts_are_not() {
    are_not_valid();
}

#[test]
fn sessions_end_as_computed() {
    sessions_end_so();
}

#[test]
fn each_part_of_the_definition_tells_scripts_apart() {
    heartbeats_are_frames();
    frames_are_of_a_length();
    a_link_stands_once();
    moments_rise();
    bytes_come_last();
    logins_can_be_said();
}
