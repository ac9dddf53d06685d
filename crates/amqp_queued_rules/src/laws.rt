//! What waits to be said after each rule.

ghost use Rattle.amqp_settings.specs.Config.{Config};
ghost use Rattle.amqp_rules.specs.Talk.{Talk, start};
ghost use Rattle.amqp_queued_rules.specs.Queued.{QueuesItsOwn};
ghost use Rattle.amqp_queued_rules.specs.Left.{LeavesWhatWaits};
ghost use Rattle.amqp_queued_rules.specs.Challenges.{Unchallenged, StaysUnchallenged};

/// What waits after a rule is a part of what waited before it, and behind that the frames of the rule, all
/// of them or none: the reply to a frame that was read, what a command says, what time says.
pub fn each_rule_queues_its_own_frames()
    ensures { (t : Talk) → QueuesItsOwn t }
{}

/// What waited still waits after a rule, in its order and behind it the frames of the rule, or nothing
/// else: but a link that is lost or new has nothing of it, nor has one that the server closes, and with a
/// close goes what is to go with it. What goes out is the frame that is next, and no other.
pub fn each_rule_leaves_what_waits()
    ensures { (t : Talk) → LeavesWhatWaits t }
{}

/// At first no secure-ok waits; and where none does, none waits after any rule but that of a challenge of
/// the server.
pub fn a_secure_ok_answers_a_challenge()
    ensures first { (c : Config) → Unchallenged (start c) }
    ensures stays { (t : Talk) → Unchallenged t → StaysUnchallenged t }
{}
