//! What holds of promises, whatever happens.

ghost use Rattle.std.specs.Prelude.{◌≡◌, ◌≤◌, ◌↔◌, ℕ, ◌+◌, List, Some, None, IsTrue, IsSome};
ghost use Rattle.amqp_promise.specs.declared.error.ErrorKind.{ErrorKind};
ghost use Rattle.amqp_channels.specs.declared.channels.Channel.{Channel};
ghost use Rattle.amqp_commands.specs.declared.command.Cmd.{Cmd};
ghost use Rattle.amqp_maps.specs.Listed.{at};
ghost use Rattle.amqp_channels.specs.Numbering.{first_number, drawn};
ghost use Rattle.amqp_rules.specs.Talk.{Talk, has_ended};
ghost use Rattle.amqp_rules.specs.Commands.{command, takes_promise};
ghost use Rattle.amqp_rules.specs.Answers.{answer_of};
ghost use Rattle.amqp_rules.specs.Sound.{IsSound};
ghost use Rattle.amqp_rules.specs.Laws.{IsAnsweredAtOnce};
ghost use Rattle.amqp_answer_rules.specs.Refusals.{IsRefusedWith};
ghost use Rattle.amqp_answer_rules.specs.Answering.{KeepsPromises};

/// Each rule leaves every promise as it was, or answers one that waited, with an error for the reasons of
/// that rule alone; so an answer that was given stays until it is taken. A command that takes a promise
/// makes that one, and nothing else makes any. Once the session has ended, each promise that was made
/// has an answer, until that is taken.
pub fn every_promise_has_one_answer()
    ensures kept { (t : Talk) → KeepsPromises t }
    ensures made { (cmd : Cmd) (t : Talk) → IsTrue (takes_promise cmd)
        → ((command cmd t).made ≡ t.made + 1) × IsSome (at t.made (command cmd t).promises) }
    ensures ended { (number : ℕ) (t : Talk) → IsTrue (has_ended t) → IsSome (at number t.promises)
        → IsSome (answer_of number t) }
{}

/// A command that takes a promise is refused at once with an error exactly for the reason of that error, in
/// a sound state.
pub fn a_command_is_refused_for_its_reason()
    ensures { (error : ErrorKind) (cmd : Cmd) (t : Talk) → IsSound t → IsTrue (takes_promise cmd)
        → IsAnsweredAtOnce error t (command cmd t) ↔ IsRefusedWith error cmd t }
{}

/// The number that is drawn for a new channel is within 1 and the greatest, and was not listed.
pub fn a_drawn_number_is_free()
    ensures { (most cursor n : ℕ) (channels : List (ℕ × Channel))
        → drawn most (first_number most cursor) channels ≡ Some n
        → (1 ≤ n) × (n ≤ most) × (at n channels ≡ None) }
{}
