//! What a journal says of the commands of a pass, as a law.

ghost use Rattle.std.specs.Prelude.{◌≡◌, ◌≤◌, ◌+◌, ℕ, List, length, Option, Some, slice_get};
ghost use Rattle.amqp_commands.specs.declared.command.Cmd.{Cmd};
ghost use Rattle.amqp_journal.specs.declared.entry.Entry.{Entry};
ghost use Rattle.amqp_journal.specs.declared.entry.Entry.TheVariants.{Called};
ghost use Rattle.amqp_hub.specs.Passes.{places, gapless};

/// Where the places of a pass have no gap from one number to another, as in each receipt and each tally,
/// each place of the pass is that of one entry, and the entries are as many as the one number is more than
/// the other.
pub fn a_command_stands_once()
    ensures once { (pass low high : ℕ) (journal : List Entry) → places pass journal ≡ gapless low high
        → (nth i j : ℕ) (c d : Cmd) (p q : Option ℕ) → slice_get journal i ≡ Some (Called pass nth c p)
        → slice_get journal j ≡ Some (Called pass nth d q) → i ≡ j }
    ensures all { (pass low high : ℕ) (journal : List Entry) → places pass journal ≡ gapless low high → low ≤ high
        → low + length (places pass journal) ≡ high }
{}
