//! A law on what is acknowledged.

ghost use Rattle.std.specs.Prelude.{◌≡◌, List, true};
ghost use Rattle.amqp_tools.specs.Acknowledged.{NamedDeed, beginning, allowed, nothing_seen, AckedIsPrinted};

/// Whatever comes, in whatever order, over one link after another: at each acknowledgement the sink took each delivery
/// of the link that it means, or a message of its name. A law, which needs no memory and does nothing.
pub fn what_is_acknowledged_was_printed()
    ensures { (steps : List NamedDeed) → allowed beginning steps ≡ true → AckedIsPrinted nothing_seen steps }
{}
