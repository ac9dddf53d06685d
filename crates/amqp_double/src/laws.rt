//! What holds of each double.

ghost use Rattle.std.specs.Prelude.{◌≡◌, ◌++◌, ℕ, List, IsTrue, is_some};
ghost use Rattle.amqp_double.specs.Doubles.{DoubleState, AnswersClient, with_client};

/// The client's octets and the numbers decide what a double reads, what it refuses, what it answers, and
/// whether it is closed.
pub fn the_clients_octets_decide()
    ensures { (one other : DoubleState) → AnswersClient one → AnswersClient other → one.client ≡ other.client
        → one.numbers ≡ other.numbers → record one { sent = other.sent } ≡ other }
{}

/// What a double refuses stays so, whatever octets follow.
pub fn a_refusal_stays()
    ensures { (d : DoubleState) (more : List ℕ) → AnswersClient d → IsTrue (is_some d.refusal)
        → AnswersClient (with_client (d.client ++ more) d) }
{}
