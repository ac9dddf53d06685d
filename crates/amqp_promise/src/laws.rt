//! What holds of all steps on a cell.

ghost use Rattle.amqp_promise.specs.FirstCompletion.{FirstCompletion};

/// Whatever steps are made on a cell, it keeps its first completion, which the first take after it
/// gets and no other, and it has a place for each task that registered before, and none after.
pub fn a_first_completion_is_taken_once<A>()
    ensures { FirstCompletion A }
{}
