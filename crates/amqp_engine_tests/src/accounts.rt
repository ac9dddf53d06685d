//! Which accounts of a client are carried, by the definition alone.

ghost use Rattle.amqp_engine.specs.Carried.{Carried};
ghost use Rattle.amqp_engine_tests.specs.Accounts.{all_sent, cut_off, torn_and_sent, swapped, twice, on_two_links, torn_over_links, other_body, made_up, not_whole, opened_by_none, by_another, by_an_earlier, by_a_refused, of_two_channels};

// Sends and publishes that went out whole and in turns, and a frame that came, are carried; so is a
// publish that was cut off with its link and not answered Sent.
fn are_carried()
    ensures whole { Carried all_sent }
    ensures cut_off { Carried cut_off }
{}

// A publish that was answered Sent and is torn, or torn over two links, two sends that were swapped, one
// that was sent twice, or on two links, a publish with another body, and a frame that was handed out and
// did not come, or not whole, or by a promise that did not open its channel, that opened it before a
// later one, that was refused, or that opened another as well, are not carried.
fn are_not_carried()
    ensures torn { Carried torn_and_sent → ⊥ }
    ensures swapped { Carried swapped → ⊥ }
    ensures twice { Carried twice → ⊥ }
    ensures on_two_links { Carried on_two_links → ⊥ }
    ensures over_links { Carried torn_over_links → ⊥ }
    ensures other_body { Carried other_body → ⊥ }
    ensures made_up { Carried made_up → ⊥ }
    ensures not_whole { Carried not_whole → ⊥ }
    ensures by_none { Carried opened_by_none → ⊥ }
    ensures by_another { Carried by_another → ⊥ }
    ensures by_an_earlier { Carried by_an_earlier → ⊥ }
    ensures by_a_refused { Carried by_a_refused → ⊥ }
    ensures of_two_channels { Carried of_two_channels → ⊥ }
{}

#[test]
fn what_went_out_is_carried() {
    are_carried();
}

#[test]
fn what_is_torn_swapped_or_made_up_is_not_carried() {
    are_not_carried();
}
