//! Which servers are faultless, by the definition alone, whatever a client makes of what they say. Some
//! that are not leave a session Closed all the same: those whose close of a channel crosses ours, or
//! that tell too small a greatest frame.

ghost use Rattle.amqp_engine.specs.Valid.{IsServed};
ghost use Rattle.amqp_engine_tests.specs.Sayings.{handshake, closed_by_us, challenged, any_frame, least_frame, alive, blocked, refreshed, channel_used, channel_closed, channel_reopened, flows_answered, delivered, speaks_to_the_last, closed_by_them, closes_cross, closes_closed, closes_and_answers, opens_unasked, opens_twice, answers_no_close, answers_flow_twice, answers_earlier_flow, speaks_elsewhere, speaks_after_close, speaks_on_zero, unblocks_a_channel, answers_no_secret, closes_with_error, closes_while_blocked, closes_both, answers_no_end, goes_on, heartbeat_early, frame_below, asks_twice, opens_early, tunes_early};

// Servers that open a connection and let it be closed, with all that may come between.
fn are_faultless()
    ensures closed_by_us { IsServed closed_by_us }
    ensures closed_by_them { IsServed closed_by_them }
    ensures challenged { IsServed challenged }
    ensures any_frame { IsServed any_frame }
    ensures least_frame { IsServed least_frame }
    ensures alive { IsServed alive }
    ensures blocked { IsServed blocked }
    ensures refreshed { IsServed refreshed }
    ensures channel_used { IsServed channel_used }
    ensures channel_closed { IsServed channel_closed }
    ensures channel_reopened { IsServed channel_reopened }
    ensures flows_answered { IsServed flows_answered }
    ensures delivered { IsServed delivered }
    ensures speaks_to_the_last { IsServed speaks_to_the_last }
{}

// Servers that say what they may not on a connection, before it is open or while they serve it; and one
// that does not close it.
fn are_faulty()
    ensures heartbeat_early { IsServed heartbeat_early → ⊥ }
    ensures tunes_early { IsServed tunes_early → ⊥ }
    ensures asks_twice { IsServed asks_twice → ⊥ }
    ensures opens_early { IsServed opens_early → ⊥ }
    ensures frame_of_1000 { IsServed (frame_below 1000) → ⊥ }
    ensures frame_of_4095 { IsServed (frame_below 4095) → ⊥ }
    ensures answers_no_secret { IsServed answers_no_secret → ⊥ }
    ensures answers_no_end { IsServed answers_no_end → ⊥ }
    ensures speaks_on_zero { IsServed speaks_on_zero → ⊥ }
    ensures closes_with_error { IsServed closes_with_error → ⊥ }
    ensures closes_while_blocked { IsServed closes_while_blocked → ⊥ }
    ensures closes_both { IsServed closes_both → ⊥ }
    ensures goes_on { IsServed goes_on → ⊥ }
    ensures not_closed { IsServed handshake → ⊥ }
{}

// Servers that say what they may not on a channel.
fn are_faulty_on_a_channel()
    ensures closes_cross { IsServed closes_cross → ⊥ }
    ensures closes_closed { IsServed closes_closed → ⊥ }
    ensures closes_and_answers { IsServed closes_and_answers → ⊥ }
    ensures opens_unasked { IsServed opens_unasked → ⊥ }
    ensures opens_twice { IsServed opens_twice → ⊥ }
    ensures answers_no_close { IsServed answers_no_close → ⊥ }
    ensures answers_flow_twice { IsServed answers_flow_twice → ⊥ }
    ensures answers_earlier_flow { IsServed answers_earlier_flow → ⊥ }
    ensures speaks_elsewhere { IsServed speaks_elsewhere → ⊥ }
    ensures speaks_after_close { IsServed speaks_after_close → ⊥ }
    ensures unblocks_a_channel { IsServed unblocks_a_channel → ⊥ }
{}

#[test]
fn what_a_server_may_say_is_served() {
    are_faultless();
}

#[test]
fn what_a_server_may_not_say_is_not_served() {
    are_faulty();
    are_faulty_on_a_channel();
}
