//! Numbers that are given one after another.

use amqp_session::{Id, IdSequence};
use std::process::Abort;

/// What is done with a sequence, and what is seen of it.
enum Step<T> {
    /// A new one, which gives 0 too or does not.
    New(bool),
    /// Its maximum is this, where 0 is none.
    Max(T),
    /// It gives the numbers from the first of these to the second.
    Gives(u32, u32),
    /// Its current number is this.
    Current(Option<u32>),
}

fn gives<T: Id, A: Abort>(rt: &A, numbers: &mut IdSequence<T>, first: u32, last: u32) {
    for wanted in first..=last {
        assert!(rt; numbers.next().number() == wanted, "{wanted}");
    }
}

fn is_current<T: Id>(numbers: &IdSequence<T>, wanted: Option<u32>) -> bool {
    numbers.current().map(|number| number.number()) == wanted
}

fn follow<T: Id, A: Abort>(rt: &A, steps: &[Step<T>]) {
    let mut numbers: IdSequence<T> = IdSequence::new(false);
    for step in steps {
        match step {
            Step::New(allow_zero) => numbers = IdSequence::new(*allow_zero),
            Step::Max(max) => numbers.set_max(*max),
            Step::Gives(first, last) => gives(rt, &mut numbers, *first, *last),
            Step::Current(wanted) => assert!(rt; is_current(&numbers, *wanted), "{wanted:?}"),
        }
    }
}

// After the maximum comes the first again; one of 255 is as none.
#[test]
fn numbers_come_round_after_the_maximum(rt: HostRuntime) {
    const STEPS: &[Step<u8>] = &[
        Step::New(false),
        Step::Max(10),
        Step::Gives(1, 10),
        Step::Gives(1, 10),
        Step::Gives(1, 1),
        Step::New(false),
        Step::Max(255),
        Step::Gives(1, 255),
        Step::Gives(1, 1),
        Step::New(false),
        Step::Max(1),
        Step::Gives(1, 1),
        Step::Gives(1, 1),
    ];
    follow(&rt, STEPS);
}

#[test]
fn zero_is_given_where_it_is_allowed(rt: HostRuntime) {
    const STEPS: &[Step<u8>] = &[
        Step::New(true),
        Step::Max(10),
        Step::Gives(0, 10),
        Step::Gives(0, 10),
        Step::Gives(0, 0),
        Step::New(true),
        Step::Gives(0, 255),
        Step::Gives(0, 0),
    ];
    follow(&rt, STEPS);
}

#[test]
fn the_greatest_number_of_the_type_ends_the_cycle(rt: HostRuntime) {
    const OF_EIGHT_BITS: &[Step<u8>] = &[
        Step::Gives(1, 255),
        Step::Gives(1, 255),
        Step::Gives(1, 1),
    ];
    const OF_SIXTEEN_BITS: &[Step<u16>] = &[Step::Gives(1, 65_535), Step::Gives(1, 1)];
    const OF_THIRTY_TWO_BITS: &[Step<u32>] = &[
        Step::Gives(1, 65_537),
        Step::Max(65_538),
        Step::Gives(65_538, 65_538),
        Step::Gives(1, 1),
    ];
    follow(&rt, OF_EIGHT_BITS);
    follow(&rt, OF_SIXTEEN_BITS);
    follow(&rt, OF_THIRTY_TWO_BITS);
}

#[test]
fn above_a_lowered_maximum_the_first_comes(rt: HostRuntime) {
    const STEPS: &[Step<u8>] = &[
        Step::New(false),
        Step::Max(10),
        Step::Gives(1, 6),
        Step::Max(4),
        Step::Current(Some(6)),
        Step::Gives(1, 4),
        Step::Gives(1, 1),
        Step::New(true),
        Step::Max(10),
        Step::Gives(0, 6),
        Step::Max(4),
        Step::Gives(0, 4),
        Step::Gives(0, 0),
        // The next number is 7: above 6, but not above 7.
        Step::New(false),
        Step::Gives(1, 6),
        Step::Max(6),
        Step::Gives(1, 6),
        Step::Gives(1, 6),
        Step::New(false),
        Step::Gives(1, 6),
        Step::Max(7),
        Step::Gives(7, 7),
        Step::Gives(1, 1),
    ];
    follow(&rt, STEPS);
}

#[test]
fn a_maximum_can_be_raised_and_taken_away(rt: HostRuntime) {
    const STEPS: &[Step<u8>] = &[
        Step::Max(4),
        Step::Gives(1, 3),
        Step::Max(10),
        Step::Gives(4, 10),
        Step::Gives(1, 6),
        Step::Max(0),
        Step::Gives(7, 255),
        Step::Gives(1, 1),
    ];
    follow(&rt, STEPS);
}

#[test]
fn the_current_number_is_the_one_before_the_cursor(rt: HostRuntime) {
    const STEPS: &[Step<u8>] = &[
        Step::New(false),
        Step::Current(None),
        Step::Gives(1, 1),
        Step::Current(Some(1)),
        Step::Gives(2, 254),
        Step::Current(Some(254)),
        Step::Gives(255, 255),
        Step::Current(None),
        Step::New(true),
        Step::Current(None),
        Step::Gives(0, 0),
        Step::Current(Some(0)),
    ];
    follow(&rt, STEPS);
}

#[test]
fn where_the_cursor_is_0_the_current_number_is_the_maximum(rt: HostRuntime) {
    const STEPS: &[Step<u8>] = &[
        Step::New(false),
        Step::Max(10),
        Step::Current(Some(10)),
        Step::Gives(1, 9),
        Step::Current(Some(9)),
        Step::Gives(10, 10),
        Step::Current(Some(10)),
        Step::Max(0),
        Step::Current(None),
        Step::Gives(1, 1),
        Step::Current(Some(1)),
    ];
    follow(&rt, STEPS);
}
