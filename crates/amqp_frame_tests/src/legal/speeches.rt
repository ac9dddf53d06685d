//! What a speech tells of what was said in it.

use crate::legal::contents::{HEADER_OF_3, PUBLISH, TWO};
use crate::legal::support::{OPENING, said, says};
use amqp_legal::{Content, Speech, Stage, Usage};
use amqp_vectors::octets::*;
use std::alloc::Global;
use std::test::Fail;

// The stage after each frame of a whole conversation, the header before them.
const STAGES: &[(&[u8], Stage)] = &[
    (START_OK, Stage::StartOkSaid),
    (SECURE_OK, Stage::StartOkSaid),
    (TUNE_OK, Stage::TuneOkSaid),
    (OPEN, Stage::OpenSaid),
    (HEARTBEAT, Stage::OpenSaid),
    (CLOSE, Stage::CloseSaid),
    (CLOSE_OK, Stage::CloseOkSaid),
];

fn stages_in(alloc: Global, speech: &mut Speech) -> Result<bool, Fail> {
    if speech.stage() != Stage::HeaderSaid {
        return Ok(false);
    }
    for (octets, stage) in STAGES {
        if !says(alloc, speech, octets)? || speech.stage() != *stage {
            return Ok(false);
        }
    }
    Ok(true)
}

#[test]
fn the_stage_is_told(rt: HostRuntime) -> Result<(), Fail> {
    let mut speech = said(rt.alloc(), &[])?;
    let told = stages_in(rt.alloc(), &mut speech);
    drop(speech);
    assert!(rt; told?);
    Ok(())
}

// The usage of channel 1 after each frame.
const USAGES: &[(&[u8], Usage)] = &[
    (CHANNEL_OPEN_2, Usage::Shut),
    (CHANNEL_OPEN_1, Usage::InUse),
    (CHANNEL_CLOSE_1, Usage::Left),
    (CHANNEL_CLOSE_OK_1, Usage::Shut),
    (CHANNEL_OPEN_1, Usage::InUse),
    (CHANNEL_CLOSE_OK_1, Usage::Shut),
];

fn usages_in(alloc: Global, speech: &mut Speech) -> Result<bool, Fail> {
    for (octets, usage) in USAGES {
        if !says(alloc, speech, octets)? || speech.usage(1) != *usage {
            return Ok(false);
        }
    }
    Ok(speech.usage(65_535) == Usage::Shut)
}

#[test]
fn the_usage_of_a_channel_is_told(rt: HostRuntime) -> Result<(), Fail> {
    let mut speech = said(rt.alloc(), OPENING)?;
    let told = usages_in(rt.alloc(), &mut speech);
    drop(speech);
    assert!(rt; told?);
    Ok(())
}

// The content after each frame of a group.
const CONTENTS: &[(&[u8], Content)] = &[
    (CHANNEL_OPEN_1, Content::NoContent),
    (PUBLISH, Content::MethodSaid(1, 60)),
    (HEADER_OF_3, Content::BodyMissing(1, 3)),
    (TWO, Content::BodyMissing(1, 1)),
];

fn contents_in(alloc: Global, speech: &mut Speech) -> Result<bool, Fail> {
    for (octets, content) in CONTENTS {
        if !says(alloc, speech, octets)? || speech.content() != *content {
            return Ok(false);
        }
    }
    Ok(true)
}

// Frames that may not be said where one octet of a body on channel 1 is missing.
const REFUSED: &[&[u8]] = &[HEARTBEAT, CHANNEL_CLOSE_1, CLOSE, TWO, PUBLISH, HEADER_OF_3];

fn is_in_the_body(speech: &Speech) -> bool {
    speech.stage() == Stage::OpenSaid
        && speech.usage(1) == Usage::InUse
        && speech.content() == Content::BodyMissing(1, 1)
}

fn stays_in_the_body(alloc: Global, speech: &mut Speech) -> Result<bool, Fail> {
    for octets in REFUSED {
        if says(alloc, speech, octets)? || !is_in_the_body(speech) {
            return Ok(false);
        }
    }
    says(alloc, speech, CLOSE_OK)
}

// Whether the group is said, and what is refused in its midst changes nothing.
fn is_refused_in(alloc: Global, speech: &mut Speech) -> Result<bool, Fail> {
    Ok(contents_in(alloc, speech)? && stays_in_the_body(alloc, speech)?)
}

// A frame that may not be said changes nothing, and what may be said is said after it.
#[test]
fn a_refused_frame_changes_nothing(rt: HostRuntime) -> Result<(), Fail> {
    let mut speech = said(rt.alloc(), OPENING)?;
    let told = is_refused_in(rt.alloc(), &mut speech);
    drop(speech);
    assert!(rt; told?);
    Ok(())
}
