//! Words of a command line.

use amqp_tools::{Job, consuming_of, count_of, job_of, publishing_of, wants_help, words_of};
use amqp_types::{NoMemory, Text};
use std::alloc::Global;

// The texts that words are.
fn texts(alloc: Global, words: &[&str]) -> Result<Vec<Text>, NoMemory> {
    let mut texts = Vec::new(alloc);
    for word in words {
        let text = Text::new(alloc, word)?;
        if texts.push(text).is_err() {
            return Err(NoMemory);
        }
    }
    Ok(texts)
}

// Whether words, behind options, are known to who publishes, and to who consumes.
fn are_known(alloc: Global, words: &[&str]) -> Result<(bool, bool), NoMemory> {
    let texts = texts(alloc, words)?;
    let words = words_of(alloc, &texts)?;
    Ok((
        publishing_of(words.rest).is_some(),
        consuming_of(words.rest).is_some(),
    ))
}

/// Words, and whether who publishes and who consumes knows them.
const WORDS: &[(&[&str], bool, bool)] = &[
    (&[], false, false),
    (&["uri"], false, false),
    (&["uri", "q"], false, true),
    (&["uri", "q", "7"], true, true),
    (&["--recover", "uri", "q", "7"], true, true),
    (&["uri", "q", "7", "--recover"], false, false),
];

// The place of the first words of which that is not so.
fn first_other(alloc: Global) -> Result<Option<usize>, NoMemory> {
    for (place, (words, publishing, consuming)) in WORDS.iter().enumerate() {
        if are_known(alloc, words)? != (*publishing, *consuming) {
            return Ok(Some(place));
        }
    }
    Ok(None)
}

#[test]
fn words_are_known(rt: HostRuntime) -> Result<(), NoMemory> {
    assert!(rt; first_other(rt.alloc())? == None);
    Ok(())
}

// Which job the first of these words asks for, and how many stand behind it.
fn job(alloc: Global, words: &[&str]) -> Result<Option<(Job, usize)>, NoMemory> {
    let words = texts(alloc, words)?;
    Ok(match job_of(&words) {
        Some((job, rest)) => Some((job, rest.len())),
        None => None,
    })
}

#[test]
fn the_first_word_is_a_job(rt: HostRuntime) -> Result<(), NoMemory> {
    let alloc = rt.alloc();
    assert!(rt; job(alloc, &["publish", "uri"])? == Some((Job::Publish, 1)));
    assert!(rt; job(alloc, &["consume"])? == Some((Job::Consume, 0)));
    assert!(rt; job(alloc, &["--recover", "publish"])? == None);
    assert!(rt; job(alloc, &[])? == None);
    Ok(())
}

// Whether words ask for help.
fn ask_for_help(alloc: Global, words: &[&str]) -> Result<bool, NoMemory> {
    let words = texts(alloc, words)?;
    Ok(wants_help(&words))
}

const HELP: &[(&[&str], bool)] = &[(&["--help"], true), (&["--help", "more"], false)];

const COUNTS: &[(&str, Option<u64>)] = &[
    ("018446744073709551615", Some(u64::MAX)),
    ("18446744073709551616", None),
    ("", None),
    ("-1", None),
    ("+1", None),
];

// Whether words ask for help where they should.
fn is_help_known(alloc: Global) -> Result<bool, NoMemory> {
    for (words, help) in HELP {
        if ask_for_help(alloc, words)? != *help {
            return Ok(false);
        }
    }
    Ok(true)
}

// The first word that is another count.
fn first_other_count() -> Option<&'static str> {
    for (word, count) in COUNTS {
        if count_of(word) != *count {
            return Some(*word);
        }
    }
    None
}

#[test]
fn help_and_counts_are_words(rt: HostRuntime) -> Result<(), NoMemory> {
    assert!(rt; is_help_known(rt.alloc())?);
    assert!(rt; first_other_count() == None);
    Ok(())
}
