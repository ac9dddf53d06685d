//! What `top_live` says, and its status.

use crate::live::server::{Exchange, Refuses, Script, ServerSpawner};
use amqp_live::top_live;
use amqp_replay::MemorySink;
use amqp_types::Text;
use amqp_vectors::{
    CHANNEL_CLOSE_1, CHANNEL_CLOSE_OK_1, CHANNEL_OPEN_1, CHANNEL_OPEN_OK_1, CLOSE, CLOSE_OK,
    HEADER, OPEN, OPEN_OK, START, START_OK, TUNE, TUNE_OK,
};
use std::alloc::Global;
use std::sync::Wait;
use std::test::Fail;
use std::thread::Threads;
use std::time::Clock;

/// A server that opens and closes all that it is asked to, each once it was asked.
const SERVER: &[Exchange] = &[
    Exchange {
        hears: &[HEADER],
        says: START,
    },
    Exchange {
        hears: &[START_OK],
        says: TUNE,
    },
    Exchange {
        hears: &[TUNE_OK, OPEN],
        says: OPEN_OK,
    },
    Exchange {
        hears: &[CHANNEL_OPEN_1],
        says: CHANNEL_OPEN_OK_1,
    },
    Exchange {
        hears: &[CHANNEL_CLOSE_1],
        says: CHANNEL_CLOSE_OK_1,
    },
    Exchange {
        hears: &[CLOSE],
        says: CLOSE_OK,
    },
];

/// So many answers, which are all.
const ALL: usize = 6;

/// What is wanted: the status, what the sink took, and how often the spawner refused.
#[derive(Clone, Copy)]
struct Wanted {
    status: u8,
    text: &'static str,
    refused: u64,
}

// These words go last.
fn push_words(alloc: Global, texts: &mut Vec<Text>, words: &[&str]) -> Result<(), Fail> {
    for word in words {
        texts.push(Text::new(alloc, word)?)?;
    }
    Ok(())
}

// These words.
fn texts_of(alloc: Global, words: &[&str]) -> Result<Vec<Text>, Fail> {
    let mut texts = Vec::new(alloc);
    match push_words(alloc, &mut texts, words) {
        Ok(()) => Ok(texts),
        Err(fail) => {
            drop(texts);
            Err(fail)
        }
    }
}

// Whether these words are answered so by this runtime, on a sink that takes so many bytes a call and fails at
// these.
fn is_answered_by<R: Threads + Wait + Clock + Copy + Send + Drop + 'static>(
    rt: R,
    alloc: Global,
    texts: &[Text],
    runtime: &mut ServerSpawner<R>,
    sink: (usize, &[u64]),
    wanted: Wanted,
) -> bool {
    let mut said = MemorySink::new(alloc, sink.0, sink.1);
    let status = top_live(rt, alloc, texts, &mut said, runtime);
    let text = said.held() == wanted.text.as_bytes();
    drop(said);
    let refused = runtime.refused() == wanted.refused;
    text && refused && status == wanted.status
}

// The same by a spawner that refuses there, over a server that makes so many answers.
fn is_answered<R: Threads + Wait + Clock + Copy + Send + Drop + 'static>(
    rt: R,
    alloc: Global,
    words: &[&str],
    server: (usize, Refuses),
    sink: (usize, &[u64]),
    wanted: Wanted,
) -> Result<bool, Fail> {
    let texts = texts_of(alloc, words)?;
    match Script::new(alloc, SERVER, server.0) {
        Ok(script) => {
            let mut runtime = ServerSpawner::new(rt, script, server.1);
            let answered = is_answered_by(rt, alloc, &texts, &mut runtime, sink, wanted);
            drop(runtime);
            drop(texts);
            Ok(answered)
        }
        Err(fail) => {
            drop(texts);
            Err(fail)
        }
    }
}

// The same, on a sink that takes all.
fn answers<R: Threads + Wait + Clock + Copy + Send + Drop + 'static>(
    rt: R,
    alloc: Global,
    words: &[&str],
    server: (usize, Refuses),
    wanted: Wanted,
) -> Result<bool, Fail> {
    is_answered(rt, alloc, words, server, (100, &[]), wanted)
}

#[test]
fn a_connection_is_opened_and_closed(rt: HostRuntime) -> Result<(), Fail> {
    let wanted = Wanted {
        status: 0,
        text: "connected\nchannel 1\nclosed\n",
        refused: 0,
    };
    let server = (ALL, Refuses::Nowhere);
    assert!(rt; answers(rt, rt.alloc(), &["live", "amqp://h"], server, wanted)?);
    assert!(rt;
        is_answered(
            rt,
            rt.alloc(),
            &["live", "amqp://h"],
            server,
            (1, &[]),
            wanted
        )?
    );
    Ok(())
}

#[test]
fn what_is_no_address_is_said(rt: HostRuntime) -> Result<(), Fail> {
    let wanted = Wanted {
        status: 5,
        text: "error IO error: not an AMQP URI\n",
        refused: 0,
    };
    let server = (ALL, Refuses::Port);
    assert!(rt; answers(rt, rt.alloc(), &["live", "http://h"], server, wanted)?);
    Ok(())
}

/// Where a spawner refuses that gives no loop.
const REFUSALS: &[Refuses] = &[Refuses::Port, Refuses::Thread];

#[test]
fn a_spawner_that_refuses_gives_no_loop(rt: HostRuntime) -> Result<(), Fail> {
    let wanted = Wanted {
        status: 5,
        text: "error IO error: no loop\n",
        refused: 1,
    };
    for refuses in REFUSALS {
        assert!(rt;
            answers(
                rt,
                rt.alloc(),
                &["live", "amqp://h"],
                (ALL, *refuses),
                wanted
            )?
        );
    }
    Ok(())
}

#[test]
fn other_words_say_nothing(rt: HostRuntime) -> Result<(), Fail> {
    let wanted = Wanted {
        status: 2,
        text: "",
        refused: 0,
    };
    let server = (ALL, Refuses::Port);
    assert!(rt; answers(rt, rt.alloc(), &["live"], server, wanted)?);
    assert!(rt; answers(rt, rt.alloc(), &[], server, wanted)?);
    assert!(rt; answers(rt, rt.alloc(), &["Live", "amqp://h"], server, wanted)?);
    assert!(rt;
        answers(
            rt,
            rt.alloc(),
            &["live", "amqp://h", "more"],
            server,
            wanted
        )?
    );
    Ok(())
}

// The server's input ends in place of the next answer: what was said up to there.
fn ends_after<R: Threads + Wait + Clock + Copy + Send + Drop + 'static>(
    rt: R,
    alloc: Global,
    answers_made: usize,
    text: &'static str,
) -> Result<bool, Fail> {
    let wanted = Wanted {
        status: 5,
        text,
        refused: 0,
    };
    answers(
        rt,
        alloc,
        &["live", "amqp://h"],
        (answers_made, Refuses::Nowhere),
        wanted,
    )
}

#[test]
fn an_error_follows_what_was_done(rt: HostRuntime) -> Result<(), Fail> {
    let alloc = rt.alloc();
    let opened = "connected\nerror IO error: connection aborted\n";
    let used = "connected\nchannel 1\nerror IO error: connection aborted\n";
    assert!(rt; ends_after(rt, alloc, 0, "error IO error: connection aborted\n")?);
    assert!(rt; ends_after(rt, alloc, 3, opened)?);
    assert!(rt; ends_after(rt, alloc, 4, used)?);
    assert!(rt; ends_after(rt, alloc, 5, used)?);
    Ok(())
}

#[test]
fn a_sink_that_fails_ends_it(rt: HostRuntime) -> Result<(), Fail> {
    let alloc = rt.alloc();
    let words = ["live", "amqp://h"];
    let server = (ALL, Refuses::Nowhere);
    let texts = ["", "connected\n", "connected\nchannel 1\n"];
    for call in 0..3 {
        let wanted = Wanted {
            status: 4,
            text: texts[call],
            refused: 0,
        };
        let failing = [call as u64 + 1];
        assert!(rt; is_answered(rt, alloc, &words, server, (100, &failing), wanted)?);
    }
    let wanted = Wanted {
        status: 4,
        text: "",
        refused: 0,
    };
    assert!(rt;
        is_answered(
            rt,
            alloc,
            &["live", "http://h"],
            server,
            (100, &[1]),
            wanted
        )?
    );
    Ok(())
}
