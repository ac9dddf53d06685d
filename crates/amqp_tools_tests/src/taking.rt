//! Options, bodies in a stream, and which messages were taken.

use amqp_tools::{
    Bodies, Coming, Delivery, Framing, MemorySink, Once, Opt, Part, Taking, Untaken, are_of, has,
    value_of, words_of,
};
use amqp_types::{NoMemory, Text};
use std::alloc::Global;
use std::process::Abort;
use std::test::Fail;

// The texts that words are.
fn texts(alloc: Global, words: &[&str]) -> Result<Vec<Text>, NoMemory> {
    let mut texts = Vec::new(alloc);
    for word in words {
        let text = Text::new(alloc, word)?;
        if texts.push(text).is_err() {
            return Err(NoMemory);
        }
    }
    Ok(texts)
}

// How many options stand at the front of words, how many words behind them, and the number of seconds to wait.
fn counts(
    alloc: Global,
    words: &[&str],
    wait: Option<&str>,
) -> Result<Option<(usize, usize)>, NoMemory> {
    let texts = texts(alloc, words)?;
    let words = words_of(alloc, &texts)?;
    let same = value_of(&words.given, Opt::Wait) == wait
        && has(&words.given, Opt::Wait) == wait.is_some();
    let counts = (words.given.len(), words.rest.len());
    drop(words);
    Ok(if same { Some(counts) } else { None })
}

#[test]
fn options_stand_first(rt: HostRuntime) -> Result<(), Fail> {
    let alloc = rt.alloc();
    assert!(rt; counts(alloc, &[], None)? == Some((0, 0)));
    assert!(rt; counts(alloc, &["--recover", "--wait", "3", "u", "q"], Some("3"))? == Some((2, 2)));
    assert!(rt; counts(alloc, &["--wait", "3", "--wait", "4", "u"], Some("4"))? == Some((2, 1)));
    assert!(rt; counts(alloc, &["-0", "u", "--wait", "3"], None)? == Some((1, 3)));
    assert!(rt; counts(alloc, &["--wait"], None)? == Some((0, 1)));
    assert!(rt; counts(alloc, &["--unknown", "u"], None)? == Some((0, 2)));
    Ok(())
}

#[test]
fn each_word_has_its_options(rt: HostRuntime) -> Result<(), Fail> {
    let texts = texts(rt.alloc(), &["--recover", "--once", "id"])?;
    let words = words_of(rt.alloc(), &texts)?;
    assert!(rt; are_of(&words.given, &[Opt::Once, Opt::Recover]));
    assert!(rt; !are_of(&words.given, &[Opt::Recover]));
    Ok(())
}

// Puts what comes next into a text: a body in brackets, and what else comes by a letter.
fn put(part: Part, out: &mut Vec<u8>) -> Result<bool, NoMemory> {
    match part {
        Part::Body(body) => {
            let put = put_body(body.as_bytes(), out);
            drop(body);
            put?;
            Ok(true)
        }
        Part::More => Ok(false),
        Part::End => {
            out.push(b'E')?;
            Ok(false)
        }
        Part::TooLarge(_) => {
            out.push(b'L')?;
            Ok(false)
        }
        Part::Torn => {
            out.push(b'T')?;
            Ok(false)
        }
    }
}

// Puts a body in brackets into a text.
fn put_body(body: &[u8], out: &mut Vec<u8>) -> Result<(), NoMemory> {
    out.push(b'[')?;
    out.extend_from_slice(body)?;
    out.push(b']')?;
    Ok(())
}

// Whether a stream that comes in pieces of so many octets has these bodies, of at most four octets.
fn has_bodies(
    alloc: Global,
    framing: Framing,
    octets: &[u8],
    piece: usize,
    wanted: &[u8],
) -> Result<bool, NoMemory> {
    let mut bodies = Bodies::new(alloc, framing, 4);
    let mut out = Vec::new(alloc);
    for part in octets.chunks(piece.max(1)) {
        bodies.push(part)?;
        for _ in 0..octets.len() + 1 {
            if !put(bodies.next()?, &mut out)? {
                break;
            }
        }
    }
    bodies.end();
    for _ in 0..octets.len() + 2 {
        if !put(bodies.next()?, &mut out)? {
            break;
        }
    }
    drop(bodies);
    Ok(out.as_slice() == wanted)
}

// The same for each size of a piece.
fn always_has(
    alloc: Global,
    framing: Framing,
    octets: &[u8],
    wanted: &[u8],
) -> Result<bool, NoMemory> {
    for piece in 1..octets.len() + 2 {
        if !has_bodies(alloc, framing, octets, piece, wanted)? {
            return Ok(false);
        }
    }
    Ok(true)
}

#[test]
fn bodies_are_cut_out_of_pieces(rt: HostRuntime) -> Result<(), Fail> {
    let alloc = rt.alloc();
    assert!(rt; always_has(alloc, Framing::Lines, b"", b"E")?);
    assert!(rt; always_has(alloc, Framing::Lines, b"a\n\nbc\n", b"[a][][bc]E")?);
    assert!(rt; always_has(alloc, Framing::Lines, b"a\0\nbcde", b"[a\0][bcde]E")?);
    assert!(rt; always_has(alloc, Framing::Zeros, b"a\n\0\0b", b"[a\n][][b]E")?);
    assert!(rt;
        always_has(
            alloc,
            Framing::Lengths,
            b"\0\0\0\x02a\n\0\0\0\0",
            b"[a\n][]E"
        )?
    );
    assert!(rt; always_has(alloc, Framing::Lengths, b"\0\0\0\x02a", b"T")?);
    assert!(rt; always_has(alloc, Framing::Lengths, b"\0\0", b"T")?);
    assert!(rt; has_bodies(alloc, Framing::Lines, b"abcde\n", 6, b"LL")?);
    assert!(rt; has_bodies(alloc, Framing::Lengths, b"\0\0\0\x05", 4, b"LL")?);
    Ok(())
}

// A delivery of an octet, with a name where it has one.
fn come(
    taking: &mut Taking,
    sink: &mut MemorySink,
    tag: u64,
    redelivered: bool,
    body: &[u8],
    name: Option<&[u8]>,
) -> Result<Coming, Untaken> {
    let delivery = Delivery {
        tag,
        redelivered,
        name,
        body,
    };
    taking.come(sink, Framing::Lines, delivery)
}

// Three messages are printed over a link that is lost once the first was acknowledged and answered for, the second
// acknowledged, and the third printed. What comes again is told, and three are counted in the end.
fn story<A: Abort>(rt: &A, taking: &mut Taking, sink: &mut MemorySink) -> Result<(), Untaken> {
    assert!(rt; come(taking, sink, 1, false, b"a", None)? == Coming::Wanted);
    assert!(rt; sink.taken() == b"".as_slice());
    assert!(rt; taking.acknowledge(sink)? == Some(1) && taking.wants_to_ask());
    assert!(rt; sink.taken() == b"a\n".as_slice());
    taking.ask();
    taking.answered()?;
    assert!(rt; taking.counted() == 1 && taking.left() == Some(2));
    assert!(rt; come(taking, sink, 2, false, b"b", None)? == Coming::Wanted);
    assert!(rt; taking.acknowledge(sink)? == Some(2) && taking.acknowledge(sink)? == None);
    assert!(rt; come(taking, sink, 3, false, b"c", None)? == Coming::Wanted);
    assert!(rt; taking.left() == Some(0) && taking.unsent() == Some(1));
    assert!(rt; come(taking, sink, 4, false, b"d", None)? == Coming::Unwanted);
    taking.lose()?;
    assert!(rt; taking.unknown() == 1 && taking.left() == Some(1));
    // The second was read by the broker: the third comes first, and is none of the unknown.
    assert!(rt; come(taking, sink, 1, true, b"c", None)? == Coming::Wanted);
    assert!(rt; taking.counted() == 2 && taking.again() == 1);
    assert!(rt; come(taking, sink, 1, false, b"e", None)? == Coming::Astray);
    assert!(rt; taking.acknowledge(sink)? == Some(1) && taking.unsent() == Some(0));
    taking.ask();
    taking.answered()?;
    assert!(rt; taking.counted() == 3 && taking.may_come_again() && !taking.is_done());
    taking.settle_all()?;
    assert!(rt; taking.is_done() && sink.taken() == b"a\nb\nc\nc\n".as_slice());
    Ok(())
}

// What is not taken is a failure of memory here.
fn passed(told: Result<(), Untaken>) -> Result<(), Fail> {
    match told {
        Ok(()) => Ok(()),
        Err(_) => Err(NoMemory)?,
    }
}

#[test]
fn three_are_taken_over_two_links(rt: HostRuntime) -> Result<(), Fail> {
    let mut sink = MemorySink::new(rt.alloc());
    let mut taking = Taking::new(rt.alloc(), Some(3));
    let told = story(&rt, &mut taking, &mut sink);
    drop(taking);
    drop(sink);
    passed(told)
}

// What was acknowledged on a lost link and not read by the broker comes again.
fn unread<A: Abort>(rt: &A, taking: &mut Taking, sink: &mut MemorySink) -> Result<(), Untaken> {
    assert!(rt; come(taking, sink, 1, false, b"a", None)? == Coming::Wanted);
    assert!(rt; taking.acknowledge(sink)? == Some(1));
    taking.lose()?;
    assert!(rt; taking.left() == Some(0) && !taking.is_done());
    assert!(rt; come(taking, sink, 1, true, b"a", None)? == Coming::Wanted);
    assert!(rt; taking.unknown() == 0 && taking.again() == 1);
    Ok(())
}

#[test]
fn what_was_not_read_comes_again(rt: HostRuntime) -> Result<(), Fail> {
    let mut sink = MemorySink::new(rt.alloc());
    let mut taking = Taking::new(rt.alloc(), Some(1));
    let told = unread(&rt, &mut taking, &mut sink);
    drop(taking);
    drop(sink);
    passed(told)
}

// What was acknowledged, and answered for, comes again where the broker forgot it. It counts once.
fn forgotten<A: Abort>(rt: &A, taking: &mut Taking, sink: &mut MemorySink) -> Result<(), Untaken> {
    assert!(rt; come(taking, sink, 1, false, b"a", None)? == Coming::Wanted);
    assert!(rt; taking.acknowledge(sink)? == Some(1));
    taking.ask();
    taking.answered()?;
    taking.lose()?;
    assert!(rt; taking.counted() == 1 && taking.may_come_again());
    assert!(rt; come(taking, sink, 1, true, b"a", None)? == Coming::Wanted);
    assert!(rt; taking.counted() == 0 && taking.again() == 1 && taking.left() == Some(1));
    assert!(rt; come(taking, sink, 2, true, b"b", None)? == Coming::Wanted);
    assert!(rt; taking.acknowledge(sink)? == Some(2));
    taking.ask();
    taking.answered()?;
    assert!(rt; taking.is_done());
    Ok(())
}

#[test]
fn what_the_broker_forgot_comes_again(rt: HostRuntime) -> Result<(), Fail> {
    let mut sink = MemorySink::new(rt.alloc());
    let mut taking = Taking::new(rt.alloc(), Some(2));
    let told = forgotten(&rt, &mut taking, &mut sink);
    drop(taking);
    drop(sink);
    passed(told)
}

// What has a name that was printed is acknowledged, and not printed, over another link too.
fn named<A: Abort>(rt: &A, taking: &mut Taking, sink: &mut MemorySink) -> Result<(), Untaken> {
    assert!(rt; come(taking, sink, 1, false, b"a", Some(b"n"))? == Coming::Wanted);
    assert!(rt; come(taking, sink, 2, false, b"b", Some(b"n"))? == Coming::Named);
    assert!(rt; come(taking, sink, 3, false, b"c", Some(b"m"))? == Coming::Wanted);
    taking.lose()?;
    assert!(rt; come(taking, sink, 1, true, b"a", Some(b"n"))? == Coming::Named);
    assert!(rt; taking.acknowledge(sink)? == Some(1) && sink.taken() == b"a\nc\n".as_slice());
    Ok(())
}

#[test]
fn a_name_is_printed_once(rt: HostRuntime) -> Result<(), Fail> {
    let mut sink = MemorySink::new(rt.alloc());
    let mut taking = Taking::new(rt.alloc(), None);
    let told = named(&rt, &mut taking, &mut sink);
    drop(taking);
    drop(sink);
    passed(told)
}

#[test]
fn a_name_is_kept(rt: HostRuntime) -> Result<(), Fail> {
    let mut once = Once::new(rt.alloc());
    assert!(rt; !once.has(b"a"));
    once.keep(b"a")?;
    assert!(rt; once.has(b"a") && !once.has(b"b"));
    Ok(())
}
