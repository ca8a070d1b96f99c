use ht_base::{Bytes, Memory, Txt};
use ht_outside::{
    Failed, FileTexts, LentPair, Link, MemorySink, MemorySource, MemoryTexts, Pair, Sink, Source,
    StdSink, StdSource, TextFault, Texts,
};
use std::alloc::Global;
use std::test::Fail;
use std::{env, fs, process};

fn source(alloc: Global, bytes: &[u8], failing: &[u32]) -> Result<MemorySource, Fail> {
    let failing = Vec::from_slice(alloc, failing)?;
    Ok(MemorySource::make(alloc, Bytes::of(alloc, bytes)?, failing)?)
}

fn sink(alloc: Global, failing: &[u32]) -> Result<MemorySink, Fail> {
    Ok(MemorySink::make(alloc, Vec::from_slice(alloc, failing)?)?)
}

// Reads once and writes what was read, through any link.
fn echo<L: Link>(link: &mut L) -> Result<usize, Failed> {
    let mut piece = [0; 4];
    let count = link.read(&mut piece)?;
    link.write(&piece[..count])?;
    Ok(count)
}

#[test]
fn a_source_in_memory_gives_its_bytes(rt: HostRuntime) -> Result<(), Fail> {
    let mut source = source(rt.alloc(), b"claim", &[2])?;
    let mut into = [0; 3];
    assert_eq!(rt; source.read(&mut into), Ok(3));
    assert_eq!(rt; into.as_slice(), b"cla".as_slice());
    assert_eq!(rt; source.read(&mut into), Err(Failed));
    assert_eq!(rt; source.left(), b"im".as_slice());
    assert_eq!(rt; source.read(&mut []), Ok(0));
    assert_eq!(rt; source.read(&mut into), Ok(2));
    assert_eq!(rt; source.read(&mut into), Ok(0));
    Ok(())
}

#[test]
fn a_sink_in_memory_keeps_what_is_written(rt: HostRuntime) -> Result<(), Fail> {
    let mut sink = sink(rt.alloc(), &[2])?;
    assert_eq!(rt; sink.write(b"re"), Ok(()));
    assert_eq!(rt; sink.write(b"lost"), Err(Failed));
    assert_eq!(rt; sink.write(b"ply"), Ok(()));
    assert_eq!(rt; sink.written(), b"reply".as_slice());
    Ok(())
}

#[test]
fn a_pair_is_a_link(rt: HostRuntime) -> Result<(), Fail> {
    let input = source(rt.alloc(), b"abcdef", &[])?;
    let output = sink(rt.alloc(), &[])?;
    let mut link = Pair { input, output };
    assert_eq!(rt; echo(&mut link), Ok(4));
    assert_eq!(rt; echo(&mut link), Ok(2));
    assert_eq!(rt; echo(&mut link), Ok(0));
    assert_eq!(rt; link.output.written(), b"abcdef".as_slice());
    Ok(())
}

// The same twice, through two streams that are lent.
fn echo_lent<S: Source, K: Sink>(input: &mut S, output: &mut K) -> Result<usize, Failed> {
    let mut link = LentPair { input, output };
    let first = echo(&mut link);
    let second = echo(&mut link);
    let LentPair {
        input: _,
        output: _,
    } = link;
    Ok(first?.saturating_add(second?))
}

#[test]
fn two_streams_that_are_lent_are_a_link(rt: HostRuntime) -> Result<(), Fail> {
    let mut input = source(rt.alloc(), b"abcdef", &[])?;
    let mut output = sink(rt.alloc(), &[])?;
    assert_eq!(rt; echo_lent(&mut input, &mut output), Ok(6));
    assert_eq!(rt; input.left(), b"".as_slice());
    assert_eq!(rt; output.written(), b"abcdef".as_slice());
    Ok(())
}

#[test]
fn readers_and_writers_of_std_are_taken(rt: HostRuntime) -> Result<(), Fail> {
    let text: &[u8] = b"abc";
    let mut source = StdSource::new(text);
    let mut into = [0; 8];
    assert_eq!(rt; source.read(&mut into), Ok(3));
    assert_eq!(rt; source.read(&mut into), Ok(0));
    let mut sink = StdSink::new(Vec::new(rt.alloc()));
    assert_eq!(rt; sink.write(b"abc"), Ok(()));
    assert_eq!(rt; sink.write(b""), Ok(()));
    Ok(())
}

// Each text with its name in front.
fn named(alloc: Global, texts: &[(&str, &str)]) -> Result<Vec<(Txt, Bytes)>, Memory> {
    let mut named = Vec::new(alloc);
    for (name, text) in texts {
        named.push((Txt::of(alloc, name)?, Bytes::of(alloc, text.as_bytes())?))?;
    }
    Ok(named)
}

// Whether a read answered these bytes, or this fault.
fn is_answer(read: &Result<Bytes, TextFault>, want: Result<&[u8], TextFault>) -> bool {
    match (read, want) {
        (Ok(bytes), Ok(want)) => bytes.as_slice() == want,
        (Err(fault), Err(want)) => *fault == want,
        _ => false,
    }
}

#[test]
fn texts_in_memory_are_read_by_name(rt: HostRuntime) -> Result<(), Fail> {
    let alloc = rt.alloc();
    let texts = named(
        alloc,
        &[("people", "ann"), ("models", "unit"), ("people", "ben")],
    )?;
    let mut texts = MemoryTexts::make(alloc, texts, Vec::from_slice(alloc, &[3, 6])?)?;
    let reads: [(&str, u32, Result<&[u8], TextFault>); 7] = [
        ("people", 3, Ok(b"ann")),
        ("people", 2, Err(TextFault::TooLong)),
        ("people", 3, Err(TextFault::Failed)),
        ("people", 3, Ok(b"ann")),
        ("models", 4, Ok(b"unit")),
        ("models", 3, Err(TextFault::Failed)),
        ("nobody", 0, Ok(b"")),
    ];
    for (name, limit, want) in reads {
        assert!(rt;
            is_answer(&texts.read(alloc, name, limit), want),
            "{name} up to {limit}"
        );
    }
    let last = texts.asked().last();
    assert!(rt; last.is_some_and(|asked| asked.name.as_str() == "nobody" && asked.before == 2));
    Ok(())
}

#[test]
fn files_are_texts(rt: HostRuntime) -> Result<(), Fail> {
    let alloc = rt.alloc();
    let number = process::id(rt.process());
    let name = format!(in alloc; "ht_outside-{number}.txt")?;
    let path = env::temp_dir(&rt)?.join(alloc, name.as_str())?;
    let mut text = vec![in alloc; b'x'; 70_000]?;
    text.extend_from_slice(b"end")?;
    fs::write(&rt, path.as_path(), text.as_slice())?;
    let mut texts = FileTexts::new(alloc, &rt);
    let whole = texts.read(alloc, path.as_str(), 70_003);
    let longer = texts.read(alloc, path.as_str(), 70_002);
    fs::remove_file(&rt, path.as_path())?;
    let missing = texts.read(alloc, path.as_str(), 70_003);
    assert!(rt; is_answer(&whole, Ok(text.as_slice())));
    assert!(rt; is_answer(&longer, Err(TextFault::TooLong)));
    assert!(rt; is_answer(&missing, Err(TextFault::Failed)));
    Ok(())
}
