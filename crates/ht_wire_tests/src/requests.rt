ghost use Rattle.std.specs.Prelude.{◌≡◌, ◌≤◌, Some, length};
ghost use Rattle.ht_outside.specs.Causes.{HasCause};
ghost use Rattle.ht_outside.specs.Tells.{ReadTakes};

use ht_base::Bytes;
use ht_outside::{Failed, Link, MemorySink, MemorySource, Pair, Source};
use ht_wire::{Buffer, Next, Request, next_request, write_reply};
use std::alloc::Global;
use std::process::Abort;
use std::test::Fail;

fn link(alloc: Global, bytes: &[u8]) -> Result<Pair<MemorySource, MemorySink>, Fail> {
    let input = MemorySource::make(alloc, Bytes::of(alloc, bytes)?, Vec::new(alloc))?;
    let output = MemorySink::make(alloc, Vec::new(alloc))?;
    Ok(Pair { input, output })
}

// A source that gives one byte a read.
#[derive(Drop)]
struct Drip {
    source: MemorySource,
}

impl Source for Drip {
    ghost source_state = { λ s. record { flow = Some s.source.flow; faults = s.source.faults } };

    fn read(&mut self, into: &mut [u8]) -> Result<usize, Failed>
        ensures bytes { ReadTakes (Some self.old.source.flow) (Some self.new.source.flow) result
            into.new }
        ensures last { self.new.source.flow.before ≡ self.old.source.flow.taken }
        ensures cause { HasCause self.old.source.faults self.new.source.faults result }
    {
        let most = into.len().min(1);
        self.source.read(&mut into[..most])
    }
}

// What stands in the bytes, a word each, read in large pieces.
fn read_whole(alloc: Global, bytes: &[u8]) -> Result<String, Fail> {
    let mut link = link(alloc, bytes)?;
    read_from(alloc, &mut link)
}

// The same, read byte by byte.
fn read_dripping(alloc: Global, bytes: &[u8]) -> Result<String, Fail> {
    let Pair {
        input: source,
        output,
    } = link(alloc, bytes)?;
    let input = Drip { source };
    read_from(alloc, &mut Pair { input, output })
}

// The same, in both ways.
fn read(alloc: Global, bytes: &[u8]) -> Result<String, Fail> {
    let text = read_whole(alloc, bytes)?;
    let again = read_dripping(alloc, bytes)?;
    if text != again {
        return Err(Fail::from("the cut into reads matters"));
    }
    Ok(text)
}

// The persons of the requests (`-` where there is none), `last` behind a last one, `:` and the body
// behind one that has one, and then the end.
fn read_from<L: Link>(alloc: Global, link: &mut L) -> Result<String, Fail> {
    let mut buffer = Buffer::new(alloc)?;
    let mut text = String::new(alloc);
    for _ in 0..100 {
        if !read_next(alloc, link, &mut buffer, &mut text)? {
            break;
        }
    }
    Ok(text)
}

fn read_next<L: Link>(
    alloc: Global,
    link: &mut L,
    buffer: &mut Buffer,
    text: &mut String,
) -> Result<bool, Fail> {
    let next = next_request(alloc, link, buffer);
    put_next(&next, text)
}

// Puts the word for what came, and answers whether it was a request.
fn put_next(next: &Next, text: &mut String) -> Result<bool, Fail> {
    match next {
        Next::Request(request) => {
            put_request(request, text)?;
            return Ok(true);
        }
        Next::End => text.push_str("end")?,
        Next::Refused(code) => text.push_str(itoa::Buffer::new().format(*code))?,
        Next::ReadFault => text.push_str("fault")?,
        Next::Memory => text.push_str("memory")?,
    }
    Ok(false)
}

fn put_request(request: &Request, text: &mut String) -> Result<(), Fail> {
    match request.person {
        Some(person) => text.push_str(person.as_str())?,
        None => text.push('-')?,
    }
    if request.last {
        text.push_str(" last")?;
    }
    let body = str::from_utf8(request.body.as_slice())?;
    if body.is_empty() {
        text.push(' ')?;
    } else {
        write!(text, ":{body} ")?;
    }
    Ok(())
}

const TWO: &[u8] =
    b"POST / HTTP/1.1\r\nx-person: p1\r\ncontent-length: 5\r\n\r\n{   }GET / HTTP/1.1\r\n\r\n";

// What stands in two requests, of which the first has a body, where they end after so many bytes.
fn wanted_of_two(cut: usize) -> &'static str {
    let first = TWO.len() - 18;
    if cut == 0 {
        "end"
    } else if cut < first {
        "400"
    } else if cut == first {
        "p1:{   } end"
    } else if cut < TWO.len() {
        "p1:{   } 400"
    } else {
        "p1:{   } - end"
    }
}

fn is_cut(rt: &impl Abort, alloc: Global, bytes: &[u8], cut: usize, want: &str) -> Result<(), Fail>
    requires { cut ≤ length bytes.now }
{
    let text = read(alloc, &bytes[..cut])?;
    assert_eq!(rt; text.as_str(), want, "cut after {cut}");
    Ok(())
}

#[test]
fn a_body_that_is_cut_is_refused(rt: HostRuntime) -> Result<(), Fail> {
    for cut in 0..=TWO.len() {
        is_cut(&rt, rt.alloc(), TWO, cut, wanted_of_two(cut))?;
    }
    Ok(())
}

fn is_patch(rt: &impl Abort, next: &Next) {
    match next {
        Next::Request(request) => {
            assert_eq!(rt; request.method.as_str(), "PATCH");
            assert_eq!(rt; request.target.as_slice(), b"/tasks/1".as_slice());
            assert_eq!(rt; request.body.as_slice(), b"\r\n{}".as_slice());
        }
        _ => assert!(rt; false, "no request"),
    }
}

fn first_of(alloc: Global, bytes: &[u8]) -> Result<Next, Fail> {
    let mut link = link(alloc, bytes)?;
    let mut buffer = Buffer::new(alloc)?;
    Ok(next_request(alloc, &mut link, &mut buffer))
}

#[test]
fn a_request_has_its_parts(rt: HostRuntime) -> Result<(), Fail> {
    let bytes =
        b"PATCH /tasks/1 HTTP/1.1\r\nHost: a\r\nx-person: anna\r\nContent-Length: 4\r\n\r\n\r\n{}GET";
    let next = first_of(rt.alloc(), bytes)?;
    is_patch(&rt, &next);
    Ok(())
}

#[test]
fn replies_are_written(rt: HostRuntime) -> Result<(), Fail> {
    let mut link = link(rt.alloc(), b"")?;
    assert!(rt; write_reply(&mut link, 200, b"{}", false).is_ok());
    assert!(rt; write_reply(&mut link, 507, b"", true).is_ok());
    let want = "HTTP/1.1 200 OK\r\ncontent-type: application/json\r\ncontent-length: 2\r\n\r\n{}\
        HTTP/1.1 507 Insufficient Storage\r\ncontent-type: application/json\r\n\
        content-length: 0\r\nconnection: close\r\n\r\n";
    assert_eq!(rt; link.output.written(), want.as_bytes());
    Ok(())
}
