ghost use Rattle.std.specs.Prelude.{◌≡◌, ◌+◌, ◌≤◌, [], ◌++◌, length};
ghost use Rattle.ht_outside.specs.Causes.{HasCause};
ghost use Rattle.ht_outside.specs.Tells.{WriteGrows};
ghost use Rattle.ht_wire.specs.Replies.{IsReplyStatus, phrase_of, closing, reply_head, reply_bytes};

use arrayvec::ArrayVec;
use ht_outside::{Failed, Link};
use http::StatusCode;

// A reply whose head and body fit goes out by one write.
type Piece = ArrayVec<u8, 1024>;

/// Writes a reply with a JSON body. The reply to the `last` request says that the connection
/// closes. It takes no memory.
pub fn write_reply<L: Link>(
    link: &mut L,
    status: u16,
    body: &[u8],
    last: bool,
) -> Result<(), Failed>
    requires { IsReplyStatus status }
    ensures written { WriteGrows (L.Sink.sink_state link.old).written
        (L.Sink.sink_state link.new).written result (reply_bytes status body.now last) }
    ensures beside { L.Source.source_state link.new ≡ L.Source.source_state link.old }
    ensures same { L.same link.old link.new }
    ensures cause { HasCause (L.Sink.sink_state link.old).faults (L.Sink.sink_state link.new).faults
        result }
{
    let mut piece = Piece::new();
    put_head(status, body.len(), last, &mut piece);
    if piece.remaining_capacity() < body.len() {
        return write_both(link, &piece, body);
    }
    put(&mut piece, body);
    link.write(&piece)
}

// By two writes.
fn write_both<L: Link>(link: &mut L, first: &[u8], second: &[u8]) -> Result<(), Failed>
    ensures written { WriteGrows (L.Sink.sink_state link.old).written
        (L.Sink.sink_state link.new).written result (first.now ++ second.now) }
    ensures beside { L.Source.source_state link.new ≡ L.Source.source_state link.old }
    ensures same { L.same link.old link.new }
    ensures cause { HasCause (L.Sink.sink_state link.old).faults (L.Sink.sink_state link.new).faults
        result }
{
    link.write(first)?;
    link.write(second)
}

// The status line and the fields.
fn put_head(status: u16, length: usize, last: bool, head: &mut Piece)
    requires known { IsReplyStatus status }
    requires empty { head.old.items ≡ [] }
    ensures { head.new.items ≡ reply_head status length last }
{
    let mut digits = itoa::Buffer::new();
    put(head, b"HTTP/1.1 ");
    put(head, digits.format(status).as_bytes());
    put(head, b" ");
    put(head, phrase(status).as_bytes());
    put(
        head,
        b"\r\ncontent-type: application/json\r\ncontent-length: ",
    );
    put(head, digits.format(length).as_bytes());
    put(head, b"\r\n");
    put(head, closing_field(last));
    put(head, b"\r\n");
}

fn put(piece: &mut Piece, bytes: &[u8])
    requires { length piece.old.items + length bytes.now ≤ 1024 }
    ensures { piece.new.items ≡ piece.old.items ++ bytes.now }
{
    let _ = piece.try_extend_from_slice(bytes);
}

fn phrase(status: u16) -> &'static str
    requires { IsReplyStatus status }
    ensures value { result.now ≡ phrase_of status }
    ensures short { length result.now ≤ 31 }
{
    match StatusCode::from_u16(status) {
        Ok(code) => match code.canonical_reason() {
            Some(phrase) => phrase,
            None => "",
        },
        Err(_) => unreachable!(),
    }
}

fn closing_field(last: bool) -> &'static [u8]
    ensures value { result.now ≡ closing last }
    ensures short { length result.now ≤ 19 }
{
    if last { b"connection: close\r\n" } else { b"" }
}
