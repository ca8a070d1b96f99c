use crate::runs::{reply, run};
use ht_program::Status;
use std::alloc::Global;
use std::process::Abort;
use std::test::Fail;

// An input that is refused ends the connection, and the run with status 1.
fn is_refused(
    rt: &impl Abort,
    alloc: Global,
    input: &str,
    line: &str,
    fault: &str,
    complaint: &str,
) -> Result<(), Fail> {
    let ran = run(alloc, input)?;
    let text = format!(in alloc; "{{\"fault\":\"{fault}\"}}")?;
    let want = reply(alloc, line, text.as_str(), true)?;
    assert_eq!(rt; ran.status, Status(1), "{input:?}");
    assert_eq!(rt; ran.output.written(), want.as_bytes(), "{input:?}");
    assert_eq!(rt; ran.complaints.written(), complaint.as_bytes());
    Ok(())
}

#[test]
fn an_input_that_is_no_request_is_refused(rt: HostRuntime) -> Result<(), Fail> {
    let head = ("400 Bad Request", "Head", "wire: 400\n");
    let fields = (
        "431 Request Header Fields Too Large",
        "Fields",
        "wire: 431\n",
    );
    let body = ("413 Payload Too Large", "Body", "wire: 413\n");
    let coding = ("501 Not Implemented", "Coding", "wire: 501\n");
    let begin = "POST /tasks HTTP/1.1\r\n";
    let many = "a: b\r\n".repeat(rt.alloc(), 65)?;
    let long = "x".repeat(rt.alloc(), 16_385 - begin.len() - 7)?;
    let many = format!(in rt.alloc(); "{begin}{many}\r\n")?;
    let long = format!(in rt.alloc(); "{begin}a: {long}\r\n\r\n")?;
    assert_eq!(rt; long.len(), 16_385);
    let table = [
        ("POST", head),
        ("POST /tasks HTTP/1.1\r\nx-person: p0\r\n\r", head),
        ("?? /tasks\r\n\r\n", head),
        ("POST /tasks HTTP/1.1\r\nContent-Length: 3\r\n\r\n{}", head),
        ("POST / HTTP/1.1\r\nContent-Length: 1048577\r\n\r\n", body),
        (
            "POST /tasks HTTP/1.1\r\nTransfer-Encoding: chunked\r\n\r\n",
            coding,
        ),
        (many.as_str(), fields),
        (long.as_str(), fields),
    ];
    for (input, (line, fault, complaint)) in table {
        is_refused(&rt, rt.alloc(), input, line, fault, complaint)?;
    }
    Ok(())
}
