//! Frames, messages and replies of the protocol.

use serde_json::Value;
use std::alloc::{AllocError, Global};
use std::test::Fail;
use wgsl_server_protocol::{
    ErrorCode, Frame, FrameReader, Front, Life, Message, Outcome, Phase, Service, Step, failure,
    framed, notification, reply_of, success,
};

#[test]
fn frames(rt: HostRuntime) -> Result<(), Fail> {
    let alloc = rt.alloc();
    let all = framed(alloc, b"{\"a\":1}")?;
    assert!(rt; all.as_slice() == b"Content-Length: 7\r\n\r\n{\"a\":1}".as_slice());

    // The bytes that came, and what is at the front where a message has at most 20 bytes.
    let rows: [(&[u8], Front); 9] = [
        (b"", Front::Partial),
        (b"Content-Length: 2\r\n\r", Front::Partial),
        (b"Content-Length: 2\r\n\r\n{", Front::Partial),
        (b"Content-Length: 2\r\n\r\n{}Con", Front::Whole(21, 23)),
        (
            b"content-type: a\r\nCONTENT-LENGTH:0\r\n\r\n",
            Front::Whole(37, 37),
        ),
        (b"Content-Length: 21\r\n\r\n", Front::TooLarge(22, 21)),
        (b"Content-Length: -2\r\n\r\n{}", Front::Malformed(22)),
        (b"Content-Type: a\r\n\r\n{}", Front::Malformed(19)),
        (
            b"Content-Length: 2 \xc3\xa9\r\n\r\n{}",
            Front::Malformed(24),
        ),
    ];
    for (bytes, front) in rows {
        assert_eq!(rt; Front::of(bytes, 20), front);
    }
    Ok(())
}

/// Feeds a reader of messages of at most 4 bytes a piece, and returns what it reads next.
fn next_of(reader: &mut FrameReader, alloc: Global, piece: &[u8]) -> Result<&'static str, Fail> {
    reader.feed(piece)?;
    Ok(match reader.read(alloc, 4)? {
        Some(Frame::Message(body)) if body.as_slice() == b"[1]".as_slice() => "[1]",
        Some(Frame::Message(_)) => "another message",
        Some(Frame::Malformed) => "malformed",
        Some(Frame::TooLarge) => "too large",
        None => "nothing",
    })
}

#[test]
fn streams(rt: HostRuntime) -> Result<(), Fail> {
    let alloc = rt.alloc();
    let mut reader = FrameReader::new(alloc);
    let rows: [(&[u8], &str); 8] = [
        (b"Content-Le", "nothing"),
        (b"ngth: 3\r\n\r\n[1", "nothing"),
        (b"]Content-Length: 3\r\n\r\n[1]", "[1]"),
        (b"", "[1]"),
        (b"Content-Length: 9\r\n\r\n[1234", "too large"),
        (b"5678Content-Type: a\r\n\r\nCont", "malformed"),
        (b"ent-Length: 3\r\n\r\n[1]", "[1]"),
        (b"", "nothing"),
    ];
    for (piece, found) in rows {
        assert!(rt; next_of(&mut reader, alloc, piece)? == found);
    }
    Ok(())
}

/// What a text is as a message: its kind, and its method where it has one.
fn kind_of(message: Message<'_>) -> (&'static str, &str) {
    match message {
        Message::Request(_, method) => ("request", method),
        Message::Notification(method) => ("notification", method),
        Message::Response => ("response", ""),
        Message::Invalid => ("invalid", ""),
    }
}

#[test]
fn messages(rt: HostRuntime) -> Result<(), Fail> {
    let alloc = rt.alloc();
    let rows = [
        ("{\"id\":1,\"method\":\"a\",\"params\":[]}", "request", "a"),
        (
            "{\"id\":\"x\",\"method\":\"shutdown\"}",
            "request",
            "shutdown",
        ),
        ("{\"method\":\"exit\"}", "notification", "exit"),
        ("{\"id\":1,\"result\":null}", "response", ""),
        ("{\"id\":1,\"error\":{}}", "response", ""),
        ("{\"id\":1}", "invalid", ""),
        ("{\"id\":1,\"method\":2}", "invalid", ""),
        ("[]", "invalid", ""),
    ];
    for (text, kind, method) in rows {
        let value = Value::from_str(alloc, text)?;
        let found = kind_of(Message::of(&value));
        assert!(rt; found.0 == kind && found.1 == method);
    }
    Ok(())
}

#[test]
fn replies(rt: HostRuntime) -> Result<(), Fail> {
    let alloc = rt.alloc();
    let id = Value::from(3u64);
    let done = success(alloc, &id, &Value::Null)?.to_string(alloc)?;
    assert!(rt; done.as_str() == "{\"id\":3,\"jsonrpc\":\"2.0\",\"result\":null}");
    let failed = failure(alloc, &id, ErrorCode::MethodNotFound, "no")?.to_string(alloc)?;
    assert!(rt;
        failed.as_str()
            == "{\"error\":{\"code\":-32601,\"message\":\"no\"},\"id\":3,\"jsonrpc\":\"2.0\"}"
    );
    let unknown = reply_of(alloc, &id, &Outcome::Unknown)?.to_string(alloc)?;
    assert!(rt;
        unknown.as_str()
            == "{\"error\":{\"code\":-32601,\"message\":\"unknown method\"},\"id\":3,\"jsonrpc\":\"2.0\"}"
    );
    let sent = notification(alloc, "a/b", &id)?.to_string(alloc)?;
    assert!(rt; sent.as_str() == "{\"jsonrpc\":\"2.0\",\"method\":\"a/b\",\"params\":3}");
    Ok(())
}

#[test]
fn phases(rt: HostRuntime) -> Result<(), Fail> {
    let early = Phase::Starting.refusal("textDocument/hover");
    assert_eq!(rt; early, Some(ErrorCode::ServerNotInitialized));
    assert_eq!(rt; Phase::Starting.refusal("initialize"), None);
    assert_eq!(rt;
        Phase::Starting.notification_step("exit"),
        Step::Exit(false)
    );
    assert_eq!(rt; Phase::Starting.after_request("initialize"), Phase::Running);
    let again = Phase::Running.refusal("initialize");
    assert_eq!(rt; again, Some(ErrorCode::InvalidRequest));
    assert_eq!(rt; Phase::Running.refusal("shutdown"), None);
    assert_eq!(rt; Phase::Running.after_request("shutdown"), Phase::Stopped);
    let late = Phase::Stopped.refusal("shutdown");
    assert_eq!(rt; late, Some(ErrorCode::InvalidRequest));
    assert_eq!(rt; Phase::Stopped.notification_step("exit"), Step::Exit(true));
    Ok(())
}

/// A service with one method, which counts what it is told.
#[derive(Drop)]
struct Counter {
    told: u64,
}

impl Service for Counter {
    fn request(
        &mut self,
        _alloc: Global,
        method: &str,
        _params: Option<&Value>,
    ) -> Result<Outcome, AllocError> {
        if method == "count" {
            Ok(Outcome::Done(Value::from(self.told)))
        } else if method == "initialize" || method == "shutdown" {
            Ok(Outcome::Done(Value::Null))
        } else {
            Ok(Outcome::Unknown)
        }
    }

    fn notify(
        &mut self,
        _alloc: Global,
        _method: &str,
        _params: Option<&Value>,
    ) -> Result<(), AllocError> {
        self.told = self.told.saturating_add(1);
        Ok(())
    }
}

#[test]
fn sessions(rt: HostRuntime) -> Result<(), Fail> {
    let alloc = rt.alloc();
    let mut service = Counter { told: 0 };
    let mut life = Life {
        phase: Phase::Starting,
        ended: None,
    };

    // Each message with its reply, or an empty text for none.
    let rows = [
        (
            "{\"id\":1,\"method\":\"count\"}",
            "{\"error\":{\"code\":-32002,\"message\":\"not now\"},\"id\":1,\"jsonrpc\":\"2.0\"}",
        ),
        ("{\"method\":\"tell\"}", ""),
        (
            "{\"id\":2,\"method\":\"initialize\"}",
            "{\"id\":2,\"jsonrpc\":\"2.0\",\"result\":null}",
        ),
        ("{\"method\":\"tell\"}", ""),
        (
            "{\"id\":\"a\",\"method\":\"count\"}",
            "{\"id\":\"a\",\"jsonrpc\":\"2.0\",\"result\":1}",
        ),
        (
            "{\"id\":3,\"method\":\"b\"}",
            "{\"error\":{\"code\":-32601,\"message\":\"unknown method\"},\"id\":3,\"jsonrpc\":\"2.0\"}",
        ),
        ("{\"id\":3,\"result\":4}", ""),
        (
            "7",
            "{\"error\":{\"code\":-32600,\"message\":\"no message\"},\"id\":null,\"jsonrpc\":\"2.0\"}",
        ),
        (
            "{\"id\":4,\"method\":\"shutdown\"}",
            "{\"id\":4,\"jsonrpc\":\"2.0\",\"result\":null}",
        ),
        (
            "{\"id\":5,\"method\":\"count\"}",
            "{\"error\":{\"code\":-32600,\"message\":\"not now\"},\"id\":5,\"jsonrpc\":\"2.0\"}",
        ),
        ("{\"method\":\"exit\"}", ""),
    ];
    for (text, wanted) in rows {
        let value = Value::from_str(alloc, text)?;
        let found = match life.receive(alloc, &mut service, &value)? {
            Some(reply) => reply.to_string(alloc)?,
            None => String::new(alloc),
        };
        assert!(rt; found.as_str() == wanted);
    }
    assert_eq!(rt; life.ended, Some(true));
    assert_eq!(rt; service.told, 1);
    Ok(())
}
