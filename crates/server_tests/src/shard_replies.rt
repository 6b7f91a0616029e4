// The replies that rows keep by their parts.
use crate::comparing::expect_same;
use crate::shard_reports::report;
use message_values::{AgentToServer, ServerToAgent};
use plain_values::Blob;
use shard_servers::{Journal, Row};
use std::process::Abort;
use std::test::*;

// The row of a report that is the first of all.
fn first_row<'a>(rt: &(impl Abort + AllocGlobal), item: &'a AgentToServer) -> Row<'a> {
    let mut journal = Journal::new(rt.alloc());
    journal.handle(0, 0, item).expect(rt, "memory")
}

// A server that has nothing of an agent asks for its full state (0x1 of "ServerToAgentFlags"), and has the capabilities
// AcceptsStatus (0x1) and AcceptsEffectiveConfig (0x4).
#[test]
fn a_row_has_the_reply(rt: HostRuntime) {
    let item = report(&rt, 7, 1);
    let row = first_row(&rt, &item);
    let reply = row.again().message(rt.alloc()).expect(&rt, "memory");
    expect_same(&rt, &reply.instance_uid.as_slice().len(), &16);
    expect_same(&rt, &reply.flags, &1);
    expect_same(&rt, &reply.capabilities, &5);
    assert!(rt; reply.error_response.is_none());
    drop(reply);
    drop(row);
    drop(item);
}

// Whether the reply has the error of this type and message.
fn has_error(reply: &ServerToAgent, kind: i32, message: &str) -> bool {
    match &reply.error_response {
        Some(error) => error.kind == kind && error.error_message.as_str() == message,
        None => false,
    }
}

// An identifier that hasn't 16 bytes is a bad request (1 of "ServerErrorResponseType").
#[test]
fn a_row_has_the_error(rt: HostRuntime) {
    let mut item = report(&rt, 7, 1);
    item.instance_uid = Blob::of(Vec::from_slice(rt.alloc(), &[1, 2, 3]).expect(&rt, "memory"));
    let row = first_row(&rt, &item);
    let reply = row.message(rt.alloc()).expect(&rt, "memory");
    expect_same(&rt, &reply.instance_uid.as_slice().len(), &3);
    assert!(rt; has_error(&reply, 1, "bad instance_uid"));
    drop(reply);
    drop(row);
    drop(item);
}
