// A server, and what it replies to reports. Reports and replies are bytes, which follow from the rules by hand.
use crate::comparing::expect_same;
use message_replies::encode_reply;
use message_reports::decoding::decode_report;
use message_values::{CustomCapabilities, ServerToAgent};
use plain_values::{Blob, List, Text, Uid};
use server_core::{CONNECTION_LIMIT, Limits, Server};
use server_lines::{Order, Sightings, run_order};
use server_waves::{Rollouts, ServerDesk};
use std::alloc::Global;
use std::collections::BTreeMap;
use std::process::Abort;

// The agent of most reports.
pub fn uid() -> Uid {
    Uid::of(*b"abcdefghijklmnop")
}

// A server of the capabilities 63 and of no custom ones.
pub fn server(alloc: Global) -> Server {
    let custom = CustomCapabilities {
        capabilities: List::new(alloc),
    };
    Server::new(alloc, 63, custom)
}

// The same, which holds so many agents at most.
pub fn server_within(alloc: Global, limit: usize) -> Server {
    let custom = CustomCapabilities {
        capabilities: List::new(alloc),
    };
    let limits = Limits {
        agents: limit,
        connections: CONNECTION_LIMIT,
    };
    Server::with_limits(alloc, limits, 63, custom)
}

// A server of those capabilities with no rollouts.
pub fn desk(alloc: Global) -> ServerDesk {
    ServerDesk {
        server: server(alloc),
        rollouts: Rollouts::new(alloc),
    }
}

// The answer to an order where nothing is seen of agents and no connection is known.
pub fn answered(rt: &(impl Abort + AllocGlobal), desk: &mut ServerDesk, order: Order) -> Text {
    let seen = Sightings::new(rt.alloc());
    let known: BTreeMap<u64, u64> = BTreeMap::new(rt.alloc());
    run_order(rt.alloc(), desk, &seen, &known, order).expect(rt, "memory")
}

// The reply to a report.
fn reply(
    rt: &(impl Abort + AllocGlobal),
    server: &mut Server,
    report: &[u8],
    fresh: Option<Uid>,
) -> ServerToAgent {
    let report = decode_report(rt.alloc(), report).expect(rt, "a report");
    server.handle_owned(report, fresh).expect(rt, "memory")
}

// The same in bytes.
pub fn told(
    rt: &(impl Abort + AllocGlobal),
    server: &mut Server,
    report: &[u8],
    fresh: Option<Uid>,
) -> Blob {
    let reply = reply(rt, server, report, fresh);
    encode_reply(rt.alloc(), &reply).expect(rt, "memory")
}

// Has the server hear reports, each of which has to get the reply beside it.
pub fn expect(rt: &(impl Abort + AllocGlobal), server: &mut Server, exchanges: &[(&[u8], &[u8])]) {
    for (report, want) in exchanges {
        let reply = told(rt, server, report, None);
        expect_same(rt, &reply.as_slice(), want);
    }
}
