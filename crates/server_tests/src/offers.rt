// Offers and orders to an agent. The hashes are those that Python's `hashlib.sha256` gives of the bytes of the offer without
// its hash, which were written by hand.
use crate::comparing::expect_same;
use crate::exchanges::{expect, server, uid};
use message_replies::encode_reply;
use message_values::{DownloadableFile, OpAMPConnectionSettings, PackageAvailable};
use plain_values::{AgentConfigFile, AgentConfigMap, Blob, Map, Text};
use server_core::{Offer, OfferFail, Server};
use std::process::Abort;

fn text(rt: &(impl Abort + AllocGlobal), text: &str) -> Text {
    Text::of(String::from_str(rt.alloc(), text).expect(rt, "memory"))
}

// One file of this name and body.
fn files(rt: &(impl Abort + AllocGlobal), name: &str, body: Vec<u8>) -> AgentConfigMap {
    let mut config_map = Map::new(rt.alloc());
    let file = AgentConfigFile {
        body: Blob::of(body),
        content_type: Text::of(String::new(rt.alloc())),
    };
    config_map.put(text(rt, name), file).expect(rt, "memory");
    AgentConfigMap { config_map }
}

// The package `p`, whose file lies at `http://h/p`.
fn packages(rt: &(impl Abort + AllocGlobal), version: Text) -> Map<PackageAvailable> {
    let download_url = text(rt, "http://h/p");
    let content_hash = Blob::of(Vec::from_slice(rt.alloc(), b"\x00\xff").expect(rt, "memory"));
    let package = PackageAvailable {
        kind: 0,
        version,
        file: Some(DownloadableFile {
            download_url,
            content_hash,
            signature: Blob::of(Vec::new(rt.alloc())),
        }),
        hash: Blob::of(Vec::new(rt.alloc())),
    };
    let mut packages = Map::new(rt.alloc());
    packages.put(text(rt, "p"), package).expect(rt, "memory");
    packages
}

fn connection(destination_endpoint: Text) -> OpAMPConnectionSettings {
    OpAMPConnectionSettings {
        destination_endpoint,
        headers: None,
        certificate: None,
        heartbeat_interval_seconds: 0,
    }
}

// What becomes of these offers to the agent.
fn offer_file(
    rt: &(impl Abort + AllocGlobal),
    server: &mut Server,
    name: &str,
    body: Vec<u8>,
) -> Option<OfferFail> {
    let files = files(rt, name, body);
    server.offer(&uid(), Offer::Config(files)).err()
}

fn offer_package(
    rt: &(impl Abort + AllocGlobal),
    server: &mut Server,
    version: Text,
) -> Option<OfferFail> {
    let packages = packages(rt, version);
    server.offer(&uid(), Offer::Packages(packages)).err()
}

fn offer_endpoint(server: &mut Server, endpoint: Text) -> Option<OfferFail> {
    server
        .offer(&uid(), Offer::Connection(connection(endpoint)))
        .err()
}

// The file `../x` of `hi`, the package `p` of the version 1, and the endpoint `http://s1`.
fn offer_all(rt: &(impl Abort + AllocGlobal), server: &mut Server) -> [Option<OfferFail>; 3] {
    let body = Vec::from_slice(rt.alloc(), b"hi").expect(rt, "memory");
    let file = offer_file(rt, server, "../x", body);
    let package = offer_package(rt, server, text(rt, "1"));
    let endpoint = offer_endpoint(server, text(rt, "http://s1"));
    [file, package, endpoint]
}

#[test]
fn no_such_agent(rt: HostRuntime) {
    let alloc = rt.alloc();
    let mut server = server(alloc);
    let unknown = Some(OfferFail::UnknownAgent);
    let offered = offer_all(&rt, &mut server);
    let ordered = server.order_restart(&uid()).err();
    let is_silent = is_pushed(&rt, &server, None);
    drop(server);
    expect_same(&rt, &offered, &[unknown; 3]);
    expect_same(&rt, &ordered, &unknown);
    assert!(rt; is_silent);
}

// Whether the message that is pushed to the agent is this one, if any.
fn is_pushed(rt: &(impl Abort + AllocGlobal), server: &Server, want: Option<&[u8]>) -> bool {
    match server.pushed(&uid()).expect(rt, "memory") {
        Some(message) => {
            let bytes = encode_reply(rt.alloc(), &message).expect(rt, "memory");
            want == Some(bytes.as_slice())
        }
        None => want.is_none(),
    }
}

// The first report of an agent that takes offers of each kind and the command to restart, and is obliged to nothing.
const FIRST: &[u8] = b"\x0a\x10abcdefghijklmnop\x10\x01\x1a\x00\x20\x8b\x0a";

const PLAIN: &[u8] = b"\x0a\x10abcdefghijklmnop\x38\x3f";

const RESTART: &[u8] = b"\x0a\x10abcdefghijklmnop\x38\x3f\x4a\x00";

const CONFIG: &[u8] =
    b"\x0a\x10abcdefghijklmnop\x1a\x32\x0a\x0e\x0a\x0c\x0a\x04../x\x12\x04\x0a\x02hi\x12\x20\x93\x1f\xcc\x8d\xc8\x0e\xc2\x24\xd1\xf1\xec\x50\x8b\x95\xcf\x14\x65\xb3\x81\x0b\x45\x01\x42\x0b\x00\xc0\x0f\xca\xc1\x41\xd5\x76\x38\x3f";

const CONNECTION: &[u8] =
    b"\x0a\x10abcdefghijklmnop\x22\x2f\x0a\x20\x18\xc1\x08\x04\x2a\x31\xbe\xae\x63\x0f\x09\x31\xd5\xaa\xbb\x70\x20\xa8\x9d\x1e\xb7\x83\xb6\x1e\xf5\xfc\xa0\x3a\x89\x52\xa9\xed\x12\x0b\x0a\x09http://s1\x38\x3f";

const ALL: &[u8] =
    b"\x0a\x10abcdefghijklmnop\x1a\x32\x0a\x0e\x0a\x0c\x0a\x04../x\x12\x04\x0a\x02hi\x12\x20\x93\x1f\xcc\x8d\xc8\x0e\xc2\x24\xd1\xf1\xec\x50\x8b\x95\xcf\x14\x65\xb3\x81\x0b\x45\x01\x42\x0b\x00\xc0\x0f\xca\xc1\x41\xd5\x76\x22\x2f\x0a\x20\x18\xc1\x08\x04\x2a\x31\xbe\xae\x63\x0f\x09\x31\xd5\xaa\xbb\x70\x20\xa8\x9d\x1e\xb7\x83\xb6\x1e\xf5\xfc\xa0\x3a\x89\x52\xa9\xed\x12\x0b\x0a\x09http://s1\x2a\x60\x0a\x3c\x0a\x01p\x12\x37\x12\x011\x1a\x10\x0a\x0ahttp://h/p\x12\x02\x00\xff\x22\x20\x57\xa6\xd3\xcd\xc9\x43\xc8\xe4\x84\xfd\xfd\xb0\x36\x17\xc8\x41\x8f\xc7\xdd\x64\xb7\x1e\x00\xf1\x6f\xf1\x6c\xa3\x6c\xd5\x89\x73\x12\x20\x7e\x50\xa5\x5e\x40\x62\x9b\xc6\x7e\xa0\x92\x8c\xbe\x45\x33\x56\xf3\xc0\xb1\xaf\xdb\xcc\x97\x67\x47\xa2\x89\xa5\x40\x5b\xef\xfb\x38\x3f";

// Its fourth report, whose statuses name the configuration and the packages.
const NAMING: &[u8] =
    b"\x0a\x10abcdefghijklmnop\x10\x04\x20\x8b\x0a\x3a\x22\x0a\x20\x93\x1f\xcc\x8d\xc8\x0e\xc2\x24\xd1\xf1\xec\x50\x8b\x95\xcf\x14\x65\xb3\x81\x0b\x45\x01\x42\x0b\x00\xc0\x0f\xca\xc1\x41\xd5\x76\x42\x22\x12\x20\x7e\x50\xa5\x5e\x40\x62\x9b\xc6\x7e\xa0\x92\x8c\xbe\x45\x33\x56\xf3\xc0\xb1\xaf\xdb\xcc\x97\x67\x47\xa2\x89\xa5\x40\x5b\xef\xfb";

// The restart comes alone; the offers come where the agent takes them and its statuses don't name them.
#[test]
fn offers_are_carried(rt: HostRuntime) {
    let alloc = rt.alloc();
    let mut server = server(alloc);
    expect(&rt, &mut server, &[(FIRST, PLAIN)]);
    expect_same(&rt, &offer_all(&rt, &mut server), &[None; 3]);
    expect_same(&rt, &server.order_restart(&uid()).err(), &None);
    expect(
        &rt,
        &mut server,
        &[
            (b"\x0a\x10abcdefghijklmnop\x10\x02\x20\x8b\x0a", RESTART),
            (b"\x0a\x10abcdefghijklmnop\x10\x03\x20\x8b\x0a", ALL),
        ],
    );
    assert!(rt; is_pushed(&rt, &server, Some(ALL)));
    expect(
        &rt,
        &mut server,
        &[
            (NAMING, CONNECTION),
            (b"\x0a\x10abcdefghijklmnop\x10\x05\x20\x01", PLAIN),
        ],
    );
    assert!(rt; is_pushed(&rt, &server, Some(PLAIN)));
}

// A restart waits while the agent doesn't take it, and no longer once it went out. To an agent that has left nothing is pushed.
#[test]
fn restart_waits(rt: HostRuntime) {
    let alloc = rt.alloc();
    let mut server = server(alloc);
    expect(&rt, &mut server, &[(FIRST, PLAIN)]);
    expect_same(&rt, &server.order_restart(&uid()).err(), &None);
    expect(
        &rt,
        &mut server,
        &[
            (b"\x0a\x10abcdefghijklmnop\x10\x02\x20\x01", PLAIN),
            (b"\x0a\x10abcdefghijklmnop\x10\x03\x20\x81\x08", RESTART),
            (
                b"\x0a\x10abcdefghijklmnop\x10\x04\x20\x81\x08\x4a\x00",
                PLAIN,
            ),
        ],
    );
    assert!(rt; is_pushed(&rt, &server, None));
}

const ASKED: &[u8] = b"\x0a\x10abcdefghijklmnop\x30\x01\x38\x3f";

// Whether nothing is known of the agent and nothing waits for it.
fn is_unknown(rt: &(impl Abort + AllocGlobal), server: &Server) -> bool {
    server.find(&uid()).is_none()
        && server.standing(&uid()).is_none()
        && !server.restart_waits(&uid())
        && is_pushed(rt, server, None)
}

// A forgotten agent is asked for its full state, and begins anew with it: neither the offer nor the restart waits any more. One
// that isn't held can't be forgotten.
#[test]
fn forgotten_agent_is_new(rt: HostRuntime) {
    let mut server = server(rt.alloc());
    expect_same(&rt, &server.forget(&uid()), &false);
    expect(&rt, &mut server, &[(FIRST, PLAIN)]);
    expect_same(&rt, &offer_small(&rt, &mut server), &None);
    expect_same(&rt, &server.order_restart(&uid()).err(), &None);
    expect_same(&rt, &server.forget(&uid()), &true);
    assert!(rt; is_unknown(&rt, &server));
    expect_same(&rt, &server.forget(&uid()), &false);
    expect(
        &rt,
        &mut server,
        &[
            (b"\x0a\x10abcdefghijklmnop\x10\x02\x20\x8b\x0a", ASKED),
            (
                b"\x0a\x10abcdefghijklmnop\x10\x03\x1a\x00\x20\x8b\x0a",
                PLAIN,
            ),
            (b"\x0a\x10abcdefghijklmnop\x10\x04\x20\x8b\x0a", PLAIN),
        ],
    );
    drop(server);
}

fn letters(rt: &(impl Abort + AllocGlobal), count: u32) -> Text {
    let mut letters = String::new(rt.alloc());
    for _ in 0..count {
        letters.push('a').expect(rt, "memory");
    }
    Text::of(letters)
}

fn zeros(rt: &(impl Abort + AllocGlobal), count: usize) -> Vec<u8> {
    let mut zeros = Vec::new(rt.alloc());
    zeros.resize(count, 0).expect(rt, "memory");
    zeros
}

// What becomes of three offers, each of which has more bytes than it may have.
fn offer_too_much(rt: &(impl Abort + AllocGlobal), server: &mut Server) -> [Option<OfferFail>; 3] {
    let file = offer_file(rt, server, "f", zeros(rt, 1_048_576));
    let package = offer_package(rt, server, letters(rt, 1_048_576));
    let endpoint = offer_endpoint(server, letters(rt, 65_536));
    [file, package, endpoint]
}

// What becomes of the offer of the file `../x` of `hi`.
fn offer_small(rt: &(impl Abort + AllocGlobal), server: &mut Server) -> Option<OfferFail> {
    let small = Vec::from_slice(rt.alloc(), b"hi").expect(rt, "memory");
    offer_file(rt, server, "../x", small)
}

// The standing offers stay.
#[test]
fn offer_too_large(rt: HostRuntime) {
    let mut server = server(rt.alloc());
    expect(&rt, &mut server, &[(FIRST, PLAIN)]);
    let small = offer_small(&rt, &mut server);
    let large = offer_too_much(&rt, &mut server);
    let pushed = is_pushed(&rt, &server, Some(CONFIG));
    drop(server);
    expect_same(&rt, &small, &None);
    expect_same(&rt, &large, &[Some(OfferFail::TooLarge); 3]);
    assert!(rt; pushed);
}
