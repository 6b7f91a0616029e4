// Offers that are kept on a shelf, in memory and of the system. Bodies of files are the bytes of replies, which follow from the rules by hand; the hash is what
// Python's `hashlib.sha256` gives of the bytes of the offer without it.
ghost use Rattle.std.specs.Prelude.{IsTrue};
ghost use Rattle.edge_devices.specs.Names.{is_good_name};

use crate::comparing::expect_same;
use edge_devices::name_good;
use edge_shelf::{FileShelf, MemoryShelf, Mode, Shelf};
use plain_values::{AgentConfigFile, AgentConfigMap, Blob, List, Map, Text, Uid};
use server_core::{Offers, config_offer};
use server_kept::{KeepFail, KeptOffers, OpenFail, agent_of, forget, keep, name_of, open, order};
use std::fs;
use std::process::Abort;
use std::rt::Files;

// The agents of most cases.
const ONE: [u8; 16] = *b"abcdefghijklmnop";

const TWO: [u8; 16] = [0xab; 16];

const THREE: [u8; 16] = [3; 16];

// The body of the file of the agent to which the file `../x` of `hi` is offered.
const KEPT: &[u8] =
    b"\x0a\x10abcdefghijklmnop\x1a\x32\x0a\x0e\x0a\x0c\x0a\x04../x\x12\x04\x0a\x02hi\x12\x20\x93\x1f\xcc\x8d\xc8\x0e\xc2\x24\xd1\xf1\xec\x50\x8b\x95\xcf\x14\x65\xb3\x81\x0b\x45\x01\x42\x0b\x00\xc0\x0f\xca\xc1\x41\xd5\x76";

fn text(rt: &(impl Abort + AllocGlobal), text: &str) -> Text {
    Text::from_str(rt.alloc(), text).expect(rt, "memory")
}

// A text that is good as the name of a file.
fn name(rt: &(impl Abort + AllocGlobal), name: &str) -> Text
    ensures { IsTrue (is_good_name result) }
{
    let name = text(rt, name);
    assert!(rt; name_good(name.as_str()));
    name
}

fn blob(rt: &(impl Abort + AllocGlobal), bytes: &[u8]) -> Blob {
    Blob::from_slice(rt.alloc(), bytes).expect(rt, "memory")
}

// The offer of the file `../x` with this body.
fn offers(rt: &(impl Abort + AllocGlobal), body: &[u8]) -> Offers {
    let file = AgentConfigFile {
        body: blob(rt, body),
        content_type: text(rt, ""),
    };
    let mut config_map = Map::new(rt.alloc());
    config_map.put(text(rt, "../x"), file).expect(rt, "memory");
    let config = config_offer(rt.alloc(), AgentConfigMap { config_map }).expect(rt, "an offer");
    Offers {
        config: Some(config),
        packages: None,
        connection: None,
    }
}

// The first byte of the file `../x` of these offers.
fn byte_of(rt: &(impl Abort + AllocGlobal), offers: &Offers) -> Option<u8> {
    let files = offers.config.as_ref()?.config.as_ref()?;
    let file = files.config_map.get(&text(rt, "../x"))?;
    file.body.as_slice().first().copied()
}

// The same of what was found to stand for the agent.
fn stands(
    rt: &(impl Abort + AllocGlobal),
    found: &List<KeptOffers>,
    agent: [u8; 16],
) -> Option<u8> {
    for kept in found.as_slice() {
        if kept.uid.same(&Uid::of(agent)) {
            return byte_of(rt, &kept.offers);
        }
    }
    None
}

// What stands again for the three agents, where the shelf is read.
fn read_again<S: Shelf>(rt: &(impl Abort + AllocGlobal), shelf: &mut S) -> Option<[Option<u8>; 3]> {
    match open(rt.alloc(), shelf) {
        Ok(found) => Some([
            stands(rt, &found, ONE),
            stands(rt, &found, TWO),
            stands(rt, &found, THREE),
        ]),
        Err(_) => None,
    }
}

// Whether offers of a file with this one byte are kept.
fn keeps<S: Shelf>(
    rt: &(impl Abort + AllocGlobal),
    shelf: &mut S,
    agent: [u8; 16],
    byte: u8,
) -> bool {
    let offers = offers(rt, &[byte]);
    keep(rt.alloc(), shelf, &Uid::of(agent), &offers).is_ok()
}

fn forgets<S: Shelf>(
    rt: &(impl Abort + AllocGlobal),
    shelf: &mut S,
    agent: [u8; 16],
) -> Result<(), KeepFail> {
    forget(rt.alloc(), shelf, &Uid::of(agent))
}

// A shelf in memory on which these calls fail.
fn memory(rt: &(impl Abort + AllocGlobal), failing: &[u64]) -> MemoryShelf {
    MemoryShelf::new(
        rt.alloc(),
        Vec::from_slice(rt.alloc(), failing).expect(rt, "memory"),
    )
}

#[test]
fn a_kept_offer_in_bytes(rt: HostRuntime) {
    let mut shelf = memory(&rt, &[]);
    let uid = Uid::of(ONE);
    keep(rt.alloc(), &mut shelf, &uid, &offers(&rt, b"hi")).expect(&rt, "kept");
    let file = name(&rt, "6162636465666768696a6b6c6d6e6f70");
    let body = shelf.read(rt.alloc(), &file).expect(&rt, "a read");
    assert!(rt; body.is_some_and(|body| body.as_slice() == KEPT));
}

/// A change to what stands.
#[derive(Clone, Copy)]
enum Change {
    Keep([u8; 16]),
    Forget([u8; 16]),
}

// Whether the change is done, by 9 where it keeps.
fn changes<S: Shelf>(rt: &(impl Abort + AllocGlobal), shelf: &mut S, change: Change) -> bool {
    match change {
        Change::Keep(agent) => keeps(rt, shelf, agent, 9),
        Change::Forget(agent) => forgets(rt, shelf, agent).is_ok(),
    }
}

// Keeps 1 for one agent and 2 for another, and makes a change with a stop at that one of its calls: whether it was done, and what stands again.
fn stopped(
    rt: &(impl Abort + AllocGlobal),
    change: Change,
    stop: u64,
    mode: Mode,
) -> (bool, Option<[Option<u8>; 3]>) {
    let mut shelf = memory(rt, &[]);
    let before = keeps(rt, &mut shelf, ONE, 1) && keeps(rt, &mut shelf, TWO, 2);
    assert!(rt; before);
    shelf.arm(stop);
    let done = changes(rt, &mut shelf, change);
    assert!(rt; shelf.stopped() != done);
    shelf.crash(rt.alloc(), mode).expect(rt, "memory");
    (done, read_again(rt, &mut shelf))
}

// Each change is one call of the shelf that writes or removes. Stopped in it, the file is the former one or the new one, whole.
#[test]
fn stops(rt: HostRuntime) {
    let former = [Some(1), Some(2), None];
    for (change, next) in [
        (Change::Keep(ONE), [Some(9), Some(2), None]),
        (Change::Keep(THREE), [Some(1), Some(2), Some(9)]),
        (Change::Forget(TWO), [Some(1), None, None]),
        (Change::Forget(THREE), [Some(1), Some(2), None]),
    ] {
        assert!(rt; stopped(&rt, change, 0, Mode::Former) == (true, Some(next)));
        assert!(rt; stopped(&rt, change, 2, Mode::Former) == (true, Some(next)));
        assert!(rt; stopped(&rt, change, 1, Mode::Former) == (false, Some(former)));
        assert!(rt; stopped(&rt, change, 1, Mode::New) == (false, Some(next)));
    }
}

// What stands for the first agent behind a crash, where the calls 1 and 2 failed: it was to be 4, and then 5.
fn behind_two_failures(
    rt: &(impl Abort + AllocGlobal),
    mode: Mode,
    next: Option<u8>,
) -> Option<u8> {
    let mut shelf = memory(rt, &[1, 2]);
    let first = keeps(rt, &mut shelf, ONE, 1);
    assert!(rt; first && !keeps(rt, &mut shelf, ONE, 4) && !keeps(rt, &mut shelf, ONE, 5));
    if let Some(byte) = next {
        assert!(rt; keeps(rt, &mut shelf, ONE, byte));
    }
    shelf.crash(rt.alloc(), mode).expect(rt, "memory");
    read_again(rt, &mut shelf).and_then(|found| found[0])
}

// What failed may stand again, until something later is done.
#[test]
fn what_failed_may_stand(rt: HostRuntime) {
    assert!(rt; behind_two_failures(&rt, Mode::Former, None) == Some(1));
    assert!(rt; behind_two_failures(&rt, Mode::New, None) == Some(5));
    assert!(rt; behind_two_failures(&rt, Mode::New, Some(6)) == Some(6));
}

// The name of the file that isn't right, where there is one.
fn wrong_name<S: Shelf>(rt: &(impl Abort + AllocGlobal), shelf: &mut S) -> Option<Text> {
    match open(rt.alloc(), shelf) {
        Err(OpenFail::Wrong(name)) => Some(name),
        _ => None,
    }
}

// Whether the agent's file with this body is named as wrong.
fn is_wrong(rt: &(impl Abort + AllocGlobal), agent: [u8; 16], body: &[u8]) -> bool {
    let mut shelf = memory(rt, &[]);
    assert!(rt; keeps(rt, &mut shelf, THREE, 3));
    let file = name_of(rt.alloc(), &Uid::of(agent)).expect(rt, "memory");
    shelf
        .write(rt.alloc(), &file, &blob(rt, body))
        .expect(rt, "a write");
    match wrong_name(rt, &mut shelf) {
        Some(name) => name.as_str() == file.as_str(),
        None => false,
    }
}

// Right is the canonical reply with the identifier of the name and an offer, and nothing else.
#[test]
fn a_wrong_file_is_named(rt: HostRuntime) {
    assert!(rt; !is_wrong(&rt, ONE, KEPT));
    assert!(rt; is_wrong(&rt, TWO, KEPT));
    assert!(rt; is_wrong(&rt, ONE, &KEPT[..KEPT.len() - 1]));
    for (body, what) in [
        (b"".as_slice(), "an empty file"),
        (b"\x0a\x10abcdefghijklmnop", "no offer"),
        (b"\x0a\x10abcdefghijklmnop\x1a\x00\x38\x3f", "capabilities"),
        (b"\x1a\x00", "no identifier"),
        (
            b"\x1a\x00\x0a\x10abcdefghijklmnop",
            "another order of fields",
        ),
        (
            b"\x0a\x10abcdefghijklmnop\x1a\x80\x00",
            "a length of two bytes",
        ),
        (b"\xff", "no reply"),
    ] {
        assert!(rt; is_wrong(&rt, ONE, body), "{what}");
    }
}

// The agent of this name.
fn is_agents(rt: &(impl Abort + AllocGlobal), name: &str) -> bool {
    agent_of(rt.alloc(), &text(rt, name))
        .expect(rt, "memory")
        .is_some()
}

// Whether a file of this name, whatever its body, is left alone.
fn is_left_alone(rt: &(impl Abort + AllocGlobal), other: &str) -> bool {
    let mut shelf = memory(rt, &[]);
    assert!(rt; keeps(rt, &mut shelf, ONE, 1));
    shelf
        .write(rt.alloc(), &name(rt, other), &blob(rt, b"\xff"))
        .expect(rt, "a write");
    !is_agents(rt, other) && read_again(rt, &mut shelf) == Some([Some(1), None, None])
}

// An agent's name has 32 digits, none of them a capital one.
#[test]
fn other_names(rt: HostRuntime) {
    for other in [
        "README",
        "rollout-main",
        "6162636465666768696A6B6C6D6E6F70",
        "6162636465666768696a6b6c6d6e6f7",
        "6162636465666768696a6b6c6d6e6f7071",
        "6162636465666768696a6b6c6d6e6f7g",
    ] {
        assert!(rt; is_left_alone(&rt, other), "{other}");
    }
    for other in [
        "",
        "6162636465666768/96a6b6c6d6e6f70",
        "../6162636465666768696a6b6c6d6e",
    ] {
        assert!(rt; !is_agents(&rt, other), "{other}");
    }
    assert!(rt; is_agents(&rt, "6162636465666768696a6b6c6d6e6f70"));
}

// Whether reading the shelf fails by the shelf. Calls are a write, and then those that read it.
fn cant_be_read(rt: &(impl Abort + AllocGlobal), failing: &[u64]) -> bool {
    let mut shelf = memory(rt, failing);
    assert!(rt; keeps(rt, &mut shelf, ONE, 1));
    matches!(open(rt.alloc(), &mut shelf), Err(OpenFail::Fault))
}

#[test]
fn a_shelf_that_cant_be_read(rt: HostRuntime) {
    assert!(rt; cant_be_read(&rt, &[1]) && cant_be_read(&rt, &[2]));
    assert!(rt; !cant_be_read(&rt, &[3]));
}

// What an order to the first agent makes stand.
fn ordered<S: Shelf>(
    rt: &(impl Abort + AllocGlobal),
    shelf: &mut S,
    standing: &Offers,
    made: Option<u8>,
) -> Result<Option<u8>, KeepFail> {
    let made = made.map(|byte| offers(rt, &[byte]));
    match order(rt.alloc(), shelf, &Uid::of(ONE), standing, made) {
        Ok(offers) => Ok(byte_of(rt, &offers)),
        Err(fail) => Err(fail),
    }
}

// An order stands once it is kept, and not otherwise.
#[test]
fn orders(rt: HostRuntime) {
    let mut shelf = memory(&rt, &[1]);
    let standing = offers(&rt, &[1]);
    assert!(rt; ordered(&rt, &mut shelf, &standing, Some(2)) == Ok(Some(2)));
    assert!(rt; ordered(&rt, &mut shelf, &standing, Some(3)) == Err(KeepFail::NotKept));
    expect_same(
        &rt,
        &read_again(&rt, &mut shelf),
        &Some([Some(2), None, None]),
    );
    assert!(rt; ordered(&rt, &mut shelf, &standing, None) == Ok(None));
    expect_same(&rt, &read_again(&rt, &mut shelf), &Some([None, None, None]));
}

// A shelf of the system, as a server that starts would have it.
fn started<R: Files + AllocGlobal + Clone + Drop>(
    rt: &(impl Abort + AllocGlobal),
    files: R,
) -> FileShelf<R> {
    FileShelf::new(files, text(rt, "opamp.d/kept"))
}

// What is kept in a folder of the system stands at the next start, and an order there is none without the folder.
#[test]
fn a_real_folder(rt: HostRuntime) {
    let _ = fs::remove_dir_all(&rt, "opamp.d/kept");
    fs::create_dir_all(&rt, "opamp.d/kept").expect(&rt, "a folder");
    let mut shelf = started(&rt, &rt);
    assert!(rt; keeps(&rt, &mut shelf, ONE, 1) && keeps(&rt, &mut shelf, TWO, 2));
    expect_same(
        &rt,
        &read_again(&rt, &mut started(&rt, &rt)),
        &Some([Some(1), Some(2), None]),
    );
    assert!(rt; keeps(&rt, &mut shelf, ONE, 9) && forgets(&rt, &mut shelf, TWO).is_ok());
    expect_same(
        &rt,
        &read_again(&rt, &mut started(&rt, &rt)),
        &Some([Some(9), None, None]),
    );
    fs::write(&rt, "opamp.d/kept/abababababababababababababababab", KEPT).expect(&rt, "a file");
    let wrong = wrong_name(&rt, &mut started(&rt, &rt));
    assert!(rt; wrong.is_some_and(|name| name.as_str() == "abababababababababababababababab"));
    fs::remove_dir_all(&rt, "opamp.d/kept").expect(&rt, "a folder");
    assert!(rt; !keeps(&rt, &mut shelf, ONE, 1));
    assert!(rt; forgets(&rt, &mut shelf, ONE) == Err(KeepFail::NotKept));
    assert!(rt; matches!(open(rt.alloc(), &mut shelf), Err(OpenFail::Fault)));
}
