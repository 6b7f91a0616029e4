use plain_values::{Blob, List, Map, Pair, Plain, Text, Uid};
use std::process::Abort;

pub fn text(rt: &(impl Abort + AllocGlobal), words: &str) -> Text {
    Text::of(String::from_str(rt.alloc(), words).expect(rt, "memory"))
}

// Whether a copy of the value equals it.
fn is_copied<T: Plain>(rt: &(impl Abort + AllocGlobal), value: &T) -> bool {
    let copied = value.copy(rt.alloc()).expect(rt, "memory");
    copied.same(value)
}

#[test]
fn identifiers(rt: HostRuntime) {
    let low = Uid::of([1; 16]);
    let high = Uid::of([2; 16]);
    assert!(rt; low.as_slice() == [1u8; 16].as_slice());
    assert!(rt; low.copy().same(&low));
    assert!(rt; !low.same(&high));
    assert!(rt; low < high);
}

// Whether the text equals the one of these words.
fn is_text(rt: &(impl Abort + AllocGlobal), name: &Text, words: &str) -> bool {
    let other = text(rt, words);
    name.same(&other)
}

#[test]
fn texts(rt: HostRuntime) {
    let name = text(&rt, "häuser");
    assert!(rt; name.as_str() == "häuser");
    assert!(rt; is_copied(&rt, &name));
    assert!(rt; !is_text(&rt, &name, "hauser"));
}

#[test]
fn bytes(rt: HostRuntime) {
    let bytes = Blob::of(Vec::from_slice(rt.alloc(), &[0, 255]).expect(&rt, "memory"));
    assert!(rt; bytes.as_slice() == [0u8, 255].as_slice());
    assert!(rt; is_copied(&rt, &bytes));
}

fn push(rt: &(impl Abort + AllocGlobal), names: &mut List<Text>, name: &str) {
    names.push(text(rt, name)).expect(rt, "memory");
}

// The names `b` and `a`, in this order.
fn names(rt: &(impl Abort + AllocGlobal)) -> List<Text> {
    let mut names = List::new(rt.alloc());
    assert!(rt; names.is_empty());
    push(rt, &mut names, "b");
    push(rt, &mut names, "a");
    names
}

// Whether this name is at the place, or none where none is wanted.
fn is_at(names: &List<Text>, at: u64, want: Option<&str>) -> bool {
    match (names.get(at), want) {
        (Some(name), Some(want)) => name.as_str() == want,
        (None, None) => true,
        _ => false,
    }
}

#[test]
fn lists(rt: HostRuntime) {
    let names = names(&rt);
    assert!(rt; names.len() == 2);
    assert!(rt; is_at(&names, 1, Some("a")));
    assert!(rt; is_at(&names, 2, None));
}

// Whether a copy equals its source before a name is added to this, and not behind it.
fn is_apart(rt: &(impl Abort + AllocGlobal), names: &mut List<Text>, copied: &List<Text>) -> bool {
    let were_same = copied.same(names);
    push(rt, names, "c");
    were_same && !copied.same(names)
}

#[test]
fn copies_of_lists(rt: HostRuntime) {
    let mut names = names(&rt);
    let copied = names.copy(rt.alloc()).expect(&rt, "memory");
    let apart = is_apart(&rt, &mut names, &copied);
    drop(names);
    assert!(rt; apart);
    assert!(rt; List::of(copied.into_vec()).as_slice().len() == 2);
}

fn put(rt: &(impl Abort + AllocGlobal), map: &mut Map<Option<u64>>, key: &str, value: Option<u64>) {
    map.put(text(rt, key), value).expect(rt, "memory");
}

// Twice the key `b`, of which the last has no number, and the key `a`.
fn entered(rt: &(impl Abort + AllocGlobal)) -> Map<Option<u64>> {
    let mut map = Map::new(rt.alloc());
    assert!(rt; map.is_empty());
    put(rt, &mut map, "b", Some(2));
    put(rt, &mut map, "a", Some(1));
    put(rt, &mut map, "b", None);
    map
}

// What the map has under the key.
fn found(
    rt: &(impl Abort + AllocGlobal),
    map: &Map<Option<u64>>,
    key: &str,
) -> Option<Option<u64>> {
    let key = text(rt, key);
    map.get(&key).copied()
}

#[test]
fn maps(rt: HostRuntime) {
    let map = entered(&rt);
    assert!(rt; map.len() == 2);
    assert!(rt; found(&rt, &map, "a") == Some(Some(1)));
    assert!(rt; found(&rt, &map, "b") == Some(None));
    assert!(rt; found(&rt, &map, "z").is_none());
}

// A number under a key of seven digits.
fn entry(rt: &(impl Abort + AllocGlobal), key: u64, value: u64) -> Pair<u64> {
    let key = Text::of(format!(in rt.alloc(); "{key:07}").expect(rt, "memory"));
    Pair { key, value }
}

// So many entries, with their numbers as keys, from the last, behind another one of the number 3.
fn entries(rt: &(impl Abort + AllocGlobal), count: u64) -> Vec<Pair<u64>> {
    let mut entries = Vec::new(rt.alloc());
    entries.push(entry(rt, 3, 99)).expect(rt, "memory");
    for number in (0..count).rev() {
        entries.push(entry(rt, number, number)).expect(rt, "memory");
    }
    entries
}

// Whether the map's values are their places.
fn are_counted(map: &Map<u64>) -> bool {
    for (at, pair) in map.as_slice().iter().enumerate() {
        if pair.value != at as u64 {
            return false;
        }
    }
    true
}

// A message within the limit of 4 MiB may have some 600,000 entries, in any order.
#[test]
fn many_entries(rt: HostRuntime) {
    let map = Map::of_entries(rt.alloc(), entries(&rt, 100_000)).expect(&rt, "memory");
    assert!(rt; map.len() == 100_000);
    assert!(rt; are_counted(&map));
}
