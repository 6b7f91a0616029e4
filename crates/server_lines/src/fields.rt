//! The packages, files and headers that words name.

ghost use Rattle.std.specs.Prelude.{◌≡◌, IfOk, map, Option};
ghost use Rattle.std.specs.Option.{option_map};
ghost use Rattle.server_lines.specs.Words.{bytes_in, files_in, files_of, header_in, headers_in, named_file, one_package, packages_in, parts_in, text_in, value_in};

use crate::words::{bytes_of, text_of, word_or_empty};
use message_values::{DownloadableFile, PackageAvailable};
use plain_values::{AgentConfigFile, AgentConfigMap, Blob, Header, Map, NoMemory, Pair, Text};
use std::alloc::Global;

// A package of this version, whose file lies at the URL and has bytes of this hash.
fn package(
    alloc: Global,
    version: &str,
    url: &str,
    hash: Blob,
) -> Result<PackageAvailable, NoMemory>
    ensures package { IfOk result (λ made. made ≡ one_package version.now url.now hash) }
{
    let file = DownloadableFile {
        download_url: text_of(alloc, url)?,
        content_hash: hash,
        signature: Blob::new(alloc),
    };
    Ok(PackageAvailable {
        kind: 0,
        version: text_of(alloc, version)?,
        file: Some(file),
        hash: Blob::new(alloc),
    })
}

// The package under its name; none exactly where the last word isn't hexadecimal.
fn entry(
    alloc: Global,
    name: &str,
    version: &str,
    url: &str,
    hex: &str,
) -> Result<Option<Pair<PackageAvailable>>, NoMemory>
    ensures entry { IfOk result (λ made. made ≡ option_map (λ hash. record { key = name.now; value = one_package version.now url.now hash }) (bytes_in hex.now)) }
{
    let Some(hash) = bytes_of(alloc, hex)? else {
        return Ok(None);
    };
    let value = package(alloc, version, url, hash)?;
    let key = text_of(alloc, name)?;
    Ok(Some(Pair { key, value }))
}

/// The packages that the words name, in their order; none exactly where the words aren't those of packages.
pub fn packages_in(
    alloc: Global,
    words: &[&str],
) -> Result<Option<Vec<Pair<PackageAvailable>>>, NoMemory>
    ensures entries { IfOk result (λ made. option_map (λ entries. entries.items) made ≡ packages_in (map (λ word. word.now) words.now)) }
{
    let mut entries = Vec::new(alloc);
    let mut rest = words;
    while let [name, version, url, hex, behind @ ..] = rest {
        let Some(entry) = entry(alloc, name, version, url, hex)? else {
            return Ok(None);
        };
        entries.push(entry)?;
        rest = behind;
    }
    if rest.is_empty() {
        Ok(Some(entries))
    } else {
        Ok(None)
    }
}

// The file under its name; none exactly where the last word isn't hexadecimal.
fn file(
    alloc: Global,
    name: &str,
    kind: &str,
    hex: &str,
) -> Result<Option<Pair<AgentConfigFile>>, NoMemory>
    ensures file { IfOk result (λ made. made ≡ option_map (λ body. named_file (text_in name.now) (text_in kind.now) body) (bytes_in hex.now)) }
{
    let Some(body) = bytes_of(alloc, hex)? else {
        return Ok(None);
    };
    let key = word_or_empty(alloc, name)?;
    let content_type = word_or_empty(alloc, kind)?;
    let value = AgentConfigFile { body, content_type };
    Ok(Some(Pair { key, value }))
}

/// The files that the words name, in their order; none exactly where the words aren't those of files.
pub fn files_in(
    alloc: Global,
    words: &[&str],
) -> Result<Option<Vec<Pair<AgentConfigFile>>>, NoMemory>
    ensures files { IfOk result (λ made. option_map (λ files. files.items) made ≡ files_in (map (λ word. word.now) words.now)) }
{
    let mut files = Vec::new(alloc);
    let mut rest = words;
    while let [name, kind, hex, behind @ ..] = rest {
        let Some(file) = file(alloc, name, kind, hex)? else {
            return Ok(None);
        };
        files.push(file)?;
        rest = behind;
    }
    if rest.is_empty() {
        Ok(Some(files))
    } else {
        Ok(None)
    }
}

/// The files that the words name, once or more, as a configuration, in which of a name that comes twice the last counts; none
/// exactly where the words aren't those of files.
pub fn files_of(alloc: Global, words: &[&str]) -> Result<Option<AgentConfigMap>, NoMemory>
    ensures files { IfOk result (λ made. made ≡ files_of (map (λ word. word.now) words.now)) }
{
    if words.is_empty() {
        return Ok(None);
    }
    let Some(files) = files_in(alloc, words)? else {
        return Ok(None);
    };
    let config_map = Map::of_entries(alloc, files)?;
    Ok(Some(AgentConfigMap { config_map }))
}

// What stands before the first colon of a word, and what stands behind it.
fn parts_in(word: &str) -> Option<(&str, &str)>
    ensures parts { option_map (λ p. (p.0.now, p.1.now)) result ≡ parts_in word.now }
{
    word.split_once(':')
}

// The text whose bytes the digits are; none exactly where they aren't hexadecimal, or the bytes aren't UTF-8.
fn value_in(alloc: Global, hex: &str) -> Result<Option<Text>, NoMemory>
    ensures value { IfOk result (λ made. made ≡ value_in hex.now) }
{
    let Some(bytes) = bytes_of(alloc, hex)? else {
        return Ok(None);
    };
    match str::from_utf8(bytes.as_slice()) {
        Ok(text) => Ok(Some(text_of(alloc, text)?)),
        Err(_) => Ok(None),
    }
}

#[tactic(auto, unfolding(crate::specs::Words::header_in))]
fn header_in(alloc: Global, word: &str) -> Result<Option<Header>, NoMemory>
    ensures header { IfOk result (λ made. made ≡ header_in word.now) }
{
    let Some((name, hex)) = parts_in(word) else {
        return Ok(None);
    };
    if name.is_empty() {
        return Ok(None);
    }
    let Some(value) = value_in(alloc, hex)? else {
        return Ok(None);
    };
    let key = text_of(alloc, name)?;
    Ok(Some(Header { key, value }))
}

/// The headers that the words name, in their order; none exactly where the words aren't those of headers.
pub fn headers_in(alloc: Global, words: &[&str]) -> Result<Option<Vec<Header>>, NoMemory>
    ensures headers { IfOk result (λ made. option_map (λ headers. headers.items) made ≡ headers_in (map (λ word. word.now) words.now)) }
{
    let mut headers = Vec::new(alloc);
    let mut rest = words;
    while let [word, behind @ ..] = rest {
        let Some(header) = header_in(alloc, word)? else {
            return Ok(None);
        };
        headers.push(header)?;
        rest = behind;
    }
    Ok(Some(headers))
}
