//! The words of orders as a journal tells them.

ghost use Rattle.std.specs.Prelude.{◌≡◌, ◌++◌, IfOk, OnOk, Some, codes};
ghost use Rattle.std.specs.List.{flat_map};
ghost use Rattle.std.specs.Option.{option_copied};
ghost use Rattle.std.specs.String.{string_bytes};
ghost use Rattle.hex.specs.Hex.{encode_lower};
ghost use Rattle.sha2.specs.Sha256.{sha256};
ghost use Rattle.server_lines.specs.Journal.{action_words, begin_words, file_words, finder_words, header_words, journal_words, package_words, rollout_words, settings_words, text_word, words_by_file, words_of_action, words_of_finder, words_of_headers, words_of_offer, words_of_package, words_of_settings, words_of_steering};

use crate::listing::uuid_of;
use crate::orders::{Action, Order, Steering};
use message_values::{DownloadableFile, OpAMPConnectionSettings, PackageAvailable};
use plain_values::{AgentConfigFile, AgentConfigMap, Header, Headers, NoMemory, Pair, Text, Uid};
use server_core::Offer;
use server_waves::Finder;
use sha2::{Digest, Sha256};
use std::alloc::Global;

// The text, or `-` for the empty one.
fn text_word(text: &str) -> &str
    ensures word { result.now ≡ text_word text.now }
{
    if text.is_empty() { "-" } else { text }
}

// The SHA-256 of the bytes, in lower-case hexadecimal digits.
fn hash_word(alloc: Global, bytes: &[u8]) -> Result<String, NoMemory>
    ensures word { IfOk result (λ word. string_bytes word ≡ encode_lower (sha256 bytes.now)) }
{
    let digest = Sha256::digest(bytes);
    let digits = hex::encode(alloc, digest.as_slice())?;
    Ok(digits)
}

// ---- files

#[tactic(auto, unfolding(crate::specs::Journal::file_words))]
fn put_file(alloc: Global, text: &mut String, file: &Pair<AgentConfigFile>) -> Result<(), NoMemory>
    ensures ok { OnOk result (string_bytes text.new ≡ string_bytes text.old ++ file_words file.now) }
{
    let name = text_word(file.key.as_str());
    let kind = text_word(file.value.content_type.as_str());
    let hash = hash_word(alloc, file.value.body.as_slice())?;
    write!(text, " {name} {kind} {hash}")?;
    Ok(())
}

fn files_words(alloc: Global, files: &[Pair<AgentConfigFile>]) -> Result<String, NoMemory>
    ensures words { IfOk result (λ words. string_bytes words ≡ flat_map file_words files.now) }
{
    let mut text = String::new(alloc);
    for file in files {
        put_file(alloc, &mut text, file)?;
    }
    Ok(text)
}

// ---- packages

#[tactic(auto, unfolding(crate::specs::Journal::package_words))]
fn put_package_words(
    alloc: Global,
    text: &mut String,
    name: &str,
    version: &str,
    url: &str,
    hash: &[u8],
) -> Result<(), NoMemory>
    ensures ok { OnOk result (string_bytes text.new ≡ string_bytes text.old ++ package_words name.now version.now url.now hash.now) }
{
    let digits = hex::encode(alloc, hash)?;
    let hash = text_word(digits.as_str());
    write!(text, " {name} {version} {url} {hash}")?;
    Ok(())
}

fn put_package(
    alloc: Global,
    text: &mut String,
    entry: &Pair<PackageAvailable>,
) -> Result<(), NoMemory>
    ensures ok { OnOk result (string_bytes text.new ≡ string_bytes text.old ++ words_of_package entry.now) }
{
    let name = entry.key.as_str();
    let version = entry.value.version.as_str();
    match &entry.value.file {
        None => put_package_words(alloc, text, name, version, "", &[]),
        Some(file) => put_package_words(
            alloc,
            text,
            name,
            version,
            file.download_url.as_str(),
            file.content_hash.as_slice(),
        ),
    }
}

fn packages_words(alloc: Global, packages: &[Pair<PackageAvailable>]) -> Result<String, NoMemory>
    ensures words { IfOk result (λ words. string_bytes words ≡ flat_map words_of_package packages.now) }
{
    let mut text = String::new(alloc);
    for entry in packages {
        put_package(alloc, &mut text, entry)?;
    }
    Ok(text)
}

// ---- settings of the connection

#[tactic(auto, unfolding(crate::specs::Journal::header_words))]
fn put_header(alloc: Global, text: &mut String, header: &Header) -> Result<(), NoMemory>
    ensures ok { OnOk result (string_bytes text.new ≡ string_bytes text.old ++ header_words header.now) }
{
    let name = header.key.as_str();
    let hash = hash_word(alloc, header.value.as_str().as_bytes())?;
    write!(text, " {name}:{hash}")?;
    Ok(())
}

fn list_headers(alloc: Global, headers: &[Header]) -> Result<String, NoMemory>
    ensures words { IfOk result (λ words. string_bytes words ≡ flat_map header_words headers.now) }
{
    let mut text = String::new(alloc);
    for header in headers {
        put_header(alloc, &mut text, header)?;
    }
    Ok(text)
}

fn headers_words(alloc: Global, headers: &Option<Headers>) -> Result<String, NoMemory>
    ensures words { IfOk result (λ words. string_bytes words ≡ words_of_headers headers.now) }
{
    match headers {
        None => Ok(String::new(alloc)),
        Some(headers) => list_headers(alloc, headers.headers.as_slice()),
    }
}

#[tactic(auto, unfolding(crate::specs::Journal::settings_words))]
fn settings_words(alloc: Global, settings: &OpAMPConnectionSettings) -> Result<String, NoMemory>
    ensures words { IfOk result (λ words. string_bytes words ≡ words_of_settings settings.now) }
{
    let url = text_word(settings.destination_endpoint.as_str());
    let seconds = settings.heartbeat_interval_seconds;
    let headers = headers_words(alloc, &settings.headers)?;
    let words = format!(in alloc; " {url} {seconds}{headers}")?;
    Ok(words)
}

// ---- orders

// The verb, the agent, and what stands behind them.
#[tactic(auto, unfolding(crate::specs::Journal::action_words))]
fn action_text(alloc: Global, verb: &str, uid: &Uid, behind: &str) -> Result<Text, NoMemory>
    ensures words { IfOk result (λ words. words ≡ action_words verb.now uid.now behind.now) }
{
    let uid = uuid_of(uid);
    let words = format!(in alloc; "{verb} {uid}{behind}")?;
    Ok(Text::of(words))
}

fn offer_text(alloc: Global, uid: &Uid, offer: &Offer) -> Result<Text, NoMemory>
    ensures words { IfOk result (λ words. words ≡ words_of_offer uid.now offer.now) }
{
    match offer {
        Offer::Config(files) => {
            let words = files_words(alloc, files.config_map.as_slice())?;
            action_text(alloc, "config", uid, words.as_str())
        }
        Offer::Packages(packages) => {
            let words = packages_words(alloc, packages.as_slice())?;
            action_text(alloc, "packages", uid, words.as_str())
        }
        Offer::Connection(settings) => {
            let words = settings_words(alloc, settings)?;
            action_text(alloc, "settings", uid, words.as_str())
        }
    }
}

fn act_text(alloc: Global, uid: &Uid, action: &Action) -> Result<Text, NoMemory>
    ensures words { IfOk result (λ words. words ≡ words_of_action uid.now action.now) }
{
    match action {
        Action::Offer(offer) => offer_text(alloc, uid, offer),
        Action::Restart => action_text(alloc, "restart", uid, ""),
        Action::Withdraw => action_text(alloc, "withdraw", uid, ""),
        Action::Forget => action_text(alloc, "forget", uid, ""),
    }
}

#[tactic(auto, unfolding(crate::specs::Journal::finder_words))]
fn finder_words(alloc: Global, finder: &Option<Finder>) -> Result<String, NoMemory>
    ensures words { IfOk result (λ words. string_bytes words ≡ words_of_finder finder.now) }
{
    let Some(finder) = finder else {
        return Ok(String::new(alloc));
    };
    let key = finder.key.as_str();
    let value = finder.value.as_str();
    let words = format!(in alloc; " where {key}={value}")?;
    Ok(words)
}

#[tactic(auto, unfolding(crate::specs::Journal::begin_words))]
fn begin_text(
    alloc: Global,
    id: &Text,
    width: u64,
    allowed: u64,
    finder: &Option<Finder>,
    files: &AgentConfigMap,
) -> Result<Text, NoMemory>
    ensures words { IfOk result (λ words. words ≡ begin_words id.now width allowed (words_of_finder finder.now) (flat_map file_words files.now.config_map)) }
{
    let id = id.as_str();
    let finder = finder_words(alloc, finder)?;
    let files = files_words(alloc, files.config_map.as_slice())?;
    let words = format!(in alloc; "rollout {id} {width}/{allowed}{finder}{files}")?;
    Ok(Text::of(words))
}

#[tactic(auto, unfolding(crate::specs::Journal::rollout_words))]
fn rollout_text(alloc: Global, verb: &str, id: &Text) -> Result<Text, NoMemory>
    ensures words { IfOk result (λ words. words ≡ rollout_words verb.now id.now) }
{
    let id = id.as_str();
    let words = format!(in alloc; "{verb} {id}")?;
    Ok(Text::of(words))
}

fn steering_text(alloc: Global, id: &Text, steering: &Steering) -> Result<Text, NoMemory>
    ensures words { IfOk result (λ words. words ≡ words_of_steering id.now steering.now) }
{
    match steering {
        Steering::Begin {
            width,
            allowed,
            finder,
            files,
        } => begin_text(alloc, id, *width, *allowed, finder, files),
        Steering::Halt => rollout_text(alloc, "halt", id),
        Steering::Resume => rollout_text(alloc, "resume", id),
        Steering::Finish => rollout_text(alloc, "finish", id),
    }
}

/// The words of an order as a journal tells them, none of a question: those of its line, with the SHA-256 (FIPS 180-4) of the bytes, in lower-case
/// hexadecimal digits, in the place of what a file holds and of what a header says. Of a file or a package that the line names twice the last is told.
///
/// # Errors
///
/// `NoMemory` alone.
pub fn journal_words(alloc: Global, order: &Order) -> Result<Option<Text>, NoMemory>
    ensures words { IfOk result (λ words. words ≡ journal_words order.now) }
{
    let words = match order {
        Order::Ask(_) => return Ok(None),
        Order::Act { uid, action } => act_text(alloc, uid, action)?,
        Order::Steer { id, steering } => steering_text(alloc, id, steering)?,
        Order::ForgetLeft => Text::from_str(alloc, "forget left")?,
        Order::Stop => Text::from_str(alloc, "stop")?,
    };
    Ok(Some(words))
}
