//! The text of a transcript: each line is words with a blank between them, ended by a line feed. Where memory runs out, part of a line may stand at the
//! text's end.

ghost use Rattle.std.specs.Prelude.{◌≡◌, ◌++◌, ◌∷◌, [], OnOk, codes, map};
ghost use Rattle.std.specs.Fmt.{decimal};
ghost use Rattle.std.specs.String.{string_bytes};
ghost use Rattle.hex.specs.Hex.{encode_lower};
ghost use Rattle.world_lab.specs.Transcripts.{abandoned_words, attempt_words, config_words, file_word, form_word, full_word, text_line, text_of, trial_words};
ghost use Rattle.world_lab.specs.Words.{spaced};

use crate::written::{Attempt, TrialEnd, Written};
use plain_values::{AgentConfigFile, NoMemory, Pair, Text};
use std::alloc::Global;

/// Appends the text of a line.
pub fn put_written(alloc: Global, text: &mut String, line: &Written) -> Result<(), NoMemory>
    ensures text { OnOk result (string_bytes text.new ≡ string_bytes text.old ++ text_of line.now) }
{
    match line {
        Written::Nothing => put_word(text, "nothing"),
        Written::Changed => put_word(text, "changed"),
        Written::SentReport {
            report,
            server,
            number,
            is_whole,
            bytes,
        } => put_sent(
            alloc,
            text,
            *report,
            *server,
            *number,
            *is_whole,
            bytes.as_slice(),
        ),
        Written::Takes { server, number } => put_takes(text, *server, *number),
        Written::Asks { server } => put_of_server(text, "asks", *server),
        Written::Heard {
            full,
            trial,
            applied,
            attempt,
        } => put_heard(text, *full, trial, *applied, attempt),
        Written::GaveUp { abandoned } => put_given_up(text, abandoned),
        Written::Restarted { number, endpoint } => put_start(text, "restarted", *number, endpoint),
        Written::Crashed { number, endpoint } => put_start(text, "crashed", *number, endpoint),
        Written::Armed => Ok(()),
        Written::Emptied { server } => put_of_server(text, "emptied", *server),
        Written::Offered => put_word(text, "offered"),
        Written::Pushed { server } => put_of_server(text, "pushed", *server),
        Written::Held {
            server,
            number,
            bytes,
        } => put_record(alloc, text, *server, *number, bytes.as_slice()),
        Written::InUse { endpoint, files } => {
            put_active(alloc, text, endpoint.as_str(), files.as_slice())
        }
    }
}

// Appends a line of one word.
fn put_word(text: &mut String, word: &str) -> Result<(), NoMemory>
    ensures line { OnOk result (string_bytes text.new ≡ string_bytes text.old ++ text_line (word.now ∷ [])) }
{
    write!(text, "{word}\n")?;
    Ok(())
}

// Appends `WORD S`, of a server's number.
fn put_of_server(text: &mut String, word: &str, server: u8) -> Result<(), NoMemory>
    ensures line { OnOk result (string_bytes text.new ≡ string_bytes text.old ++ text_line (word.now ∷ decimal server ∷ [])) }
{
    write!(text, "{word} {server}\n")?;
    Ok(())
}

// Appends `takes S NUMBER`.
fn put_takes(text: &mut String, server: u8, number: u64) -> Result<(), NoMemory>
    ensures line { OnOk result (string_bytes text.new ≡ string_bytes text.old ++ text_line (codes "takes" ∷ decimal server ∷ decimal number ∷ [])) }
{
    write!(text, "takes {server} {number}\n")?;
    Ok(())
}

// Appends `sent K S NUMBER whole HEX` or `sent K S NUMBER delta HEX`.
fn put_sent(
    alloc: Global,
    text: &mut String,
    report: u64,
    server: u8,
    number: u64,
    is_whole: bool,
    bytes: &[u8],
) -> Result<(), NoMemory>
    ensures line { OnOk result (string_bytes text.new ≡ string_bytes text.old ++ text_line
        (codes "sent" ∷ decimal report ∷ decimal server ∷ decimal number ∷ form_word is_whole ∷ encode_lower bytes.now ∷ [])) }
{
    let form = form_word(is_whole);
    let digits = hex::encode(alloc, bytes)?;
    write!(text, "sent {report} {server} {number} {form} {digits}\n")?;
    Ok(())
}

fn form_word(is_whole: bool) -> &'static str
    ensures { result.now ≡ form_word is_whole }
{
    if is_whole { "whole" } else { "delta" }
}

fn full_word(is_full: bool) -> &'static str
    ensures { result.now ≡ full_word is_full }
{
    if is_full { "full" } else { "plain" }
}

// Appends `plain` or `full`, and behind it what became of a trial, of a configuration and of offered settings.
fn put_heard(
    text: &mut String,
    full: bool,
    trial: &Option<TrialEnd>,
    applied: Option<bool>,
    attempt: &Option<Attempt>,
) -> Result<(), NoMemory>
    ensures line { OnOk result (string_bytes text.new ≡ string_bytes text.old ++ text_line
        (full_word full ∷ (trial_words trial.now ++ (config_words applied ++ attempt_words attempt.now)))) }
{
    text.push_str(full_word(full))?;
    put_trial(text, trial)?;
    put_config(text, applied)?;
    put_attempt(text, attempt)?;
    text.push('\n')?;
    Ok(())
}

// Appends ` kept URL` or ` abandoned URL`, of a trial.
fn put_trial(text: &mut String, trial: &Option<TrialEnd>) -> Result<(), NoMemory>
    ensures words { OnOk result (string_bytes text.new ≡ string_bytes text.old ++ spaced (trial_words trial.now)) }
{
    match trial {
        Some(TrialEnd::Kept { endpoint }) => put_two(text, "kept", endpoint.as_str()),
        Some(TrialEnd::Abandoned { endpoint }) => put_two(text, "abandoned", endpoint.as_str()),
        None => Ok(()),
    }
}

// Appends ` config applied` or ` config failed`, of an offered configuration.
fn put_config(text: &mut String, applied: Option<bool>) -> Result<(), NoMemory>
    ensures words { OnOk result (string_bytes text.new ≡ string_bytes text.old ++ spaced (config_words applied)) }
{
    match applied {
        Some(true) => put_two(text, "config", "applied"),
        Some(false) => put_two(text, "config", "failed"),
        None => Ok(()),
    }
}

// Appends ` try URL` or ` refused URL`, of offered settings.
fn put_attempt(text: &mut String, attempt: &Option<Attempt>) -> Result<(), NoMemory>
    ensures words { OnOk result (string_bytes text.new ≡ string_bytes text.old ++ spaced (attempt_words attempt.now)) }
{
    match attempt {
        Some(Attempt::Tried { endpoint }) => put_two(text, "try", endpoint.as_str()),
        Some(Attempt::Refused { endpoint }) => put_two(text, "refused", endpoint.as_str()),
        None => Ok(()),
    }
}

// Appends two words, each behind a blank.
fn put_two(text: &mut String, first: &str, second: &str) -> Result<(), NoMemory>
    ensures words { OnOk result (string_bytes text.new ≡ string_bytes text.old ++ spaced (first.now ∷ second.now ∷ [])) }
{
    write!(text, " {first} {second}")?;
    Ok(())
}

// Appends `gave-up`, and behind it `abandoned URL` after a trial.
fn put_given_up(text: &mut String, abandoned: &Option<Text>) -> Result<(), NoMemory>
    ensures line { OnOk result (string_bytes text.new ≡ string_bytes text.old ++ text_line (codes "gave-up" ∷ abandoned_words abandoned.now)) }
{
    match abandoned {
        Some(endpoint) => {
            let endpoint = endpoint.as_str();
            write!(text, "gave-up abandoned {endpoint}\n")?;
            Ok(())
        }
        None => put_word(text, "gave-up"),
    }
}

// Appends `WORD NUMBER URL`, of an agent that started again.
fn put_start(text: &mut String, word: &str, number: u64, endpoint: &Text) -> Result<(), NoMemory>
    ensures line { OnOk result (string_bytes text.new ≡ string_bytes text.old ++ text_line (word.now ∷ decimal number ∷ endpoint.now ∷ [])) }
{
    let endpoint = endpoint.as_str();
    write!(text, "{word} {number} {endpoint}\n")?;
    Ok(())
}

// Appends `record S NUMBER HEX`.
fn put_record(
    alloc: Global,
    text: &mut String,
    server: u8,
    number: u64,
    bytes: &[u8],
) -> Result<(), NoMemory>
    ensures line { OnOk result (string_bytes text.new ≡ string_bytes text.old ++ text_line
        (codes "record" ∷ decimal server ∷ decimal number ∷ encode_lower bytes.now ∷ [])) }
{
    let digits = hex::encode(alloc, bytes)?;
    write!(text, "record {server} {number} {digits}\n")?;
    Ok(())
}

// Appends `active URL`, and for each file a blank and `NAME=HEX`.
fn put_active(
    alloc: Global,
    text: &mut String,
    endpoint: &str,
    files: &[Pair<AgentConfigFile>],
) -> Result<(), NoMemory>
    ensures line { OnOk result (string_bytes text.new ≡ string_bytes text.old ++ text_line (codes "active" ∷ endpoint.now ∷ map file_word files.now)) }
{
    write!(text, "active {endpoint}")?;
    for file in files {
        let name = file.key.as_str();
        let digits = hex::encode(alloc, file.value.body.as_slice())?;
        write!(text, " {name}={digits}")?;
    }
    text.push('\n')?;
    Ok(())
}
