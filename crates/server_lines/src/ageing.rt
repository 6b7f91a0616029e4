//! When agents were heard last, told.

ghost use Rattle.std.specs.Prelude.{◌≡◌, ◌++◌, IfOk, OnOk};
ghost use Rattle.std.specs.String.{string_bytes};
ghost use Rattle.server_lines.specs.Answers.{age_line, line_by_mark, line_of_age, text_of_ages, way_word};
ghost use Rattle.server_lines.specs.Sights.{is_known, numbers_in, sight_of};

use crate::listing::uuid_of;
use crate::sights::{Mark, Sightings};
use plain_values::{NoMemory, Text, Uid};
use server_core::Record;
use std::alloc::Global;
use std::collections::BTreeMap;

fn is_known<V>(known: &BTreeMap<u64, V>, conn: u64) -> bool
    ensures known { result ≡ is_known (numbers_in known.now.entries) conn }
{
    known.contains_key(&conn)
}

fn way_word<V>(known: &BTreeMap<u64, V>, mark: &Mark) -> &'static str
    ensures word { result.now ≡ way_word (numbers_in known.now.entries) mark.now }
{
    if !mark.ws {
        "http"
    } else if is_known(known, mark.conn) {
        "open"
    } else {
        "closed"
    }
}

#[tactic(auto, unfolding(crate::specs::Answers::age_line))]
fn put_line(text: &mut String, uid: &Uid, seconds: u64, way: &str) -> Result<(), NoMemory>
    ensures ok { OnOk result (string_bytes text.new ≡ string_bytes text.old ++ age_line uid.now seconds way.now) }
{
    let uid = uuid_of(uid);
    write!(text, "{uid} {seconds} {way}\n")?;
    Ok(())
}

fn put_age<V>(
    text: &mut String,
    agent: &Record,
    seen: &Sightings,
    known: &BTreeMap<u64, V>,
) -> Result<(), NoMemory>
    ensures ok { OnOk result (string_bytes text.new ≡ string_bytes text.old ++ line_of_age (sight_of seen.now (numbers_in known.now.entries)) agent.now) }
{
    let Some(mark) = seen.mark(&agent.uid) else {
        return Ok(());
    };
    let seconds = seen.second().saturating_sub(mark.second);
    put_line(text, &agent.uid, seconds, way_word(known, &mark))
}

/// The lines of the agents that have a mark, and `end`.
#[tactic(auto, unfolding(crate::specs::Answers::text_of_ages))]
pub fn ages_text<V>(
    alloc: Global,
    agents: &[Record],
    seen: &Sightings,
    known: &BTreeMap<u64, V>,
) -> Result<Text, NoMemory>
    ensures text { IfOk result (λ text. text ≡ text_of_ages (sight_of seen.now (numbers_in known.now.entries)) agents.now) }
{
    let mut text = String::new(alloc);
    for agent in agents {
        put_age(&mut text, agent, seen, known)?;
    }
    text.push_str("end\n")?;
    Ok(Text::of(text))
}
