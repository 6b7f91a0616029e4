//! Agents sorted by what became of the offer at them.

ghost use Rattle.std.specs.Prelude.{◌≡◌, ◌+◌, ◌<◌, ◌≤◌, ◌++◌, ◌∷◌, [], ℕ, List, length, drop, take, true, vec_len, vec_capacity};
ghost use Rattle.server_core.specs.History.{is_among};
ghost use Rattle.server_waves.specs.Candidates.{AreUndecided, AreUndecidedBut, is_candidate};
ghost use Rattle.server_waves.specs.Waves.{has_applied, has_failed, is_decided, others, those, without};

use crate::candidates::Candidates;
use crate::judges::Judge;
use crate::verdicts::{Verdict, verdict_of};
use plain_values::{Blob, Uid};
use server_core::Server;
use std::collections::VecDeque;

/// Adds an identifier to a list that has room for it.
pub(crate) fn put_last(uids: &mut Vec<Uid>, uid: Uid)
    requires room { vec_len uids.old < vec_capacity uids.old }
    ensures items { uids.new.items ≡ uids.old.items ++ uid ∷ [] }
    ensures len { vec_len uids.new ≡ vec_len uids.old + 1 }
    ensures capacity { vec_capacity uids.old ≤ vec_capacity uids.new }
{
    if uids.push(uid).is_err() {
        unreachable!()
    }
}

// Adds an agent to the list of those that fared as it did.
fn sort_one<J: Judge>(
    uid: Uid,
    judge: &J,
    hash: &Blob,
    server: &Server,
    rest: &mut Vec<Uid>,
    applied: &mut Vec<Uid>,
    failed: &mut Vec<Uid>,
)
    requires room_to_stay { vec_len rest.old < vec_capacity rest.old }
    requires room_to_apply { vec_len applied.old < vec_capacity applied.old }
    requires room_to_fail { vec_len failed.old < vec_capacity failed.old }
    ensures rest { rest.new.items ≡ rest.old.items ++ others (is_decided (J.finds_fine judge.now) hash.now) server.now.table.records (uid ∷ []) }
    ensures applied { applied.new.items ≡ applied.old.items ++ those (has_applied (J.finds_fine judge.now) hash.now) server.now.table.records (uid ∷ []) }
    ensures failed { failed.new.items ≡ failed.old.items ++ those (has_failed (J.finds_fine judge.now) hash.now) server.now.table.records (uid ∷ []) }
    ensures grown { vec_len rest.new + vec_len applied.new + vec_len failed.new ≡ vec_len rest.old + vec_len applied.old + vec_len failed.old + 1 }
    ensures rest_grown { vec_len rest.old ≤ vec_len rest.new }
    ensures applied_grown { vec_len applied.old ≤ vec_len applied.new }
    ensures failed_grown { vec_len failed.old ≤ vec_len failed.new }
    ensures rest_capacity { vec_capacity rest.old ≤ vec_capacity rest.new }
    ensures applied_capacity { vec_capacity applied.old ≤ vec_capacity applied.new }
    ensures failed_capacity { vec_capacity failed.old ≤ vec_capacity failed.new }
{
    match verdict_of(judge, hash, server.find(&uid)) {
        Verdict::Open => put_last(rest, uid),
        Verdict::Applied => put_last(applied, uid),
        Verdict::Failed => put_last(failed, uid),
    }
}

/// Adds each of the agents to the list of those that fared as it did. Each list has room for all of them.
pub(crate) fn sort<J: Judge>(
    uids: &[Uid],
    judge: &J,
    hash: &Blob,
    server: &Server,
    rest: &mut Vec<Uid>,
    applied: &mut Vec<Uid>,
    failed: &mut Vec<Uid>,
)
    requires room_to_stay { vec_len rest.old + length uids.now ≤ vec_capacity rest.old }
    requires room_to_apply { vec_len applied.old + length uids.now ≤ vec_capacity applied.old }
    requires room_to_fail { vec_len failed.old + length uids.now ≤ vec_capacity failed.old }
    ensures rest { rest.new.items ≡ rest.old.items ++ others (is_decided (J.finds_fine judge.now) hash.now) server.now.table.records uids.now }
    ensures applied { applied.new.items ≡ applied.old.items ++ those (has_applied (J.finds_fine judge.now) hash.now) server.now.table.records uids.now }
    ensures failed { failed.new.items ≡ failed.old.items ++ those (has_failed (J.finds_fine judge.now) hash.now) server.now.table.records uids.now }
    ensures grown { vec_len rest.new + vec_len applied.new + vec_len failed.new ≡ vec_len rest.old + vec_len applied.old + vec_len failed.old + length uids.now }
    ensures rest_grown { vec_len rest.old ≤ vec_len rest.new }
    ensures applied_grown { vec_len applied.old ≤ vec_len applied.new }
    ensures failed_grown { vec_len failed.old ≤ vec_len failed.new }
    ensures rest_capacity { vec_capacity rest.old ≤ vec_capacity rest.new }
    ensures applied_capacity { vec_capacity applied.old ≤ vec_capacity applied.new }
    ensures failed_capacity { vec_capacity failed.old ≤ vec_capacity failed.new }
{
    for uid in uids {
        sort_one(*uid, judge, hash, server, rest, applied, failed);
    }
}

// Moves the agent at the place to the list of those that fared as it did, where that is known. It gives the place of the next one.
fn sort_at<J: Judge>(
    at: usize,
    judge: &J,
    hash: &Blob,
    server: &Server,
    offered: &mut Vec<Uid>,
    applied: &mut Vec<Uid>,
    failed: &mut Vec<Uid>,
) -> usize
    requires within { at < vec_len offered.old }
    requires undecided { AreUndecided (J.finds_fine judge.now) hash.now server.now.table.records (take at offered.old.items) }
    requires room_to_apply { vec_len applied.old < vec_capacity applied.old }
    requires room_to_fail { vec_len failed.old < vec_capacity failed.old }
    ensures undecided { AreUndecided (J.finds_fine judge.now) hash.now server.now.table.records (take result offered.new.items) }
    ensures others { others (is_decided (J.finds_fine judge.now) hash.now) server.now.table.records offered.new.items ≡ others (is_decided (J.finds_fine judge.now) hash.now) server.now.table.records offered.old.items }
    ensures applied { applied.new.items ++ those (has_applied (J.finds_fine judge.now) hash.now) server.now.table.records offered.new.items
        ≡ applied.old.items ++ those (has_applied (J.finds_fine judge.now) hash.now) server.now.table.records offered.old.items }
    ensures failed { failed.new.items ++ those (has_failed (J.finds_fine judge.now) hash.now) server.now.table.records offered.new.items
        ≡ failed.old.items ++ those (has_failed (J.finds_fine judge.now) hash.now) server.now.table.records offered.old.items }
    ensures fewer { (uid : List ℕ) → is_among offered.new.items uid ≡ true → is_among offered.old.items uid ≡ true }
    ensures grown { vec_len offered.new + vec_len applied.new + vec_len failed.new ≡ vec_len offered.old + vec_len applied.old + vec_len failed.old }
    ensures nearer { vec_len offered.new + at + 1 ≡ vec_len offered.old + result }
    ensures next { result ≤ at + 1 }
    ensures applied_grown { vec_len applied.old ≤ vec_len applied.new }
    ensures failed_grown { vec_len failed.old ≤ vec_len failed.new }
    ensures applied_capacity { vec_capacity applied.old ≤ vec_capacity applied.new }
    ensures failed_capacity { vec_capacity failed.old ≤ vec_capacity failed.new }
{
    let uid = offered[at];
    match verdict_of(judge, hash, server.find(&uid)) {
        Verdict::Open => at + 1,
        Verdict::Applied => {
            offered.remove(at);
            put_last(applied, uid);
            at
        }
        Verdict::Failed => {
            offered.remove(at);
            put_last(failed, uid);
            at
        }
    }
}

/// Moves each of the agents that is a candidate to the list of those that fared as it did, where that is known. Of the others it isn't.
pub(crate) fn sort_few<J: Judge>(
    candidates: &Candidates,
    judge: &J,
    hash: &Blob,
    server: &Server,
    offered: &mut Vec<Uid>,
    applied: &mut Vec<Uid>,
    failed: &mut Vec<Uid>,
)
    requires undecided { AreUndecidedBut (is_candidate candidates.now) (J.finds_fine judge.now) hash.now server.now.table.records offered.old.items }
    requires room_to_apply { vec_len applied.old + vec_len offered.old ≤ vec_capacity applied.old }
    requires room_to_fail { vec_len failed.old + vec_len offered.old ≤ vec_capacity failed.old }
    ensures offered { offered.new.items ≡ others (is_decided (J.finds_fine judge.now) hash.now) server.now.table.records offered.old.items }
    ensures applied { applied.new.items ≡ applied.old.items ++ those (has_applied (J.finds_fine judge.now) hash.now) server.now.table.records offered.old.items }
    ensures failed { failed.new.items ≡ failed.old.items ++ those (has_failed (J.finds_fine judge.now) hash.now) server.now.table.records offered.old.items }
    ensures grown { vec_len offered.new + vec_len applied.new + vec_len failed.new ≡ vec_len offered.old + vec_len applied.old + vec_len failed.old }
    ensures applied_grown { vec_len applied.old ≤ vec_len applied.new }
    ensures failed_grown { vec_len failed.old ≤ vec_len failed.new }
    ensures applied_capacity { vec_capacity applied.old ≤ vec_capacity applied.new }
    ensures failed_capacity { vec_capacity failed.old ≤ vec_capacity failed.new }
{
    let mut at = 0;
    while at < offered.len() {
        if candidates.contains(&offered[at]) {
            at = sort_at(at, judge, hash, server, offered, applied, failed);
        } else {
            at += 1;
        }
    }
}

/// Lets an agent go from a list.
pub(crate) fn drop_all(uids: &mut Vec<Uid>, uid: &Uid)
    ensures items { uids.new.items ≡ without uid.now uids.old.items }
    ensures len { vec_len uids.new ≤ vec_len uids.old }
    ensures capacity { vec_capacity uids.new ≡ vec_capacity uids.old }
{
    uids.retain(|other| other.as_slice() != uid.as_slice());
}

/// Lets an agent go from a list, whose first ones, of this number, are told apart. It tells how many of those are left.
pub(crate) fn drop_from(uids: &mut Vec<Uid>, first: usize, uid: &Uid) -> usize
    requires within { first ≤ vec_len uids.old }
    ensures first { take result uids.new.items ≡ without uid.now (take first uids.old.items) }
    ensures rest { drop result uids.new.items ≡ without uid.now (drop first uids.old.items) }
    ensures within { result ≤ vec_len uids.new }
    ensures len { vec_len uids.new ≤ vec_len uids.old }
    ensures capacity { vec_capacity uids.new ≡ vec_capacity uids.old }
{
    let left = count_others(&uids.as_slice()[..first], uid);
    drop_all(uids, uid);
    left
}

// How many of these aren't the agent.
fn count_others(uids: &[Uid], uid: &Uid) -> usize
    ensures number { result ≡ length (without uid.now uids.now) }
{
    uids.iter()
        .filter(|other| other.as_slice() != uid.as_slice())
        .count()
}

/// Lets an agent go from those that wait.
pub(crate) fn drop_waiting(uids: &mut VecDeque<Uid>, uid: &Uid)
    ensures items { uids.new.items ≡ without uid.now uids.old.items }
{
    uids.retain(|other| other.as_slice() != uid.as_slice());
}
