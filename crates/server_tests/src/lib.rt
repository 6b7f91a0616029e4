//! Tests of `server_core`, of the operator's lines over it, and of its journals and shards over threads, in a crate of their own, since a crate with tests is
//! proved twice.
#![tactic(auto)]

#[cfg(test)]
mod comparing;
#[cfg(test)]
mod exchanges;
#[cfg(test)]
mod journal_lines;
#[cfg(test)]
mod kept_offers;
#[cfg(test)]
mod offer_lines;
#[cfg(test)]
mod offers;
#[cfg(test)]
mod operator_words;
#[cfg(test)]
mod records;
#[cfg(test)]
mod replies;
#[cfg(test)]
mod rollout_lines;
#[cfg(test)]
mod shard_gates;
#[cfg(test)]
mod shard_replies;
#[cfg(test)]
mod shard_reports;
#[cfg(test)]
mod shard_runs;
#[cfg(test)]
mod shard_told;
#[cfg(test)]
mod sight_lines;
