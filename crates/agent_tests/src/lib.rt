//! Tests of an agent over everything in memory: worked examples of `agent_state`, the rounds of `agent`, also where it heeds what its server sends unasked,
//! the headers that it dials with, and offers that its collector proves; in a crate of their own, since a crate with tests is proved twice.
#![tactic(auto)]

#[cfg(test)]
mod comparing;
#[cfg(test)]
mod heeding;
#[cfg(test)]
mod identifying;
#[cfg(test)]
mod offers;
#[cfg(test)]
mod proving;
#[cfg(test)]
mod refusals;
#[cfg(test)]
mod reports;
#[cfg(test)]
mod rounds;
#[cfg(test)]
mod steps;
#[cfg(test)]
mod values;
