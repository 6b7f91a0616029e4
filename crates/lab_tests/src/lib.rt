//! Scripts played by hand in the lab of `world_lab`, and by the agent's and the servers' own calls beside it, in a crate of their own, since a crate with tests is
//! proved twice.
#![tactic(auto)]

#[cfg(test)]
mod by_hand;
#[cfg(test)]
mod compared;
#[cfg(test)]
mod comparing;
#[cfg(test)]
mod hand;
