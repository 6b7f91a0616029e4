//! Worked examples of the store, and lists of saves that are stopped at each device call, over a payload of plain bytes; what a supervisor keeps, as bytes and
//! over the store; offers that can fail, custom messages, and one test of each adapter over a real folder, clock and source of random bytes. They stand in a
//! crate of their own, since a crate with tests is proved twice.
#![tactic(auto)]

#[cfg(test)]
mod custom_messages;
#[cfg(test)]
mod keeping;
#[cfg(test)]
mod kept;
#[cfg(test)]
mod kept_file;
#[cfg(test)]
mod kept_payloads;
#[cfg(test)]
mod notes;
#[cfg(test)]
mod offer_configs;
#[cfg(test)]
mod offer_keeping;
#[cfg(test)]
mod offer_packages;
#[cfg(test)]
mod package_syncing;
#[cfg(test)]
mod real_edges;
#[cfg(test)]
mod redirected;
#[cfg(test)]
mod saves;
#[cfg(test)]
mod stops;
#[cfg(test)]
mod values;
