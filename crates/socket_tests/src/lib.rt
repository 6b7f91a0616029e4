//! Tests over real sockets of 127.0.0.1, real files and real clocks: the server's sockets, the agent's connections, and both ends together, in a crate of
//! their own, since a crate with tests is proved twice.
#![tactic(auto)]

#[cfg(test)]
mod answering;
#[cfg(test)]
mod asking;
#[cfg(test)]
mod comparing;
#[cfg(test)]
mod dialer_greets;
#[cfg(test)]
mod dialer_pieces;
#[cfg(test)]
mod dialer_polls;
#[cfg(test)]
mod dialer_talks;
#[cfg(test)]
mod dialer_waits;
#[cfg(test)]
mod files;
#[cfg(test)]
mod frames;
#[cfg(test)]
mod identifying;
#[cfg(test)]
mod operator;
#[cfg(test)]
mod pushes;
#[cfg(test)]
mod runs;
#[cfg(test)]
mod servers;
#[cfg(test)]
mod steering;
#[cfg(test)]
mod texts;
#[cfg(test)]
mod watching;
#[cfg(test)]
mod wire_cuts;
#[cfg(test)]
mod wire_ends;
#[cfg(test)]
mod wire_exchanges;
#[cfg(test)]
mod wire_places;
#[cfg(test)]
mod wire_silence;
