//! Worked examples of every command by its words, over everything in memory, and of the program's arguments. They stand in one crate, since what it costs to
//! lay out the types of the top call for a test is paid once for each.
#![tactic(auto)]

#[cfg(test)]
mod agent;
#[cfg(test)]
mod answer;
#[cfg(test)]
mod arguments;
#[cfg(test)]
mod canon;
#[cfg(test)]
mod check;
#[cfg(test)]
mod comparing;
#[cfg(test)]
mod fault;
#[cfg(test)]
mod fleet;
#[cfg(test)]
mod frames;
#[cfg(test)]
mod lent;
#[cfg(test)]
mod notes;
#[cfg(test)]
mod pushing;
#[cfg(test)]
mod reports;
#[cfg(test)]
mod rollout;
#[cfg(test)]
mod runs;
#[cfg(test)]
mod serve;
#[cfg(test)]
mod show;
#[cfg(test)]
mod simulate;
#[cfg(test)]
mod storm;
#[cfg(test)]
mod world;
