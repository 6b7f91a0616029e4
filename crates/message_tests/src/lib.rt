//! Tests of messages as bytes and as texts: of reports, whole ones, short ones and those that come in pieces, of what a report leaves out since it is held
//! already, and of replies; in a crate of their own, since a crate with tests is proved twice.
#![tactic(auto)]

#[cfg(test)]
mod attributes;
#[cfg(test)]
mod comparing;
#[cfg(test)]
mod heartbeats;
#[cfg(test)]
mod replies;
#[cfg(test)]
mod report_changes;
#[cfg(test)]
mod report_holds;
#[cfg(test)]
mod report_pieces;
#[cfg(test)]
mod report_states;
#[cfg(test)]
mod reports;
#[cfg(test)]
mod scalars;
#[cfg(test)]
mod texts;
#[cfg(test)]
mod written_reports;
