//! Tests of values, of the wire's format, of streams and framed messages, of HTTP that comes in pieces and of scripts: of what reads and writes no message of
//! OpAMP. They stand in one crate, since what a crate of tests costs before its first test is paid once for each.
#![tactic(auto)]

#[cfg(test)]
mod comparing;
#[cfg(test)]
mod http_captured;
#[cfg(test)]
mod http_feeding;
#[cfg(test)]
mod http_reading;
#[cfg(test)]
mod http_writing;
#[cfg(test)]
mod message_copies;
#[cfg(test)]
mod message_runs;
#[cfg(test)]
mod script_lines;
#[cfg(test)]
mod streams;
#[cfg(test)]
mod values;
#[cfg(test)]
mod wire_fields;
