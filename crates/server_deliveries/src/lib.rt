//! Delivering offers behind the events of a session: at once to the agents that hold a connection of WebSocket, where an operator's order names
//! them ([`serve_pushing`]), and by the points of the server's rollouts besides ([`serve_delivering`]).
#![tactic(auto)]

mod deliveries;
mod laws;
mod lists;
mod pushing;
mod routes;

pub use deliveries::{Delivery, serve_delivering};
pub use laws::{
    deliveries_are_histories, deliveries_have_cases, deliveries_keep_width, one_rollout_is_a_case,
    pushing_sessions_are_cases, pushing_sessions_are_histories, sessions_keep_width,
};
pub use plain_values::NoMemory;
pub use pushing::{push_behind, push_due, push_to_all, serve_pushing};
pub use routes::Routes;
