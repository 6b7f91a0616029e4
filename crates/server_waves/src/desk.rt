//! What events can change of a server.

use crate::register::Rollouts;
use server_core::Server;

/// What events can change beside the random bytes: what is known of the agents and waits for them, and the rollouts.
pub struct ServerDesk {
    /// What answers reports.
    pub server: Server,
    /// The rollouts, in the order of begin.
    pub rollouts: Rollouts,
}

// By hand, so that it is a call where a value is dropped, and not laid out there.
impl Drop for ServerDesk {
    fn drop(self) {
        let ServerDesk {
            server: _,
            rollouts: _,
        } = self;
    }
}
