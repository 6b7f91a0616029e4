//! What an agent is started with.

use agent_store::Layout;
use message_values::Settings;
use plain_values::Uid;

/// What an agent is started with, each time.
pub struct Opening {
    /// The layout of its disk.
    pub layout: Layout,
    /// Its identifier, while nothing is kept.
    pub uid: Uid,
    /// Its settings, while nothing is kept.
    pub settings: Settings,
    /// Whether it asks for an identifier until a server has given one.
    pub asks_uid: bool,
}

// By hand, so that it is a call where a value is dropped, and not laid out there.
impl Drop for Opening {
    fn drop(self) {
        let Opening {
            layout: _,
            uid: _,
            settings: _,
            asks_uid: _,
        } = self;
    }
}
