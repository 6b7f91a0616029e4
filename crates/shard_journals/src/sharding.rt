//! Which shard handles the reports of an agent.

ghost use Rattle.std.specs.Prelude.{◌≡◌};
ghost use Rattle.shard_journals.specs.Sharding.{shard_of};

/// The number of shards.
pub const SHARDS: u64 = 4;

/// What each shard's server can do (OpAMP specification, "ServerCapabilities"): it accepts status and effective
/// configurations.
pub const FLEET_CAPABILITIES: u64 = 0x5;

/// The shard of an agent, by its identifier: the last of its 16 bytes modulo the number of shards. Another length has the
/// shard 0. Takes no memory.
pub fn shard_of(uid: &[u8]) -> u64
    ensures shard { result ≡ shard_of uid.now }
{
    if uid.len() == 16 {
        u64::from(uid[15]) % SHARDS
    } else {
        0
    }
}
