ghost use Rattle.std.specs.Prelude.{◌≡◌, ◌<◌};
ghost use Rattle.std.specs.List.{fold};
ghost use Rattle.ndc_model_cells.specs.Shards.{hashed, hash_of, shard_of};

use ndc_event::Name;

/// A hash with one more byte.
fn hashed(hash: u32, byte: u8) -> u32
    ensures { result ≡ hashed hash byte }
{
    (hash ^ byte as u32).wrapping_mul(16777619)
}

/// A hash with more bytes, in order.
fn hashed_all(hash: u32, bytes: &[u8]) -> u32
    ensures { result ≡ fold hashed hash bytes.now }
{
    let mut hash = hash;
    for byte in bytes {
        hash = hashed(hash, *byte);
    }
    hash
}

/// The shard in which a workflow lives, of so many. Takes no memory.
pub fn shard_of(domain: &Name, workflow: &Name, shards: u32) -> u32
    requires { 0 < shards }
    ensures { result ≡ shard_of domain.now workflow.now shards }
{
    let hash = hashed_all(2166136261, domain.as_bytes());
    let hash = hashed_all(hashed(hash, 0), workflow.as_bytes());
    hash % shards
}
