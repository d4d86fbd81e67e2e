//! Ids and lives as one number.
ghost use Rattle.std.specs.Prelude.{◌≡◌};
ghost use Rattle.object_table.specs.Keys.{key as spec_key, key_of as spec_key_of, low_key as spec_low_key};

use bw_types::Dated;
use page_layout::LifeEntry;

// The id and the life as one number: it ascends by id and then life.
fn key_of(id: u64, life: u32) -> u128
    ensures { result ≡ spec_key_of id life }
{
    u128::from(id) * (1 << 32) + u128::from(life)
}

/// The key of an object.
pub fn key(dated: &Dated) -> u128
    ensures { result ≡ spec_key dated.now }
{
    key_of(dated.object.id, dated.life)
}

/// Where an entry of an index node begins.
pub fn low_key(entry: &LifeEntry) -> u128
    ensures { result ≡ spec_low_key entry.now }
{
    key_of(entry.low_id, entry.low_life)
}
