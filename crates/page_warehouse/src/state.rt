//! The warehouse that is kept open on a disk.
ghost use Rattle.std.specs.Prelude.{◌≡◌, ◌+◌, ◌^◌, ◌<◌, ◌≤◌, Bool, length};
ghost use Rattle.bw_types.specs.History.{History, changes, last_version};
ghost use Rattle.bw_types.specs.Fits.{IsInRange};
ghost use Rattle.corner_forest.specs.Entries.{root_count};
ghost use Rattle.page_space.specs.Shown.{meta_of, params_of};

use bw_types::Params;
use corner_forest::Forest;
use dom_index::DomIndex;
use page_disk::Disk;
use page_space::{Space, holds_one};
use std::alloc::Global;
use std::marker::PhantomData;

/// A warehouse on a disk, over an index of points.
///
/// Queries read the trees of the index alone, through the cache of the space.
#[derive(Drop)]
pub struct Warehouse<D: Disk, X: DomIndex> {
    pub(crate) alloc: Global,
    pub(crate) space: Space<D>,
    pub(crate) forest: Forest,
    pub(crate) index: PhantomData<X>,
    // The forest is that of the meta page, and the numbers there go together.
    ghost dims: { (params_of space).dims ≤ X.DIMS },
    ghost params: { forest.params ≡ params_of space },
    ghost trees: { forest.roots.items ≡ (meta_of space).roots.items },
    ghost roots: { length (meta_of space).roots.items ≡ root_count (params_of space) },
    ghost rows: { (meta_of space).version + (meta_of space).rows ≡ (meta_of space).events },
    ghost events: { (meta_of space).events ≤ (params_of space).events },
    ghost mass: { (meta_of space).mass < 2 ^ 126 },
}

impl<D: Disk, X: DomIndex> Warehouse<D, X> {
    ghost use Rattle.page_warehouse.specs.Shown.{HoldsHistory, disk_in, meta_in, params_in};

    /// What the warehouse was made for.
    pub fn params(&self) -> Params
        ensures value { result ≡ params_in self.now }
        ensures in_range { IsInRange result }
    {
        self.space.params()
    }

    /// The number of the last version; 0 before the first commit.
    pub fn last(&self) -> u32
        ensures value { result ≡ (meta_in self.now).version }
        ensures held { (whole : Bool) (h : History) → HoldsHistory D.Disk X.DomIndex whole (disk_in self.now) (params_in self.now) h → result ≡ last_version h }
    {
        holds_one();
        self.space.is_held();
        self.space.meta().version
    }

    /// How many adds and withdrawals the history has, by the meta page.
    pub fn rows(&self) -> u32
        ensures value { result ≡ (meta_in self.now).rows }
        ensures held { (whole : Bool) (h : History) → HoldsHistory D.Disk X.DomIndex whole (disk_in self.now) (params_in self.now) h → result ≡ length (changes h) }
    {
        holds_one();
        self.space.is_held();
        self.space.meta().rows
    }

    /// The disk as it stands.
    pub fn into_disk(self) -> D
        ensures { result ≡ disk_in self }
    {
        let Warehouse {
            alloc: _,
            space,
            forest: _,
            index: _,
        } = self;
        space.into_disk()
    }
}
