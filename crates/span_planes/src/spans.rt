//! The spans that are kept open on a disk.
ghost use Rattle.std.specs.Prelude.{◌≡◌, ◌≤◌, length};
ghost use Rattle.bw_types.specs.Fits.{IsInRange};
ghost use Rattle.bw_types.specs.History.{History, last_version};
ghost use Rattle.bw_types.specs.declared.params.Params.{Params as ParamsValue};
ghost use Rattle.page_space.specs.Shown.{meta_of, params_of};
ghost use Rattle.span_planes.specs.SpanHolds.{without_degree};
ghost use Rattle.span_planes.specs.SpanPoints.{span_roots};

use arrayvec::ArrayVec;
use bw_types::{Params, Tree};
use dom_index::DomIndex;
use page_disk::Disk;
use page_space::{Space, holds_one};
use std::marker::PhantomData;

/// The spans of a warehouse on a disk of their own, over an index of points.
#[derive(Drop)]
pub struct Spans<E: Disk, X: DomIndex> {
    pub(crate) space: Space<E>,
    pub(crate) roots: ArrayVec<Tree, 96>,
    pub(crate) index: PhantomData<X>,
    // The trees are those of the meta page, whose numbers go together.
    ghost trees: { roots.items ≡ (meta_of space).roots.items },
    ghost dims: { (params_of space).dims ≤ X.DIMS },
    ghost count: { length (meta_of space).roots.items ≡ span_roots (params_of space) },
    ghost events: { (meta_of space).events ≡ 0 },
}

impl<E: Disk, X: DomIndex> Spans<E, X> {
    ghost use Rattle.span_planes.specs.Shown.{HoldsSpans, disk_in, meta_in, params_in};

    /// The params of the warehouse whose spans these are, without its degree.
    pub fn params(&self) -> Params
        ensures value { result ≡ params_in self.now }
        ensures in_range { IsInRange result }
        ensures held { (params : ParamsValue) (h : History) → HoldsSpans E.Disk X.DomIndex (disk_in self.now) params h → result ≡ without_degree params }
    {
        holds_one();
        self.space.is_held();
        self.space.params()
    }

    /// The number of the last version; 0 before the first commit.
    pub fn last(&self) -> u32
        ensures value { result ≡ (meta_in self.now).version }
        ensures held { (params : ParamsValue) (h : History) → HoldsSpans E.Disk X.DomIndex (disk_in self.now) params h → result ≡ last_version h }
    {
        holds_one();
        self.space.is_held();
        self.space.meta().version
    }

    /// The disk as it stands.
    pub fn into_disk(self) -> E
        ensures { result ≡ disk_in self }
    {
        let Spans {
            space,
            roots: _,
            index: _,
        } = self;
        space.into_disk()
    }
}
