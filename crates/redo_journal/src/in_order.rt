//! Images one after another.
ghost use Rattle.std.specs.Prelude.{◌≡◌, ◌<◌, ◌∷◌, ◌+◌, [], None, IfSome, IsTrue, length};
ghost use Rattle.std.specs.List.{All};
ghost use Rattle.redo_journal.specs.Boxed.{ascends, unboxed};
ghost use Rattle.redo_journal.specs.Placing.{homes_of, map_of};

use ports::Page;
use std::collections::btree_map::Iter;

/// The images of an `Images` that are still to come, in ascending order of their pages.
#[derive(Drop)]
pub struct InOrder<'a> {
    pub(crate) rest: Iter<'a, u64, Box<Page>>,
    ghost ordered: { IsTrue (ascends (homes_of (unboxed rest))) },
}

impl<'a> InOrder<'a> {
    ghost use Rattle.redo_journal.specs.Images.{coming};

    /// The next image and its page; none where all have come.
    pub fn next(&mut self) -> Option<(u64, &'a Page)>
        ensures some { IfSome result (λ found. coming self.old ≡ (found.0, found.1.now) ∷ coming self.new) }
        ensures none { result ≡ None → coming self.old ≡ [] }
        // The pages that are still to come are above it.
        ensures ascends { IfSome result (λ found. All (λ home. found.0 < home) (homes_of (coming self.new))) }
        // No page comes twice.
        ensures once { IfSome result (λ found. map_of (coming self.new) found.0 ≡ None) }
    {
        match self.rest.next() {
            Some((page, image)) => Some((*page, image)),
            None => None,
        }
    }
}
