//! Places by which calls reach nodes.
ghost use Rattle.std.specs.Prelude.{◌↔◌, ℕ, IsTrue};

use crate::{TreePage, View};

/// The place by which a call reaches a node of a tree.
pub trait PlaceFor<T: TreePage>: Copy {
    /// A node of this level keeps to the place.
    ghost admits: { ℕ → Self → T → Type 0 };

    /// Whether a node of this level keeps to the place.
    fn admits(&self, level: u8, node: &T) -> bool
        ensures { IsTrue result ↔ admits level self.now node.now };

    /// Whether a node of this level, which is read in place, keeps to the place.
    fn admits_view(&self, level: u8, view: &View<T>) -> bool
        ensures { IsTrue result ↔ admits level self.now view.now }
    {
        self.admits(level, &view.to_value())
    }
}
