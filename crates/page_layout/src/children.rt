//! Which child an entry of a tree page may have.
ghost use Rattle.std.specs.Prelude.{◌≡◌};
ghost use Rattle.page_layout.specs.Children.{child_fits};

/// Whether an entry of a node of this level may have this child: none, spelled 0, in a leaf, and
/// else a page number of at least 3.
pub(crate) fn child_fits(level: u8, child: u64) -> bool
    ensures { result ≡ child_fits level child }
{
    // One range for each level: a loop over entries finds it once, and no entry asks for the level.
    let least = if level == 1 { 0 } else { 3 };
    let more = if level == 1 { 0 } else { u64::MAX - 3 };
    child.wrapping_sub(least) <= more
}
