//! What a verdict rules out.
ghost use Rattle.page_disk.specs.Image.{Image};
ghost use Rattle.image_check.specs.Laws.{BrokenIsNo, PartsFollow};

use dom_index::DomIndex;
use history_laws::lives_name_changes;

/// Each part takes the ones before it, so at most one verdict is right of a disk; it does nothing when it runs.
pub fn verdicts_are_right<X: DomIndex>()
    ensures follow { (x : Image) → PartsFollow X.DomIndex x }
    ensures broken { (x : Image) → BrokenIsNo X.DomIndex x }
{
    lives_name_changes();
}
