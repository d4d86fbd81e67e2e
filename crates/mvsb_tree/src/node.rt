//! Nodes read out of their pages, and put back through a buffer.
ghost use Rattle.std.specs.Prelude.{◌≡◌, ◌≢◌, ℕ, [], Err, IsTrue, IsSome, OnOk};
ghost use Rattle.page_layout.specs.MvNode.{IsMvNode, mv_node_page};
ghost use Rattle.ports.specs.Calls.{Grows};
ghost use Rattle.ports.specs.Pages.{put_page};

use arrayvec::ArrayVec;
use page_layout::{MvNode, Spelled, View};
use ports::{Page, Stage, StageFault};

/// A node without entries, which spells no page: room for one that is read.
#[inline(always)]
pub fn no_node() -> MvNode
    ensures { result.entries.items ≡ [] }
{
    MvNode {
        level: 0,
        place: 0,
        before: 0,
        entries: ArrayVec::new(),
    }
}

/// Makes `node` the one that the view shows, whatever it was.
///
/// A node is larger than a page. So it is filled where it stands, and not handed back.
pub fn read_node(view: &View<MvNode>, node: &mut MvNode)
    ensures { node.new ≡ view.now }
{
    view.keeps_rules();
    node.level = view.level();
    node.place = view.place();
    node.before = view.before();
    node.entries.clear();
    for index in 0..view.len() {
        node.entries.push(view.entry(index));
    }
}

/// Overwrites the page with the node, which is first written to `bytes`; what they held does not matter.
///
/// `Damaged` and `PageLimit` never come where the map is told.
pub fn put_node<S: Stage>(
    stage: &mut S,
    page: u64,
    node: &MvNode,
    bytes: &mut Page,
) -> Result<(), StageFault>
    requires rules { IsMvNode node.now }
    requires in_map { IsTrue (S.tells stage.old) → IsSome (S.map stage.old page) }
    ensures ok { OnOk result (IsTrue (S.tells stage.old) → S.map stage.new ≡ put_page (S.map stage.old) page (mv_node_page node.now)) }
    ensures damaged { (p : ℕ) → IsTrue (S.tells stage.old) → result ≢ Err (StageFault.Damaged p) }
    ensures grows { Grows S.Pages 0 stage.old stage.new result }
{
    node.write(bytes);
    stage.put(page, bytes)
}
