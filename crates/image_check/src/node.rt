//! Reading the nodes of a table in either form.
ghost use Rattle.std.specs.Prelude.{◌≡◌, ◌≤◌, ℕ, List, length, map, Some, Err, IsTrue, IfOk};
ghost use Rattle.ports.specs.Calls.{OnlyReads};
ghost use Rattle.page_layout.specs.TableNode.{IsTableNode};
ghost use Rattle.object_table.specs.Nodes.{FitsLevel, life_node as spec_life_node, life_entry as spec_life_entry, objects_in, entries_in};

use arrayvec::ArrayVec;
use bw_types::Dated;
use object_table::Form;
use page_layout::{LifeEntry, LifeNode, TableEntry, TableNode, read_level};
use ports::{PageFault, Pages};

/// The node of this level that the page spells. A node by ids is told as one by lives.
///
/// `Damaged` comes exactly where the page is not in the map or spells no such node, save where the device
/// failed first.
pub fn read_node<P: Pages>(
    pages: &mut P,
    form: Form,
    page: u64,
    level: u8,
) -> Result<LifeNode, PageFault>
    ensures fits { IfOk result (λ node. (bytes : List ℕ) × FitsLevel form level node bytes × (IsTrue (P.tells pages.old) → P.map pages.old page ≡ Some bytes)) }
    ensures damaged { (p : ℕ) → result ≡ Err (PageFault.Damaged p) → IsTrue (P.tells pages.old)
        → (node : LifeNode) (bytes : List ℕ) → P.map pages.old page ≡ Some bytes → FitsLevel form level node bytes → ⊥ }
    ensures reads { OnlyReads P.Pages 1 pages.old pages.new result }
{
    match form {
        Form::ByLives => {
            let node: LifeNode = read_level(pages, page, level)?;
            Ok(node)
        }
        Form::ByIds => {
            let node: TableNode = read_level(pages, page, level)?;
            Ok(as_life_node(&node))
        }
    }
}

fn as_life_node(node: &TableNode) -> LifeNode
    requires { IsTableNode node.now }
    ensures { result ≡ spec_life_node node.now }
{
    match node {
        TableNode::Leaf { objects } => LifeNode::Leaf {
            objects: copied_objects(objects.as_slice()),
        },
        TableNode::Index { level, entries } => LifeNode::Index {
            level: *level,
            entries: as_life_entries(entries.as_slice()),
        },
    }
}

fn copied_objects(objects: &[Dated]) -> ArrayVec<Dated, 15>
    requires { length objects.now ≤ 15 }
    ensures { result.items ≡ objects.now }
{
    let mut copied = ArrayVec::new();
    for object in objects {
        copied.push(*object);
    }
    copied
}

fn as_life_entries(entries: &[TableEntry]) -> ArrayVec<LifeEntry, 201>
    requires { length entries.now ≤ 200 }
    ensures { result.items ≡ map spec_life_entry entries.now }
{
    let mut copied = ArrayVec::new();
    for entry in entries {
        copied.push(as_life_entry(entry));
    }
    copied
}

fn as_life_entry(entry: &TableEntry) -> LifeEntry
    ensures { result ≡ spec_life_entry entry.now }
{
    LifeEntry {
        low_id: entry.low,
        low_life: 0,
        child: entry.child,
    }
}

/// The objects of a leaf; an index node has none.
pub fn objects_of(node: &LifeNode) -> &[Dated]
    ensures { result.now ≡ objects_in node.now }
{
    match node {
        LifeNode::Leaf { objects } => objects.as_slice(),
        LifeNode::Index {
            level: _,
            entries: _,
        } => &[],
    }
}

/// The entries of an index node; a leaf has none.
pub fn entries_of(node: &LifeNode) -> &[LifeEntry]
    ensures { result.now ≡ entries_in node.now }
{
    match node {
        LifeNode::Leaf { objects: _ } => &[],
        LifeNode::Index { level: _, entries } => entries.as_slice(),
    }
}
