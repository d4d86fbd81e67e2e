//! Nodes of a table that are read where their page stands, in either form.
ghost use Rattle.std.specs.Prelude.{◌≡◌, ◌≤◌, ◌<◌, ℕ, List, length, get_or, Some, Err, IsTrue, IfOk};
ghost use Rattle.std.specs.List.{All};
ghost use Rattle.bw_types.specs.declared.dated.Dated.{Dated};
ghost use Rattle.ports.specs.Calls.{OnlyReads};
ghost use Rattle.page_layout.specs.Dated.{by_life_fits};
ghost use Rattle.page_layout.specs.TreePage.{FitsLevel, HoldsNoLevel};
ghost use Rattle.page_layout.specs.declared.life_node.LifeNode.{LifeNode};
ghost use Rattle.page_layout.specs.declared.life_node.LifeEntry.{LifeEntry};
ghost use Rattle.object_table.specs.Keys.{key as spec_key};
ghost use Rattle.object_table.specs.Nodes.{FitsLevel as FitsForm, objects_in, entries_in};
ghost use Rattle.object_table.specs.Views.{IsInOrder, shown_by};

use crate::form::Form;
use crate::key::{key, key_of};
use crate::node::as_life_entry;
use arrayvec::ArrayVec;
use bw_types::Dated;
use page_layout::{LifeEntry, LifeNode, TableNode, TreePage, View, view_page};
use ports::{Page, PageFault, Pages};
use std::marker::Model;

/// A node that is read where its page stands.
///
/// In contracts it is that node, told as one by lives.
#[derive(Drop)]
pub struct NodeView<'a> {
    shown: Shown<'a>,
}

/// The view of a node in its form.
#[derive(Drop)]
enum Shown<'a> {
    Lives { node: View<'a, LifeNode> },
    Ids { node: View<'a, TableNode> },
}

impl<'a> Model for NodeView<'a> {
    ghost use Rattle.page_layout.specs.declared.life_node.LifeNode.{LifeNode};
    ghost use Rattle.object_table.specs.Views.{IsInOrder, shown_by};

    ghost Value = { LifeNode };

    ghost view = { λ v. shown_by v.shown };

    ghost invariant = { λ v. IsInOrder (shown_by v.shown) };
}

impl<'a> NodeView<'a> {
    /// Proves that the node's entries are in order, and how many they are; it does nothing when it runs.
    pub fn is_in_order(&self)
        ensures { IsInOrder self.now }
    {
        let _ = &self.shown;
    }

    /// How many objects there are; an index node has none.
    pub fn object_count(&self) -> usize
        ensures { result ≡ length (objects_in self.now) }
    {
        match &self.shown {
            Shown::Lives { node } => node.object_count(),
            Shown::Ids { node } => node.object_count(),
        }
    }

    /// The object at this place of a leaf.
    pub fn object(&self, place: usize) -> Dated
        requires { place < length (objects_in self.now) }
        ensures { (d : Dated) → result ≡ get_or (objects_in self.now) place d }
    {
        match &self.shown {
            Shown::Lives { node } => node.object(place),
            Shown::Ids { node } => node.object(place),
        }
    }

    /// The id of the object at this place of a leaf.
    pub fn object_id(&self, place: usize) -> u64
        requires { place < length (objects_in self.now) }
        ensures { (d : Dated) → result ≡ (get_or (objects_in self.now) place d).object.id }
    {
        match &self.shown {
            Shown::Lives { node } => node.object_id(place),
            Shown::Ids { node } => node.object_id(place),
        }
    }

    /// The key of the object at this place of a leaf.
    pub fn object_key(&self, place: usize) -> u128
        requires { place < length (objects_in self.now) }
        ensures { (d : Dated) → result ≡ spec_key (get_or (objects_in self.now) place d) }
    {
        match &self.shown {
            Shown::Lives { node } => key_of(node.object_id(place), node.object_life(place)),
            Shown::Ids { node } => key(&node.object(place)),
        }
    }

    /// How many entries there are; a leaf has none.
    pub fn entry_count(&self) -> usize
        ensures { result ≡ length (entries_in self.now) }
    {
        match &self.shown {
            Shown::Lives { node } => node.entry_count(),
            Shown::Ids { node } => node.entry_count(),
        }
    }

    /// The entry at this place of an index node.
    pub fn entry(&self, place: usize) -> LifeEntry
        requires { place < length (entries_in self.now) }
        ensures { (e : LifeEntry) → result ≡ get_or (entries_in self.now) place e }
    {
        match &self.shown {
            Shown::Lives { node } => node.entry(place),
            Shown::Ids { node } => as_life_entry(&node.entry(place)),
        }
    }

    /// The objects, in a row of their own.
    pub fn objects(&self) -> ArrayVec<Dated, 15>
        ensures { result.items ≡ objects_in self.now }
    {
        self.is_in_order();
        let mut objects = ArrayVec::new();
        for place in 0..self.object_count() {
            objects.push(self.object(place));
        }
        objects
    }

    /// The entries, in a row of their own.
    pub fn entries(&self) -> ArrayVec<LifeEntry, 201>
        ensures { result.items ≡ entries_in self.now }
    {
        self.is_in_order();
        let mut entries = ArrayVec::new();
        for place in 0..self.entry_count() {
            entries.push(self.entry(place));
        }
        entries
    }
}

// The view of the value of this level that the page spells.
fn view_level<'a, T: TreePage, P: Pages>(
    pages: &mut P,
    page: u64,
    level: u8,
    bytes: &'a mut Page,
) -> Result<View<'a, T>, PageFault>
    ensures fits { IfOk result (λ value. FitsLevel T.Spelled T.level_in level value (T.spelling value)) }
    ensures found { IfOk result (λ value. IsTrue (P.tells pages.old) → P.map pages.old page ≡ Some (T.spelling value)) }
    ensures only { IfOk result (λ value. IsTrue (P.tells pages.old) → (other : T) (bytes : List ℕ)
        → P.map pages.old page ≡ Some bytes → FitsLevel T.Spelled T.level_in level other bytes → value ≡ other) }
    ensures damaged { (p : ℕ) → result ≡ Err (PageFault.Damaged p)
        → (p ≡ page) × (IsTrue (P.tells pages.old) → HoldsNoLevel T.Spelled T.level_in (P.map pages.old) level page) }
    ensures reads { OnlyReads P.Pages 1 pages.old pages.new result }
{
    let view: View<T> = view_page(pages, page, bytes)?;
    if view.level() != level {
        return Err(PageFault::Damaged(page));
    }
    Ok(view)
}

/// The view of the node of this level that the page spells: the page's bytes are put into these, and the
/// node is read there. `Damaged` is as at `read_form`.
pub fn view_form<'a, P: Pages>(
    pages: &mut P,
    form: Form,
    page: u64,
    level: u8,
    bytes: &'a mut Page,
) -> Result<NodeView<'a>, PageFault>
    ensures fits { IfOk result (λ node. (bytes : List ℕ) × FitsForm form level node bytes × (IsTrue (P.tells pages.old) → P.map pages.old page ≡ Some bytes)) }
    // No other node of a level is spelled there.
    ensures only { IfOk result (λ node. IsTrue (P.tells pages.old) → (other : LifeNode) (bytes : List ℕ)
        → P.map pages.old page ≡ Some bytes → FitsForm form level other bytes → node ≡ other) }
    ensures damaged { (p : ℕ) → result ≡ Err (PageFault.Damaged p) → (p ≡ page) × (IsTrue (P.tells pages.old)
        → (node : LifeNode) (bytes : List ℕ) → P.map pages.old page ≡ Some bytes → FitsForm form level node bytes → ⊥) }
    ensures reads { OnlyReads P.Pages 1 pages.old pages.new result }
{
    match form {
        Form::ByLives => {
            let node: View<LifeNode> = view_level(pages, page, level, bytes)?;
            Ok(NodeView {
                shown: Shown::Lives { node },
            })
        }
        Form::ByIds => {
            let node: View<TableNode> = view_level(pages, page, level, bytes)?;
            Ok(NodeView {
                shown: Shown::Ids { node },
            })
        }
    }
}
