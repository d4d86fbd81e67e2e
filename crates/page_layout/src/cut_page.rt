//! Pages of cuts that have borders: the index pages of trees in two and three dimensions.
ghost use Rattle.std.specs.Prelude.{refl, ◌≡◌, ◌+◌, ◌*◌, ◌≤◌, ◌++◌, ◌↔◌, IsTrue, length, take};
ghost use Rattle.std.specs.List.{flat_map, All};
ghost use Rattle.page_layout.specs.Counted.{not_free};
ghost use Rattle.page_layout.specs.TreeValue.{IsTreeTyped};
ghost use Rattle.page_layout.specs.CutPage.{IsCutPage, IsNodeTyped, IsTyped, border_at, border_bytes, count_in, cut_count, cut_one, cut_page_in, cut_page_page, first_bytes, node_at, node_bytes, node_fits, nodes_from, open_places, past_border};
ghost use Rattle.page_layout.specs.CutExact.{AreExact, IsCutFront, IsNodeExact, places_after};
ghost use Rattle.page_layout.specs.CutPageLaws.{cut_page_in-page};
ghost use Rattle.page_layout.specs.CutParting.{PreOrderIsTested};

use crate::counted::{read_body, read_count, read_double, read_word, start};
use crate::entry::Entry;
use crate::exact::is_tree_exact;
use crate::front::{finish, put, put_u8, put_u32, put_u64};
use crate::number::{are_bytes, bytes_of, number_u16, number_u32, number_u64, skip};
use crate::spelled::{Spelled, TreePage};
use crate::tree_value::tree_fits;
use crate::zero_bytes::are_zeros;
use arrayvec::ArrayVec;
use bw_types::Tree;
use ports::Page;

const KIND: u8 = 11;

const ENTRY: u8 = 0;

const CUT: u8 = 1;

/// A node of a page of cuts: an entry, or a cut at a key of a dimension. A cut keeps the number of points of
/// its low side, and a border.
#[derive(Clone, Copy, Debug, PartialEq, Eq)]
pub enum CutNode {
    Entry {
        child: u64,
    },
    Cut {
        dimension: u8,
        key: u64,
        low: u32,
        border: Tree,
    },
}

impl Default for CutNode {
    fn default() -> CutNode {
        CutNode::Entry { child: 0 }
    }
}

/// A page that cuts its region into the regions of its entries.
///
/// The nodes stand in pre-order: a cut is followed by the nodes of its low side and then by those of its high
/// side. A page spells 2 to 64 entries and one cut less. Children are at least 3, and a low side has at least
/// one point. In memory there is room for one more entry, and the cut before it.
#[derive(Debug, PartialEq, Drop)]
pub struct CutPage {
    pub nodes: ArrayVec<CutNode, 129>,
}

fn put_first(page: &mut Page, place: usize, tag: u8, dimension: u8, low: u32, word: u64)
    requires { place + 16 ≤ 4096 }
    ensures { take (place + 16) page.new ≡ take place page.old ++ first_bytes tag dimension low word }
{
    put_u8(page, place, tag);
    put_u8(page, place + 1, dimension);
    put(page, place + 2, &[0, 0]);
    put_u32(page, place + 4, low);
    put_u64(page, place + 8, word);
}

fn put_node(page: &mut Page, place: usize, node: &CutNode)
    requires { place + 16 ≤ 4096 }
    ensures { take (place + 16) page.new ≡ take place page.old ++ node_bytes node.now }
{
    match node {
        CutNode::Entry { child } => put_first(page, place, ENTRY, 0, 0, *child),
        CutNode::Cut {
            dimension,
            key,
            low,
            border: _,
        } => put_first(page, place, CUT, *dimension, *low, *key),
    }
}

// Writes the nodes without their borders.
fn put_nodes(page: &mut Page, place: usize, nodes: &[CutNode])
    requires { place + length nodes.now * 16 ≤ 4096 }
    ensures { take (place + length nodes.now * 16) page.new ≡ take place page.old ++ flat_map node_bytes nodes.now }
{
    let mut next = place;
    for node in nodes {
        put_node(page, next, node);
        next += 16;
    }
}

// Writes the border of a node, if it is a cut, and answers where it ends.
fn put_border(page: &mut Page, place: usize, node: &CutNode) -> usize
    requires { place + cut_one node.now * 28 ≤ 4096 }
    ensures end { result ≡ place + cut_one node.now * 28 }
    ensures bytes { take (place + cut_one node.now * 28) page.new ≡ take place page.old ++ border_bytes node.now }
{
    match node {
        CutNode::Entry { child: _ } => place,
        CutNode::Cut {
            dimension: _,
            key: _,
            low: _,
            border,
        } => {
            border.put(page, place);
            place + 28
        }
    }
}

// Writes the borders of those nodes that are cuts, and answers where they end.
fn put_borders(page: &mut Page, place: usize, nodes: &[CutNode]) -> usize
    requires { place + cut_count nodes.now * 28 ≤ 4096 }
    ensures end { result ≡ place + cut_count nodes.now * 28 }
    ensures bytes { take (place + cut_count nodes.now * 28) page.new ≡ take place page.old ++ flat_map border_bytes nodes.now }
{
    let mut next = place;
    for node in nodes {
        next = put_border(page, next, node);
    }
    next
}

/// The border at the front of some bytes; no tree where there are not as many as it takes.
pub(crate) fn border_at(bytes: &[u8]) -> Tree
    ensures value { result ≡ border_at bytes.now }
    ensures typed { IsTreeTyped result }
{
    if 28 <= bytes.len() {
        return Tree::get(bytes);
    }
    Tree {
        root: 0,
        levels: 0,
        count: 0,
        changes: 0,
        last: 0,
    }
}

fn node_at(nodes: &[u8], borders: &[u8]) -> CutNode
    requires { 16 ≤ length nodes.now }
    ensures value { result ≡ node_at nodes.now borders.now }
    ensures typed { IsNodeTyped result }
{
    let word = number_u64(skip(nodes, 8));
    if nodes[0] == ENTRY {
        return CutNode::Entry { child: word };
    }
    CutNode::Cut {
        dimension: nodes[1],
        key: word,
        low: number_u32(skip(nodes, 4)),
        border: border_at(borders),
    }
}

// The borders that are left after the first node.
fn past_border<'a>(nodes: &[u8], borders: &'a [u8]) -> &'a [u8]
    requires { 16 ≤ length nodes.now }
    ensures { result.now ≡ past_border nodes.now borders.now }
{
    if nodes[0] == ENTRY {
        return borders;
    }
    if borders.len() < 28 {
        return &[];
    }
    skip(borders, 28)
}

fn read_nodes(count: usize, nodes: &[u8], borders: &[u8]) -> ArrayVec<CutNode, 129>
    requires few { count ≤ 129 }
    requires room { count * 16 ≤ length nodes.now }
    ensures items { result.items ≡ nodes_from count nodes.now borders.now }
    ensures typed { All IsNodeTyped result.items }
{
    let mut read = ArrayVec::new();
    let mut firsts = nodes;
    let mut rest = borders;
    for _ in 0..count {
        read.push(node_at(firsts, rest));
        rest = past_border(firsts, rest);
        firsts = skip(firsts, 16);
    }
    read
}

/// How many entries a page may spell.
pub(crate) fn count_in(page: &Page) -> usize
    ensures value { result ≡ count_in page.now }
    ensures few { result ≤ 64 }
{
    usize::from(read_count(page)).min(64)
}

fn node_fits(node: &CutNode) -> bool
    ensures { result ≡ node_fits node.now }
{
    match node {
        CutNode::Entry { child } => *child >= 3,
        CutNode::Cut {
            dimension,
            key: _,
            low,
            border,
        } => *dimension <= 2 && (*low >= 1 && tree_fits(border)),
    }
}

fn each_fits(nodes: &[CutNode]) -> bool
    ensures { IsTrue result ↔ All (λ node. IsTrue (node_fits node)) nodes.now }
{
    for node in nodes {
        if !node_fits(node) {
            return false;
        }
    }
    true
}

// Counts the places that are to be filled: at first one, for the whole region.
fn fill_one_place(nodes: &[CutNode]) -> bool
    ensures { result ≡ open_places 1 nodes.now }
{
    let mut places: usize = 1;
    for node in nodes {
        if places == 0 {
            return false;
        }
        match node {
            CutNode::Entry { child: _ } => places -= 1,
            CutNode::Cut {
                dimension: _,
                key: _,
                low: _,
                border: _,
            } => places += 1,
        }
    }
    places == 0
}

// Whether the page begins as one with 2 to 64 entries does.
fn has_front(page: &Page) -> bool
    ensures { IsTrue result ↔ IsCutFront page.now }
{
    let count = read_count(page);
    if count < 2 {
        return false;
    }
    if count > 64 {
        return false;
    }
    if page[0] != KIND {
        return false;
    }
    if page[1] != 0 {
        return false;
    }
    if read_word(page) != 0 {
        return false;
    }
    read_double(page) == 0
}

// Whether the first node is the spelling of what it may spell.
fn is_node_exact(nodes: &[u8], borders: &[u8]) -> bool
    requires { 16 ≤ length nodes.now }
    ensures { IsTrue result ↔ IsNodeExact nodes.now borders.now }
{
    are_bytes(nodes);
    if nodes[0] == ENTRY {
        // Up to its child an entry is zeros.
        return number_u64(nodes) == 0;
    }
    if nodes[0] != CUT {
        return false;
    }
    if number_u16(skip(nodes, 2)) != 0 {
        return false;
    }
    if borders.len() < 28 {
        return false;
    }
    is_tree_exact(borders)
}

// How many places are left to be filled when the first node has filled one.
fn places_after(places: usize, nodes: &[u8]) -> usize
    requires some { 1 ≤ places }
    requires few { places ≤ 128 }
    requires room { 16 ≤ length nodes.now }
    ensures value { result ≡ places_after places nodes.now }
    ensures few { result ≤ places + 1 }
{
    if nodes[0] == ENTRY {
        places - 1
    } else {
        places + 1
    }
}

// Whether so many nodes fill these places, each keeps its rule and is the spelling of what it may spell, and
// zeros follow the borders.
fn are_nodes_exact(places: usize, count: usize, nodes: &[u8], borders: &[u8]) -> bool
    requires few { places + count ≤ 128 }
    requires room { count * 16 ≤ length nodes.now }
    ensures { IsTrue result ↔ AreExact places (nodes_from count nodes.now borders.now) nodes.now borders.now }
{
    if count == 0 {
        if places != 0 {
            return false;
        }
        return are_zeros(borders);
    }
    if places == 0 {
        return false;
    }
    if !is_node_exact(nodes, borders) {
        return false;
    }
    if !node_fits(&node_at(nodes, borders)) {
        return false;
    }
    are_nodes_exact(
        places_after(places, nodes),
        count - 1,
        skip(nodes, 16),
        past_border(nodes, borders),
    )
}

/// Proves that the nodes of a page stand in pre-order; it does nothing when it runs.
pub fn cuts_stand_in_order()
    ensures { PreOrderIsTested }
{}

impl Spelled for CutPage {
    ghost keeps = { IsCutPage };

    ghost is_typed = { IsTyped };

    ghost spelling = { cut_page_page };

    ghost value_in = { cut_page_in };

    fn write(&self, page: &mut Page) {
        let nodes = self.nodes.as_slice();
        let count = (nodes.len() + 1) / 2;
        start(page, KIND, 0, count as u16, 0, 0);
        put_nodes(page, 16, nodes);
        let end = put_borders(page, 16 + nodes.len() * 16, nodes);
        finish(page, end);
    }

    fn guess(page: &Page) -> CutPage {
        let count = (2 * count_in(page)).saturating_sub(1);
        let body = read_body(page);
        CutPage {
            nodes: read_nodes(count, body, skip(body, count * 16)),
        }
    }

    fn keeps_rules(&self) -> bool {
        let nodes = self.nodes.as_slice();
        if nodes.len() < 3 {
            return false;
        }
        if nodes.len() > 127 {
            return false;
        }
        if !fill_one_place(nodes) {
            return false;
        }
        each_fits(nodes)
    }

    fn is_spelled(page: &Page) -> bool {
        let _bytes = bytes_of(page);
        if !has_front(page) {
            return false;
        }
        let count = 2 * usize::from(read_count(page)) - 1;
        let body = read_body(page);
        are_nodes_exact(1, count, body, skip(body, count * 16))
    }

    ghost reads_back = { cut_page_in-page };
}

// A page of cuts tells no level: the number of its points says what a page has to be.
impl TreePage for CutPage {
    ghost level_in = { λ _. 0 };

    fn level(&self) -> u8 {
        0
    }

    fn level_on(_page: &Page) -> u8 {
        0
    }

    ghost in_use = { λ _. not_free _ refl };
}
