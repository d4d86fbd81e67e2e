//! Pages of cuts that have borders, read in place.
ghost use Rattle.std.specs.Prelude.{◌≡◌, ◌+◌, ◌*◌, ◌<◌, ◌≤◌, length, take, drop, get_or};
ghost use Rattle.page_layout.specs.CutPage.{border_at, cut_count, cut_one};
ghost use Rattle.page_layout.specs.CutView.{border_of, step_at, step_of};
ghost use Rattle.page_layout.specs.declared.cut_page.CutNode.{CutNode};

use crate::cut_page::{CutPage, border_at, count_in};
use crate::number::{after, number_u32, number_u64, skip};
use crate::view::View;
use bw_types::Tree;
use ports::Page;

const ENTRY: u8 = 0;

/// What a node of a page of cuts says without its border: it leads to a child, or parts its region.
#[derive(Clone, Copy, Debug, PartialEq, Eq)]
pub enum CutStep {
    Leads { child: u64 },
    Parts { dimension: u8, key: u64, low: u32 },
}

fn step_at(bytes: &[u8]) -> CutStep
    requires { 16 ≤ length bytes.now }
    ensures { result ≡ step_at bytes.now }
{
    let word = number_u64(skip(bytes, 8));
    if bytes[0] == ENTRY {
        return CutStep::Leads { child: word };
    }
    CutStep::Parts {
        dimension: bytes[1],
        key: word,
        low: number_u32(skip(bytes, 4)),
    }
}

fn step_in(page: &Page, place: usize) -> CutStep
    requires { 16 + (place * 16 + 16) ≤ 4096 }
    ensures { result ≡ step_at (drop (16 + place * 16) page.now) }
{
    step_at(after(page, 16 + place * 16))
}

fn border_in(page: &Page, nodes: usize, before: usize) -> Tree
    requires { 16 + nodes * 16 + before * 28 ≤ 4096 }
    ensures { result ≡ border_at (drop (16 + nodes * 16 + before * 28) page.now) }
{
    border_at(after(page, 16 + nodes * 16 + before * 28))
}

impl<'a> View<'a, CutPage> {
    /// How many nodes there are.
    pub fn node_count(&self) -> usize
        ensures { result ≡ length self.now.nodes.items }
    {
        (2 * count_in(self.page)).saturating_sub(1)
    }

    /// The node at this place, without its border.
    pub fn step(&self, place: usize) -> CutStep
        requires { place < length self.now.nodes.items }
        ensures { (d : CutNode) → result ≡ step_of (get_or self.now.nodes.items place d) }
    {
        let _most = count_in(self.page);
        step_in(self.page, place)
    }

    /// The border of the cut at this place, which so many cuts stand before.
    pub fn border(&self, place: usize, before: usize) -> Tree
        requires place { place < length self.now.nodes.items }
        requires before { before ≡ cut_count (take place self.now.nodes.items) }
        ensures { (d : CutNode) → cut_one (get_or self.now.nodes.items place d) ≡ 1 → result ≡ border_of (get_or self.now.nodes.items place d) }
    {
        self.keeps_rules();
        let nodes = (2 * count_in(self.page)).saturating_sub(1);
        border_in(self.page, nodes, before)
    }
}
