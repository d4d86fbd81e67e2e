//! Walking through the object table, life by life or leaf by leaf.
ghost use Rattle.std.specs.Prelude.{◌≡◌, ◌≤◌, ◌<◌, ◌^◌, ℕ, List, true, IsTrue, IfOk, IfSome, Err};
ghost use Rattle.std.specs.List.{All};
ghost use Rattle.std.specs.Option.{option_to_list};
ghost use Rattle.bw_types.specs.History.{History};
ghost use Rattle.bw_types.specs.declared.dated.Dated.{Dated};
ghost use Rattle.ports.specs.Count.{Rose};
ghost use Rattle.object_table.specs.Keys.{key};
ghost use Rattle.object_table.specs.Lives.{AreNext, first_from, from_id, from_life};
ghost use Rattle.page_layout.specs.Dated.{by_life_fits};
ghost use Rattle.warehouse.specs.Left.{IsAsBefore};
ghost use Rattle.page_warehouse.specs.Table.{KeepsLives};

use crate::state::Warehouse;
use arrayvec::ArrayVec;
use bw_types::Dated;
use dom_index::DomIndex;
use object_table::{walk, walk_leaf, walk_old};
use page_disk::Disk;
use page_space::holds_one;
use ports::PageFault;

impl<D: Disk, X: DomIndex> Warehouse<D, X> {
    ghost use Rattle.page_warehouse.specs.Shown.{HasNewForm, HoldsHistory, disk_charge, disk_in, meta_in, params_in};

    /// The life after this id and life in the object table, or the first of all; `None` where there is none. Lives ascend
    /// by id and then by life. It takes no memory, and changes neither history nor image.
    ///
    /// `Disk` comes only where the count of faults rose, `Damaged` only where the disk holds no history.
    pub fn walk(&mut self, after: Option<(u64, u32)>) -> Result<Option<Dated>, PageFault>
        ensures next { IfOk result (λ found. (h : History) (kept : List Dated) → IsTrue (D.tells (disk_in self.old))
            → KeepsLives X.DomIndex (D.image (disk_in self.old)) (params_in self.old) h kept → found ≡ first_from (from_life after) kept) }
        // Whatever the pages hold, a walk gets on.
        ensures above { IfOk result (λ found. IfSome found (λ d. from_life after ≤ key d)) }
        ensures kept { IsAsBefore params_in disk_in (HoldsHistory D.Disk X.DomIndex) (HasNewForm D.Disk) D.tells D.image D.moments (disk_charge D.Disk) self.old self.new }
        ensures meta { meta_in self.new ≡ meta_in self.old }
        ensures sound { (h : History) (page : ℕ) → HoldsHistory D.Disk X.DomIndex true (disk_in self.old) (params_in self.old) h
            → (result ≡ Err (PageFault.Damaged page) → ⊥) }
        ensures disk { result ≡ Err PageFault.Disk → Rose (D.faults (disk_in self.old)) (D.faults (disk_in self.new)) }
        ensures faults { D.faults (disk_in self.old) ≤ D.faults (disk_in self.new) }
    {
        holds_one();
        self.space.is_held();
        let (lives, table) = (self.space.meta().lives, self.space.meta().table);
        if lives == 0 {
            return walk_old(&mut self.space, &table, id_before(after));
        }
        walk(&mut self.space, &table, after)
    }

    /// The life after this id and life in the object table, or the first of all, and those behind it in its leaf; none where
    /// there is none. Where each id has its first life alone, in the earlier form, it is one life at a time.
    ///
    /// It takes no memory, changes neither history nor image, and is refused as `walk` is.
    pub fn walk_leaf(&mut self, after: Option<(u64, u32)>) -> Result<ArrayVec<Dated, 14>, PageFault>
        ensures next { IfOk result (λ found. (h : History) (kept : List Dated) → IsTrue (D.tells (disk_in self.old))
            → KeepsLives X.DomIndex (D.image (disk_in self.old)) (params_in self.old) h kept → AreNext found.items (from_life after) kept) }
        // Whatever the pages hold, a walk gets on.
        ensures above { IfOk result (λ found. All (λ d. from_life after ≤ key d) found.items) }
        ensures kept { IsAsBefore params_in disk_in (HoldsHistory D.Disk X.DomIndex) (HasNewForm D.Disk) D.tells D.image D.moments (disk_charge D.Disk) self.old self.new }
        ensures meta { meta_in self.new ≡ meta_in self.old }
        ensures sound { (h : History) (page : ℕ) → HoldsHistory D.Disk X.DomIndex true (disk_in self.old) (params_in self.old) h
            → (result ≡ Err (PageFault.Damaged page) → ⊥) }
        ensures disk { result ≡ Err PageFault.Disk → Rose (D.faults (disk_in self.old)) (D.faults (disk_in self.new)) }
        ensures faults { D.faults (disk_in self.old) ≤ D.faults (disk_in self.new) }
    {
        holds_one();
        self.space.is_held();
        let table = self.space.meta().table;
        if self.space.meta().lives == 0 {
            return match walk_old(&mut self.space, &table, id_before(after)) {
                Ok(found) => Ok(one_life(found)),
                Err(fault) => Err(fault),
            };
        }
        walk_leaf(&mut self.space, &table, after)
    }
}

// The life that was found, in a row of its own.
fn one_life(found: Option<Dated>) -> ArrayVec<Dated, 14>
    ensures { result.items ≡ option_to_list found }
{
    let mut row = ArrayVec::new();
    if let Some(dated) = found {
        row.push(dated);
    }
    row
}

// The id that ends before the lives after this id and life, where each id has its first life alone.
fn id_before(after: Option<(u64, u32)>) -> Option<u64>
    ensures first { (kept : List Dated) → All (λ d. d.life ≡ 1) kept → first_from (from_id result) kept ≡ first_from (from_life after) kept }
    ensures above { (d : Dated) → IsTrue (by_life_fits d) → d.life < 2 ^ 32 → from_id result ≤ key d → from_life after ≤ key d }
{
    match after {
        Some((id, 0)) => id.checked_sub(1),
        Some((id, _)) => Some(id),
        None => None,
    }
}
