ghost use Rattle.std.specs.Prelude.{◌≡◌, ℕ, ◌+◌, ◌^◌, ◌<◌, ◌≤◌, Bool, true, false, List, ◌++◌, Some, None, Err, IsTrue, IfOk, OnOk, nat_le, if◌then◌else◌};
ghost use Rattle.ports.specs.Count.{Rose};
ghost use Rattle.bw_types.specs.Fits.{IsInRange, object_fits, row_fits};
ghost use Rattle.bw_types.specs.History.{flat_row};
ghost use Rattle.bw_types.specs.Mass.{mass, mass_limit};
ghost use Rattle.bw_types.specs.Refusals.{row_refusal, total_mass};
ghost use Rattle.bw_types.specs.declared.change.Change.{Change};
ghost use Rattle.bw_types.specs.declared.refusal.Reason.TheVariants as why;
ghost use Rattle.session_book.specs.declared.seen.Life.{Life};
ghost use Rattle.session_book.specs.Standing.{standing_after, standing_by, standing_in_past};
ghost use Rattle.session_book.specs.Batch.{row_id, own, IsAfter, Marks};

use crate::standing::Standing;
use crate::{BookFault, Life, Seen};
use bw_types::{Object, Params, Reason, Row};
use corner_weights::mass;
use ports::PageFault;
use std::alloc::{AllocError, Global};
use std::collections::BTreeMap;

/// What is kept of the earlier rows of a batch: for each id that they changed, whether the last change
/// was an add, and the total mass of the history and of these rows.
#[derive(Drop)]
pub struct Batch {
    pub own: BTreeMap<u64, bool>,
    pub mass: u128,
}

impl Batch {
    /// Before the first row, on a history of this mass.
    pub fn new(alloc: Global, mass: u128) -> Batch
        ensures own { (id : ℕ) → own result id ≡ None }
        ensures mass { result.mass ≡ mass }
    {
        Batch {
            own: BTreeMap::new(alloc),
            mass,
        }
    }

    /// How the id stands: by the batch, and else by what was seen.
    pub fn standing<V: Seen>(&self, seen: &mut V, id: u64) -> Result<Standing, BookFault>
        ensures ok { IfOk result (λ standing. V.tells seen.old → standing ≡ standing_by (own self.now id) (V.life_of seen.old id)) }
        ensures disk { result ≡ Err BookFault.Disk → Rose (V.faults seen.old) (V.faults seen.new) }
        ensures damaged { (page : ℕ) → result ≡ Err (BookFault.Damaged page) → V.may_blame seen.old page }
        ensures damaged_told { (page : ℕ) → result ≡ Err (BookFault.Damaged page)
            → V.tells seen.old → Rose (V.faults seen.old) (V.faults seen.new) }

        ensures faults { V.faults seen.old ≤ V.faults seen.new }
        ensures tells { V.tells seen.old → V.tells seen.new }
        ensures life_of { V.life_of seen.new ≡ V.life_of seen.old }
        ensures may_blame { (page : ℕ) → V.may_blame seen.new page → V.may_blame seen.old page }
        ensures stays { V.stays seen.old seen.new }
    {
        match self.own.get(&id) {
            Some(true) => Ok(Standing::Fresh),
            Some(false) => Ok(Standing::Withdrawn),
            None => match seen.life(id) {
                Ok(Life::Never) => Ok(Standing::Never),
                Ok(Life::Live) => Ok(Standing::Live),
                Ok(Life::Withdrawn) => Ok(Standing::Withdrawn),
                Err(PageFault::Disk) => Err(BookFault::Disk),
                Err(PageFault::Damaged(page)) => Err(BookFault::Damaged(page)),
            },
        }
    }

    /// Why the row is refused whose id stands so; where it is not, the row is one of the earlier ones
    /// from then on. After a refusal, and after a want of memory, the batch is of no use.
    pub fn judge(
        &mut self,
        params: &Params,
        row: &Row,
        standing: Standing,
    ) -> Result<Option<Reason>, AllocError>
        requires in_range { IsInRange params.now }
        requires fits { IsTrue (row_fits params.now row.now) }
        requires mass { self.old.mass < 2 ^ 126 }
        ensures ok { IfOk result (λ reason. (told : ℕ → Life) (past staged : List Change)
            → IsAfter params.now told past staged self.old → standing ≡ standing_after past staged (row_id row.now)
            → (reason ≡ row_refusal params.now past staged row.now)
            × (reason ≡ None → IsAfter params.now told past (staged ++ flat_row row.now) self.new)) }
        ensures total { IfOk result (λ reason. reason ≡ None → self.new.mass ≡ self.old.mass + total_mass params.now (flat_row row.now)) }
        ensures mass { self.new.mass < 2 ^ 126 }
    {
        match row {
            Row::Add(object) => match standing.refusal_to_add() {
                Some(reason) => Ok(Some(reason)),
                None => self.add(params, object),
            },
            Row::Withdraw(id) => match standing.refusal_to_withdraw() {
                Some(reason) => Ok(Some(reason)),
                None => self.withdraw(*id),
            },
            Row::Move(object) => match standing.refusal_to_withdraw() {
                Some(reason) => Ok(Some(reason)),
                None => self.add(params, object),
            },
        }
    }

    // Takes the object in, unless its mass is too much.
    fn add(&mut self, params: &Params, object: &Object) -> Result<Option<Reason>, AllocError>
        requires in_range { IsInRange params.now }
        requires fits { IsTrue (object_fits params.now object.now) }
        requires mass { self.old.mass < 2 ^ 126 }
        ensures reason { IfOk result (λ reason. reason ≡ (if nat_le mass_limit (self.old.mass + mass params.now object.now) then Some why.Mass else None)) }
        ensures own { IfOk result (λ reason. reason ≡ None → Marks self.old self.new object.now.id true) }
        ensures total { IfOk result (λ reason. reason ≡ None → self.new.mass ≡ self.old.mass + mass params.now object.now) }
        ensures mass { self.new.mass < 2 ^ 126 }
    {
        let Some(mass) = mass(object, params) else {
            return Ok(Some(Reason::Mass));
        };
        if self.mass + mass >= Params::MASS_LIMIT {
            return Ok(Some(Reason::Mass));
        }
        self.own.insert(object.id, true)?;
        self.mass += mass;
        Ok(None)
    }

    fn withdraw(&mut self, id: u64) -> Result<Option<Reason>, AllocError>
        ensures reason { IfOk result (λ reason. reason ≡ None) }
        ensures own { OnOk result (Marks self.old self.new id false) }
        ensures mass { self.new.mass ≡ self.old.mass }
    {
        self.own.insert(id, false)?;
        Ok(None)
    }
}
