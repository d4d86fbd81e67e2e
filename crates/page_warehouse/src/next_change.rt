//! What a change that comes next does.
ghost use Rattle.page_warehouse.specs.Begun.{BatchesBeginAlike};
ghost use Rattle.page_warehouse.specs.Growth.{GrowthIsBounded};
ghost use Rattle.page_warehouse.specs.Next.{AddsGoOn, FrontsAreLawful, LivesAreFew, WithdrawalsGoOn};

use bw_types::depths::depths_grow;
use history_laws::{
    entries_are_changes, entries_grow, histories_grow_by_lawful_batches, last_lives_tell,
    lawful_histories_have_room, lives_are_alone, lives_grow_by_changes, staging_changes_no_refusal,
};
use object_table::last_life_laws;

/// A batch begins with the lives and entries of the history before it.
pub fn batches_begin_alike()
    ensures { BatchesBeginAlike }
{
    lives_grow_by_changes();
}

/// Each front of a lawful batch is lawful. An add that comes next begins one life, after the others of its id, and a
/// withdrawal ends the last life of its id; each is one entry more, which may follow the others.
pub fn changes_go_on()
    ensures fronts { FrontsAreLawful }
    ensures few { LivesAreFew }
    ensures adds { AddsGoOn }
    ensures withdrawals { WithdrawalsGoOn }
{
    lives_are_alone();
    lives_grow_by_changes();
    entries_are_changes();
    entries_grow();
    lawful_histories_have_room();
    staging_changes_no_refusal();
    histories_grow_by_lawful_batches();
    last_lives_tell();
    last_life_laws();
}

/// The trees of a forest give out no more page numbers for one entry than this, with so many entries.
pub fn growth_is_bounded()
    ensures { GrowthIsBounded }
{
    depths_grow();
}
