//! The lives of the history of events.
ghost use Rattle.std.specs.Prelude.{◌≡◌, ◌+◌, ◌^◌, ◌<◌, ◌++◌, ◌∷◌, [], ℕ, List, Ok, Some, map, length, true, false, cond, unwrap_or, ◌==◌, ◌↔◌, IsTrue, IfOk, OnOk, IsPermutation};
ghost use Rattle.std.specs.BTreeMap.{get};
ghost use Rattle.std.specs.Map.{count_at};
ghost use Rattle.std.specs.Ordering.{nat_cmp};
ghost use Rattle.bw_types.specs.History.{History};
ghost use Rattle.bw_types.specs.Lives.{lives as lives_in, lives_after};
ghost use Rattle.page_warehouse.specs.Events.{AreEventsOf, numbered_in};
ghost use Rattle.image_check.specs.Rebuilding.{CountsAdds, GoesBack};

use bw_types::Dated;
use page_warehouse::Event;
use std::alloc::{AllocError, Global};
use std::collections::BTreeMap;

/// Whether these lives, in any order, are those of the history whose events these are, in order.
///
/// It takes memory for two lists of the lives and for what is known of each id.
pub fn are_lives(alloc: Global, lives: &[Dated], events: &[Event]) -> Result<bool, AllocError>
    requires { length events.now < 2 ^ 32 }
    ensures yes { result ≡ Ok true → (h : History) → AreEventsOf events.now h → IsPermutation lives.now (lives_in h) }
    ensures no { result ≡ Ok false → (h : History) → AreEventsOf events.now h → IsPermutation lives.now (lives_in h) → ⊥ }
{
    let mut sorted = Vec::new(alloc);
    sorted.extend_from_slice(lives)?;
    sorted.sort_unstable_by_key(|dated| dated.add_event);
    let rebuilt = rebuilt_lives(alloc, events)?;
    Ok(are_same(sorted.as_slice(), rebuilt.as_slice()))
}

fn are_same(lives: &[Dated], others: &[Dated]) -> bool
    ensures { IsTrue result ↔ (lives.now ≡ others.now) }
{
    lives == others
}

// The lives that the events begin, in order of adding.
fn rebuilt_lives(alloc: Global, events: &[Event]) -> Result<Vec<Dated>, AllocError>
    requires { length events.now < 2 ^ 32 }
    ensures { IfOk result (λ lives. lives.items ≡ lives_after [] (map numbered_in events.now)) }
{
    let mut counts = add_counts(alloc, events)?;
    let mut ends = BTreeMap::new(alloc);
    let mut lives = Vec::new(alloc);
    let mut left = events.len();
    while left > 0 {
        left -= 1;
        go_back(&mut counts, &mut ends, &mut lives, &events[left])?;
    }
    lives.reverse();
    Ok(lives)
}

// How often each id is added by the events.
fn add_counts(alloc: Global, events: &[Event]) -> Result<BTreeMap<u64, u32>, AllocError>
    requires { length events.now < 2 ^ 32 }
    ensures { IfOk result (λ counts. CountsAdds counts (map numbered_in events.now)) }
{
    let mut counts = BTreeMap::new(alloc);
    for event in events {
        if event.add {
            let count = count_of(&counts, event.object.id);
            set(&mut counts, event.object.id, count + 1)?;
        }
    }
    Ok(counts)
}

fn count_of(counts: &BTreeMap<u64, u32>, id: u64) -> u32
    ensures { result ≡ count_at (get nat_cmp counts.now) id }
{
    counts.get(&id).copied().unwrap_or(0)
}

fn set<V: Copy + Drop>(known: &mut BTreeMap<u64, V>, id: u64, value: V) -> Result<(), AllocError>
    ensures { OnOk result ((q : ℕ) → get nat_cmp known.new q ≡ (cond (id == q) (Some value) (get nat_cmp known.old q))) }
{
    match known.insert(id, value) {
        Ok(_) => Ok(()),
        Err(_) => Err(AllocError),
    }
}

// One event back: what it begins is put behind the lives, or what it ends is known.
fn go_back(
    counts: &mut BTreeMap<u64, u32>,
    ends: &mut BTreeMap<u64, (u32, u32)>,
    lives: &mut Vec<Dated>,
    event: &Event,
) -> Result<(), AllocError>
    ensures { OnOk result (GoesBack counts.old ends.old lives.old.items (numbered_in event.now) counts.new ends.new lives.new.items) }
{
    let id = event.object.id;
    if !event.add {
        return set(ends, id, (event.version, event.event));
    }
    let number = count_of(counts, id);
    set(counts, id, number.saturating_sub(1))?;
    lives.push(life(event, number, end_of(ends, id)))?;
    Ok(())
}

// The version and the event number of the first withdrawal of the id, or zeros where there is none.
fn end_of(ends: &BTreeMap<u64, (u32, u32)>, id: u64) -> (u32, u32)
    ensures { result ≡ unwrap_or (get nat_cmp ends.now id) (0, 0) }
{
    ends.get(&id).copied().unwrap_or((0, 0))
}

// The life of this number that the event begins.
fn life(event: &Event, number: u32, end: (u32, u32)) -> Dated
    ensures { result ≡ record { object = event.now.object; life = number; added = event.now.version; add_event = event.now.event; withdrawn = end.0; withdraw_event = end.1 } }
{
    Dated {
        object: event.object,
        life: number,
        added: event.version,
        add_event: event.event,
        withdrawn: end.0,
        withdraw_event: end.1,
    }
}
