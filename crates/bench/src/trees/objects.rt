//! Objects entered and found a second, and the pages that they get.
ghost use Rattle.std.specs.Prelude.{◌≡◌, IsTrue};
ghost use Rattle.page_layout.specs.Dated.{by_life_fits};

use crate::trees::draws::Draws;
use crate::trees::measured::rate;
use anyhow::Result;
use bw_types::{Dated, Object, Tree};
use object_table::{enter, find};
use ports::{MemStage, PageFault, StageFault};
use std::time::Instant;

const QUERIES: u32 = 100_000;

fn first_life(id: u64) -> Dated
    ensures { IsTrue (by_life_fits result) }
{
    Dated {
        object: Object {
            id,
            low: [0; 3],
            high: [0; 3],
            weight: 1,
            coeffs: [0; 27],
        },
        life: 1,
        added: 1,
        add_event: 0,
        withdrawn: 0,
        withdraw_event: 0,
    }
}

// An odd number of times the place, so that each id comes once, in an order that looks random.
fn id_at(place: u32) -> u64 {
    u64::from(place.wrapping_mul(2654435761))
}

fn enter_all(stage: &mut MemStage, table: &mut Tree, objects: u32) -> Result<(), StageFault> {
    for place in 0..objects {
        enter(stage, table, &first_life(id_at(place)))?;
    }
    Ok(())
}

fn find_all(stage: &mut MemStage, table: &Tree, objects: u32) -> Result<u32, PageFault> {
    let mut draws = Draws::new(2);
    let mut found = 0_u32;
    for _ in 0..QUERIES {
        let place = draws.draw() % objects.max(1);
        if find(stage, table, id_at(place))?.is_some() {
            found = found.saturating_add(1);
        }
    }
    Ok(found)
}

/// Prints what entering so many objects and finding 100,000 of them cost.
pub fn measure_objects(rt: &HostRuntime, objects: u32) -> Result<()> {
    let mut stage = MemStage::new(rt.alloc(), 4294967295);
    let mut table = Tree::default();
    let start = Instant::now(rt)?;
    let entered = enter_all(&mut stage, &mut table, objects).is_ok();
    let took = start.elapsed(rt)?.as_nanos();
    let gets = stage.gets();
    println!(rt;
        "{objects} objects: all entered {entered}, {} a second, {} levels, {gets} gets",
        rate(objects, took),
        table.levels
    )?;
    let start = Instant::now(rt)?;
    let found = find_all(&mut stage, &table, objects).unwrap_or(0);
    let took = start.elapsed(rt)?.as_nanos();
    println!(rt;
        "{QUERIES} finds: {found} found, {} a second, {} gets",
        rate(QUERIES, took),
        stage.gets().saturating_sub(gets)
    )?;
    Ok(())
}
