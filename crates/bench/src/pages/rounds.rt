//! Rounds of writes and reads over full pages.
ghost use Rattle.std.specs.Prelude.{◌<◌};

use crate::pages::full;
use page_layout::{
    CutPage, FreePage, JournalHead, LifeNode, Meta, MvNode, PointLeaf, SbNode, Spelled, Super,
    TableNode, View,
};
use ports::{Page, blank_page};
use std::io;
use std::rt::Clock;
use std::time::Instant;

fn comes_back<T: Spelled>(page: &Page) -> bool {
    let mut again = blank_page();
    match T::read(page) {
        Some(value) => value.write(&mut again),
        None => return false,
    }
    again == *page
}

/// Prints which types of pages come back as they were.
pub(crate) fn print_kept(rt: &impl Print) -> io::Result<()> {
    let kept = [
        comes_back::<Super>(&full::superblock()),
        comes_back::<Meta>(&full::meta()),
        comes_back::<FreePage>(&full::free_page()),
        comes_back::<JournalHead>(&full::journal_head()),
        comes_back::<SbNode>(&full::sb_node()),
        comes_back::<MvNode>(&full::mv_node()),
        comes_back::<PointLeaf>(&full::point_leaf()),
        comes_back::<CutPage>(&full::cut_page()),
        comes_back::<CutPage>(&full::cut_page_without_borders()),
        comes_back::<LifeNode>(&full::life_leaf()),
        comes_back::<LifeNode>(&full::life_index()),
        comes_back::<TableNode>(&full::table_leaf()),
        comes_back::<TableNode>(&full::table_index()),
    ];
    let count = kept.iter().filter(|is_same| **is_same).count();
    println!(rt;
        "{count} of {} full pages were read and written again",
        kept.len()
    )
}

// What a loop of rounds took, and the sum of the bytes that it looked at: one a round, so that no round
// is left out when it is compiled.
#[derive(Clone, Copy)]
struct Timed {
    nanos: u128,
    seen: u64,
}

fn byte_of(page: &Page, round: u64) -> u64 {
    u64::from(page[(round % 4096) as usize])
}

// Writes a byte of the page again, so that each round reads the page anew when it is compiled.
fn touch(copy: &mut Page, page: &Page, round: u64) {
    let place = (round % 4096) as usize;
    copy[place] = page[place];
}

fn time_writes<T: Spelled>(clock: &impl Clock, value: &T, rounds: u64) -> io::Result<Timed>
    requires kept { T.keeps value.now }
    requires some { 0 < rounds }
{
    let mut page = blank_page();
    let mut seen: u64 = 0;
    let start = Instant::now(clock)?;
    for round in 0..rounds {
        value.write(&mut page);
        seen = seen.wrapping_add(byte_of(&page, round));
    }
    let nanos = start.elapsed(clock)?.as_nanos() / u128::from(rounds);
    Ok(Timed { nanos, seen })
}

fn time_reads<T: Spelled>(clock: &impl Clock, page: &Page, rounds: u64) -> io::Result<Timed>
    requires { 0 < rounds }
{
    let mut copy = *page;
    let mut seen: u64 = 0;
    let start = Instant::now(clock)?;
    for round in 0..rounds {
        touch(&mut copy, page, round);
        if T::read(&copy).is_some() {
            seen = seen.wrapping_add(byte_of(page, round));
        }
    }
    let nanos = start.elapsed(clock)?.as_nanos() / u128::from(rounds);
    Ok(Timed { nanos, seen })
}

fn time_views<T: Spelled>(clock: &impl Clock, page: &Page, rounds: u64) -> io::Result<Timed>
    requires { 0 < rounds }
{
    let mut copy = *page;
    let mut seen: u64 = 0;
    let start = Instant::now(clock)?;
    for round in 0..rounds {
        touch(&mut copy, page, round);
        if View::<T>::on(&copy).is_some() {
            seen = seen.wrapping_add(byte_of(page, round));
        }
    }
    let nanos = start.elapsed(clock)?.as_nanos() / u128::from(rounds);
    Ok(Timed { nanos, seen })
}

fn time_copies(clock: &impl Clock, mut page: Page, rounds: u64) -> io::Result<Timed>
    requires { 0 < rounds }
{
    let mut copy = blank_page();
    let mut seen: u64 = 0;
    let start = Instant::now(clock)?;
    for round in 0..rounds {
        copy.copy_from_slice(&page);
        seen = seen.wrapping_add(byte_of(&copy, round));
        page[(round % 4096) as usize] = 1;
    }
    let nanos = start.elapsed(clock)?.as_nanos() / u128::from(rounds);
    Ok(Timed { nanos, seen })
}

fn print_type<T: Spelled>(
    rt: &(impl Print + Clock),
    name: &str,
    page: &Page,
    rounds: u64,
) -> io::Result<()>
    requires { 0 < rounds }
{
    match T::read(page) {
        Some(value) => {
            let writes = time_writes(rt, &value, rounds)?;
            let reads = time_reads::<T>(rt, page, rounds)?;
            let views = time_views::<T>(rt, page, rounds)?;
            let seen = writes
                .seen
                .wrapping_add(reads.seen)
                .wrapping_add(views.seen);
            println!(rt;
                "{name}: {} ns a write, {} ns a read, {} ns a view ({seen})",
                writes.nanos, reads.nanos, views.nanos
            )
        }
        None => println!(rt; "{name}: no spelling"),
    }
}

/// Prints how many nanoseconds a write, a read and a view of a full page of each type took, over so
/// many rounds.
pub(crate) fn print_times(rt: &(impl Print + Clock), rounds: u64) -> io::Result<()>
    requires { 0 < rounds }
{
    let copies = time_copies(rt, full::mv_node(), rounds)?;
    println!(rt; "copy of a page: {} ns ({})", copies.nanos, copies.seen)?;
    print_type::<Super>(rt, "Super", &full::superblock(), rounds)?;
    print_type::<Meta>(rt, "Meta", &full::meta(), rounds)?;
    print_type::<FreePage>(rt, "FreePage", &full::free_page(), rounds)?;
    print_type::<JournalHead>(rt, "JournalHead", &full::journal_head(), rounds)?;
    print_type::<SbNode>(rt, "SbNode", &full::sb_node(), rounds)?;
    print_type::<MvNode>(rt, "MvNode", &full::mv_node(), rounds)?;
    print_type::<PointLeaf>(rt, "PointLeaf", &full::point_leaf(), rounds)?;
    print_type::<CutPage>(rt, "CutPage", &full::cut_page(), rounds)?;
    print_type::<CutPage>(
        rt,
        "CutPage, no borders",
        &full::cut_page_without_borders(),
        rounds,
    )?;
    print_type::<LifeNode>(rt, "LifeNode, a leaf", &full::life_leaf(), rounds)?;
    print_type::<LifeNode>(rt, "LifeNode, an index node", &full::life_index(), rounds)?;
    print_type::<TableNode>(rt, "TableNode, a leaf", &full::table_leaf(), rounds)?;
    print_type::<TableNode>(rt, "TableNode, an index node", &full::table_index(), rounds)
}
