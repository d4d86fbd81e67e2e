//! Commits on a recording disk, beside the same batches in memory; each stopped after each call.
ghost use Rattle.bw_types.specs.Fits.{IsInRange};

use crate::fitting::rows_fit;
use arrayvec::ArrayVec;
use bw_types::{Kind, Object, Params, Query, Reason, Refusal, Row, query_fits};
use dom_index::PointList;
use page_disk::{Area, Disk, Failed, MemDisk, Torn};
use page_layout::{LifeNode, Meta, Spelled, TableNode};
use page_space::OpenFault;
use page_warehouse::{Created, Warehouse, create};
use ports::{Page, blank_page};
use std::alloc::Global;
use std::test::Fail;
use warehouse::{Committed, House, ListHouse, QueryFault};

type Stored = Warehouse<MemDisk, PointList>;

const TORN: [Torn; 5] = [
    Torn::Lost,
    Torn::Landed,
    Torn::Filled(0),
    Torn::Filled(1),
    Torn::Filled(255),
];

const LINE: Params = Params {
    dims: 1,
    degree: None,
    events: 1000000,
    pages: 1048576,
    origin: 0,
};

pub const SIGNED_LINE: Params = Params {
    dims: 1,
    degree: Some(2),
    events: 1000000,
    pages: 1048576,
    origin: 2147483647,
};

const PLANE: Params = Params {
    dims: 2,
    degree: Some(1),
    events: 1000000,
    pages: 1048576,
    origin: 0,
};

const ROOM: Params = Params {
    dims: 3,
    degree: None,
    events: 1000000,
    pages: 1048576,
    origin: 0,
};

// What became of a batch, without the house.
#[derive(Clone, Copy, PartialEq, Eq, Debug)]
pub enum Outcome {
    // The rows are no batch of such a warehouse.
    Unfit,
    Done(u32),
    Refused(u32, Reason),
    PageLimit(u64),
    NoMemory,
    Damaged(u64),
    Disk,
}

// Commits the rows; the house comes back, or after a failure what lasts of it.
pub fn put<H: House>(house: H, rows: &[Row]) -> (Result<H, H::Device>, Outcome) {
    if rows.len() > 4096 || !rows_fit(&house.params(), rows) {
        return (Ok(house), Outcome::Unfit);
    }
    match house.commit(rows) {
        Committed::Done { house, version } => (Ok(house), Outcome::Done(version)),
        Committed::Refused { house, refusal } => {
            let Refusal { place, reason } = refusal;
            (Ok(house), Outcome::Refused(place, reason))
        }
        Committed::PageLimit { house, allotted } => (Ok(house), Outcome::PageLimit(allotted)),
        Committed::NoMemory { house } => (Ok(house), Outcome::NoMemory),
        Committed::Damaged { house, page } => (Ok(house), Outcome::Damaged(page)),
        Committed::Disk { device } => (Err(device), Outcome::Disk),
    }
}

// The house that came back, and what became of the batch; a failure of the device is one of the test.
pub fn came_back<H, D: Drop>(ended: (Result<H, D>, Outcome)) -> Result<(H, Outcome), Failed> {
    let (back, outcome) = ended;
    match back {
        Ok(house) => Ok((house, outcome)),
        Err(_) => Err(Failed),
    }
}

fn asked<H: House>(house: &mut H, query: &Query, version: u32) -> Option<Result<i128, QueryFault>> {
    if !query_fits(query, &house.params()) {
        return None;
    }
    Some(house.query(query, version))
}

// A disk with a new warehouse.
pub fn made(alloc: Global, params: &Params) -> MemDisk
    requires { IsInRange params.now }
{
    match create(MemDisk::blank(alloc), params) {
        Created::Done(disk) => disk,
        Created::AlreadyThere(disk) => disk,
        Created::Disk(disk) => disk,
    }
}

fn opened(alloc: Global, disk: MemDisk) -> Result<Stored, OpenFault> {
    match Warehouse::open_on(alloc, disk) {
        Ok(house) => Ok(house),
        Err(refused) => Err(refused.fault),
    }
}

// The number in each of the first dimensions.
fn ends(dims: u8, number: u32) -> [u32; 3] {
    match dims {
        1 => [number, 0, 0],
        2 => [number, number, 0],
        _ => [number, number, number],
    }
}

// A box at this place, counted from 5 below the origin, that is wider for greater ids.
fn object(params: &Params, id: u64, at: u32) -> Object {
    let low = params.origin.saturating_add(at).saturating_sub(5);
    let mut coeffs = [0; 27];
    if params.degree.is_some() {
        coeffs[0] = 3;
        coeffs[1] = -1;
        coeffs[2] = 2;
    }
    Object {
        id,
        low: ends(params.dims, low),
        high: ends(params.dims, low.saturating_add((id % 8) as u32)),
        weight: i64::from(at) - 9,
        coeffs,
    }
}

// What a row does, to which id, and at which place.
#[derive(Clone, Copy)]
enum Act {
    Add(u64, u32),
    Move(u64, u32),
    Withdraw(u64),
}

fn rows_of(alloc: Global, params: &Params, acts: &[Act]) -> Result<Vec<Row>, Fail> {
    let mut rows = Vec::new(alloc);
    for act in acts {
        rows.push(match act {
            Act::Add(id, at) => Row::Add(object(params, *id, *at)),
            Act::Move(id, at) => Row::Move(object(params, *id, *at)),
            Act::Withdraw(id) => Row::Withdraw(*id),
        })?;
    }
    Ok(rows)
}

// The places at which boxes of queries begin and end, counted as those of objects.
const BOXES: [(u32, u32); 6] = [(0, 999999), (0, 0), (10, 10), (12, 12), (3, 14), (31, 46)];

const KINDS: [Kind; 3] = [Kind::Sum, Kind::Count, Kind::Integral];

fn query_at(params: &Params, kind: Kind, from: u32, to: u32) -> Query {
    let low = params.origin.saturating_add(from).saturating_sub(5);
    let high = params.origin.saturating_add(to).saturating_sub(5);
    Query {
        kind,
        low: ends(params.dims, low),
        high: ends(params.dims, high),
    }
}

// Whether two houses answer each query alike, at each version and at one above the last.
fn answer_alike<A: House, B: House>(one: &mut A, other: &mut B) -> bool {
    let params = one.params();
    for version in 0..one.last().saturating_add(2) {
        for kind in KINDS {
            for (from, to) in BOXES {
                let query = query_at(&params, kind, from, to);
                if asked(one, &query, version) != asked(other, &query, version) {
                    return false;
                }
            }
        }
    }
    true
}

// Commits the rows to both houses and opens the disk again: the two houses, and what became of the batch where that
// and all answers are the same.
fn put_both(
    alloc: Global,
    stored: Stored,
    listed: ListHouse,
    rows: &[Row],
) -> Result<(Stored, ListHouse, Option<Outcome>), Fail> {
    let (stored, outcome) = came_back(put(stored, rows))?;
    let (mut listed, wanted) = came_back(put(listed, rows))?;
    let mut stored = opened(alloc, stored.into_device())?;
    let alike = outcome == wanted && answer_alike(&mut stored, &mut listed);
    Ok((stored, listed, alike.then_some(outcome)))
}

// Batches in turn, and what becomes of each.
const BATCHES: [(&[Act], Outcome); 12] = [
    (
        &[Act::Add(1, 10), Act::Add(2, 12), Act::Add(3, 0)],
        Outcome::Done(1),
    ),
    (&[], Outcome::Done(2)),
    (&[Act::Move(1, 30), Act::Withdraw(2)], Outcome::Done(3)),
    (&[Act::Add(2, 40), Act::Add(4, 10)], Outcome::Done(4)),
    (
        &[
            Act::Withdraw(1),
            Act::Add(1, 11),
            Act::Withdraw(3),
            Act::Add(3, 3),
        ],
        Outcome::Done(5),
    ),
    (
        &[Act::Add(5, 1), Act::Add(4, 1)],
        Outcome::Refused(2, Reason::Used),
    ),
    (
        &[Act::Withdraw(1), Act::Move(9, 1)],
        Outcome::Refused(2, Reason::Unknown),
    ),
    (
        &[Act::Add(6, 1), Act::Withdraw(6)],
        Outcome::Refused(2, Reason::Fresh),
    ),
    (
        &[Act::Move(1, 30), Act::Move(1, 31)],
        Outcome::Refused(2, Reason::Fresh),
    ),
    (
        &[Act::Withdraw(2), Act::Withdraw(2)],
        Outcome::Refused(2, Reason::Gone),
    ),
    (&[Act::Add(6, 20), Act::Move(4, 2)], Outcome::Done(6)),
    (
        &[Act::Withdraw(1), Act::Withdraw(2), Act::Withdraw(3)],
        Outcome::Done(7),
    ),
];

// The place of the first batch with which a disk and a list do not go on alike.
fn first_unlike(alloc: Global, params: &Params) -> Result<Option<usize>, Fail>
    requires { IsInRange params.now }
{
    let mut stored = opened(alloc, made(alloc, params))?;
    let mut listed = ListHouse::new(alloc, params);
    for (place, (acts, wanted)) in BATCHES.iter().enumerate() {
        let rows = rows_of(alloc, params, acts)?;
        let (one, other, outcome) = put_both(alloc, stored, listed, &rows)?;
        if outcome != Some(*wanted) {
            return Ok(Some(place));
        }
        stored = one;
        listed = other;
    }
    Ok(None)
}

#[test]
fn a_disk_and_a_list_go_on_alike(rt: HostRuntime) -> Result<(), Fail> {
    assert_eq!(rt; first_unlike(rt.alloc(), &LINE)?, None);
    assert_eq!(rt; first_unlike(rt.alloc(), &SIGNED_LINE)?, None);
    assert_eq!(rt; first_unlike(rt.alloc(), &PLANE)?, None);
    assert_eq!(rt; first_unlike(rt.alloc(), &ROOM)?, None);
    Ok(())
}

// A batch of many: objects of a hundred new ids, or changes of those that there are.
fn many(alloc: Global, params: &Params, batch: u32) -> Result<Vec<Row>, Fail> {
    let mut rows = Vec::new(alloc);
    for number in 0..100u32 {
        let id = u64::from(number);
        match batch {
            0..=2 => rows.push(Row::Add(object(params, u64::from(batch) * 100 + id, number)))?,
            3 if number % 3 == 0 => rows.push(Row::Withdraw(id))?,
            3 => rows.push(Row::Move(object(params, 100 + id, 200 - number)))?,
            _ if number % 3 == 0 => rows.push(Row::Add(object(params, id, 40)))?,
            _ => {}
        }
    }
    Ok(rows)
}

#[test]
fn three_hundred_objects(rt: HostRuntime) -> Result<(), Fail> {
    let alloc = rt.alloc();
    let mut stored = opened(alloc, made(alloc, &LINE))?;
    let mut listed = ListHouse::new(alloc, &LINE);
    for batch in 0..5 {
        let rows = many(alloc, &LINE, batch)?;
        let (one, other, outcome) = put_both(alloc, stored, listed, &rows)?;
        assert_eq!(rt; outcome, Some(Outcome::Done(batch + 1)));
        stored = one;
        listed = other;
    }
    let everywhere = query_at(&LINE, Kind::Count, 0, 999999);
    for (version, count) in [(0, 0), (1, 100), (2, 200), (3, 300), (4, 266), (5, 300)] {
        assert!(rt;
            asked(&mut stored, &everywhere, version) == Some(Ok(count)),
            "{version}"
        );
    }
    Ok(())
}

// An interval with these coefficients.
pub fn interval(id: u64, low: u32, high: u32, weight: i64, coeffs: [i64; 3]) -> Object {
    let mut all = [0; 27];
    all[0] = coeffs[0];
    all[1] = coeffs[1];
    all[2] = coeffs[2];
    Object {
        id,
        low: [low, 0, 0],
        high: [high, 0, 0],
        weight,
        coeffs: all,
    }
}

#[test]
fn events_up_to_the_limit(rt: HostRuntime) -> Result<(), Fail> {
    let alloc = rt.alloc();
    let few = Params { events: 6, ..LINE };
    let mut stored = opened(alloc, made(alloc, &few))?;
    let mut listed = ListHouse::new(alloc, &few);
    let batches: [(&[Act], Outcome); 6] = [
        (&[Act::Add(1, 1), Act::Add(2, 1)], Outcome::Done(1)),
        (
            &[Act::Move(1, 2), Act::Add(1, 1)],
            Outcome::Refused(0, Reason::Events),
        ),
        (&[Act::Move(1, 2)], Outcome::Done(2)),
        (&[], Outcome::Refused(0, Reason::Events)),
        (&[Act::Withdraw(7)], Outcome::Refused(0, Reason::Events)),
        (&[Act::Withdraw(1)], Outcome::Refused(0, Reason::Events)),
    ];
    for (acts, wanted) in batches {
        let rows = rows_of(alloc, &few, acts)?;
        let (one, other, outcome) = put_both(alloc, stored, listed, &rows)?;
        assert_eq!(rt; outcome, Some(wanted));
        stored = one;
        listed = other;
    }
    Ok(())
}

#[test]
fn masses_up_to_the_limit(rt: HostRuntime) -> Result<(), Fail> {
    let alloc = rt.alloc();
    let square = Params {
        degree: Some(2),
        ..LINE
    };
    let mut stored = opened(alloc, made(alloc, &square))?;
    let mut listed = ListHouse::new(alloc, &square);
    // The masses are `2^126 - 2^94`, `2^94 - 2^61` and `2^61 - 1`, and of the fourth and fifth object 2.
    let first = interval(1, 0, 2147483648, 0, [0, 0, 4294967295]);
    let second = interval(2, 0, 1048576, 0, [0, 0, 8589934591]);
    let third = interval(3, 0, 1, 0, [0, 1, 1152921504606846974]);
    let fourth = interval(4, 0, 1, 0, [0, 0, 1]);
    let empty = interval(5, 0, 1, 7, [0, 0, 0]);
    let batches: [(&[Row], Outcome); 5] = [
        (&[Row::Add(first), Row::Add(second)], Outcome::Done(1)),
        (
            &[Row::Withdraw(1), Row::Add(third), Row::Add(fourth)],
            Outcome::Refused(3, Reason::Mass),
        ),
        (&[Row::Withdraw(1), Row::Add(third)], Outcome::Done(2)),
        (&[Row::Add(fourth)], Outcome::Refused(1, Reason::Mass)),
        (&[Row::Add(empty)], Outcome::Done(3)),
    ];
    for (rows, wanted) in batches {
        let (one, other, outcome) = put_both(alloc, stored, listed, rows)?;
        assert_eq!(rt; outcome, Some(wanted));
        stored = one;
        listed = other;
    }
    Ok(())
}

// A page of the Pages area.
fn page_at(disk: &mut MemDisk, page: u64) -> Result<Page, Failed> {
    let mut buf = blank_page();
    disk.read(Area::Pages, page, &mut buf)?;
    Ok(buf)
}

// The meta page of a disk.
fn meta_of(disk: &mut MemDisk) -> Result<Meta, Failed> {
    Meta::read(&page_at(disk, 2)?).ok_or(Failed)
}

// Writes over a page, and makes that lasting.
fn write_over(disk: &mut MemDisk, page: u64, buf: &Page) -> Result<(), Failed> {
    if disk.len(Area::Pages)? < page {
        return Err(Failed);
    }
    disk.write(Area::Pages, page, buf)?;
    disk.sync()
}

// The spelling of a value, where it keeps the rules of one.
fn spelled<T: Spelled>(value: &T) -> Result<Page, Failed> {
    let mut page = blank_page();
    if !value.keeps_rules() {
        return Err(Failed);
    }
    value.write(&mut page);
    Ok(page)
}

// The leaf of a table by lives, as a table by ids has it.
fn by_ids(leaf: &Page) -> Result<Page, Failed> {
    let Some(LifeNode::Leaf { objects }) = LifeNode::read(leaf) else {
        return Err(Failed);
    };
    let mut first_lives = ArrayVec::new();
    for dated in objects.iter() {
        if !first_lives.is_full() {
            first_lives.push(*dated);
        }
    }
    spelled(&TableNode::Leaf {
        objects: first_lives,
    })
}

// Gives the table of a disk, which is one leaf, the earlier form.
fn to_earlier(disk: &mut MemDisk) -> Result<(), Failed> {
    let mut meta = meta_of(disk)?;
    let root = meta.table.root;
    let leaf = page_at(disk, root)?;
    write_over(disk, root, &by_ids(&leaf)?)?;
    meta.lives = 0;
    write_over(disk, 2, &spelled(&meta)?)
}

// A disk with one version of two objects, on [2, 5] and [5, 9], and with a table of the earlier form where told so.
fn begun(alloc: Global, earlier: bool) -> Result<MemDisk, Fail> {
    let first = interval(1, 2, 5, 10, [0, 0, 0]);
    let second = interval(2, 5, 9, 7, [0, 0, 0]);
    let house = opened(alloc, made(alloc, &LINE))?;
    let (house, outcome) = came_back(put(house, &[Row::Add(first), Row::Add(second)]))?;
    let mut disk = house.into_device();
    if outcome != Outcome::Done(1) {
        return Err(Failed.into());
    }
    if earlier {
        to_earlier(&mut disk)?;
    }
    Ok(disk)
}

// Whether the house has so many versions, 1 or 2, and answers as those two do: the second one withdrew the first object.
fn stands_at(house: &mut Stored, last: u32) -> bool {
    let touching = query_at(&LINE, Kind::Sum, 10, 10);
    let all = query_at(&LINE, Kind::Count, 0, 999999);
    let first = asked(house, &touching, 1) == Some(Ok(17)) && asked(house, &all, 1) == Some(Ok(2));
    let mut second = Some(Err(QueryFault::NoVersion(last)));
    if last == 2 {
        second = Some(Ok(7));
    }
    house.last() == last && first && asked(house, &touching, 2) == second
}

// Opens a disk, commits the withdrawal of the first object, and gives back the disk and whether that was done.
fn withdrawn(alloc: Global, disk: MemDisk) -> (MemDisk, bool) {
    let house: Stored = match Warehouse::open_on(alloc, disk) {
        Ok(house) => house,
        Err(refused) => return (refused.disk, false),
    };
    let (back, outcome) = put(house, &[Row::Withdraw(1)]);
    match back {
        Ok(house) => (house.into_device(), outcome == Outcome::Done(2)),
        Err(device) => (device, false),
    }
}

// The calls of `withdrawn` up to the one that writes the open gate of the journal: after that come a sync, the pages
// written home, a sync, the closed gate and a sync.
fn calls_to_gate(alloc: Global, earlier: bool) -> Result<u64, Fail> {
    let disk = begun(alloc, earlier)?;
    let before = disk.calls();
    let (disk, done) = withdrawn(alloc, disk);
    if !done {
        return Err(Failed.into());
    }
    // The leaf of the table, a list for each end, and the meta page; the earlier table has one page more, which is
    // freed.
    let mut images = 4;
    if earlier {
        images = 5;
    }
    Ok(
        disk.calls()
            .saturating_sub(before)
            .saturating_sub(images + 4),
    )
}

// The last version after a stop at this call and such a crash, where that one writes the open gate.
fn last_after(calls: u64, gate: u64, torn: Torn) -> u32 {
    let landed = match torn {
        Torn::Landed => true,
        Torn::Filled(byte) => byte == 1,
        Torn::Lost => false,
    };
    if calls > gate || (calls == gate && landed) {
        return 2;
    }
    1
}

#[test]
fn a_commit_that_is_stopped(rt: HostRuntime) -> Result<(), Fail> {
    let alloc = rt.alloc();
    for earlier in [false, true] {
        let gate = calls_to_gate(alloc, earlier)?;
        assert!(rt; 10 < gate && gate < 100);
        for calls in 0..gate + 14 {
            for torn in TORN {
                let mut disk = begun(alloc, earlier)?;
                disk.stop_after(calls);
                let (disk, done) = withdrawn(alloc, disk);
                let last = last_after(calls, gate, torn);
                let mut house = opened(alloc, disk.crash(torn))?;
                assert!(rt; stands_at(&mut house, last), "after {calls}");
                assert!(rt; !done || last == 2, "after {calls}");
            }
        }
    }
    Ok(())
}

#[test]
fn an_opening_that_is_stopped(rt: HostRuntime) -> Result<(), Fail> {
    let alloc = rt.alloc();
    let gate = calls_to_gate(alloc, false)?;
    assert!(rt; 10 < gate && gate < 100);
    for calls in 0..40 {
        for torn in TORN {
            // The commit stops once its gate is open and synced.
            let mut disk = begun(alloc, false)?;
            disk.stop_after(gate + 1);
            let (disk, _) = withdrawn(alloc, disk);
            let mut disk = disk.crash(Torn::Lost);
            disk.stop_after(calls);
            let disk = match Warehouse::<MemDisk, PointList>::open_on(alloc, disk) {
                Ok(house) => house.into_disk(),
                Err(refused) => refused.disk,
            };
            let mut house = opened(alloc, disk.crash(torn))?;
            assert!(rt; stands_at(&mut house, 2), "after {calls}");
        }
    }
    Ok(())
}

#[test]
fn each_call_on_the_disk_fails(rt: HostRuntime) -> Result<(), Fail> {
    let alloc = rt.alloc();
    let gate = calls_to_gate(alloc, false)?;
    assert!(rt; 10 < gate && gate < 100);
    for call in 1..gate + 9 {
        let mut disk = begun(alloc, false)?;
        let mut failing = Vec::new(alloc);
        failing.push(call)?;
        disk.fail_at(failing);
        let (disk, done) = withdrawn(alloc, disk);
        assert_eq!(rt; (done, disk.faults()), (false, 1), "call {call}");
        let mut last = 1;
        if call > gate {
            last = 2;
        }
        let mut house = opened(alloc, disk)?;
        assert!(rt; stands_at(&mut house, last), "call {call}");
    }
    Ok(())
}

#[test]
fn an_earlier_table_is_written_anew(rt: HostRuntime) -> Result<(), Fail> {
    let alloc = rt.alloc();
    let third = interval(3, 7, 8, 1, [0, 0, 0]);
    let again = interval(1, 2, 5, 3, [0, 0, 0]);
    // A batch, what becomes of it, and the form of the table afterwards.
    let batches: [(&[Row], Outcome, u8); 6] = [
        (&[Row::Withdraw(9)], Outcome::Refused(1, Reason::Unknown), 0),
        (&[Row::Add(again)], Outcome::Refused(1, Reason::Used), 0),
        (&[], Outcome::Done(2), 1),
        (&[Row::Add(third)], Outcome::Done(2), 1),
        (&[Row::Withdraw(2)], Outcome::Done(2), 1),
        (&[Row::Withdraw(1), Row::Add(again)], Outcome::Done(2), 1),
    ];
    for (rows, wanted, lives) in batches {
        let house = opened(alloc, begun(alloc, true)?)?;
        let (house, outcome) = came_back(put(house, rows))?;
        assert_eq!(rt; outcome, wanted);
        let mut disk = house.into_device();
        let meta = meta_of(&mut disk)?;
        assert_eq!(rt; meta.lives, lives);
        // Once it is by lives, both objects are found in it.
        let house = opened(alloc, disk)?;
        let moves = [Row::Move(again), Row::Add(interval(4, 0, 1, 1, [0, 0, 0]))];
        let (house, outcome) = came_back(put(house, &moves))?;
        assert_eq!(rt; outcome, Outcome::Done(meta.version.saturating_add(1)));
        assert_eq!(rt; meta_of(&mut house.into_device())?.lives, 1);
    }
    Ok(())
}

#[test]
fn pages_up_to_the_limit(rt: HostRuntime) -> Result<(), Fail> {
    let alloc = rt.alloc();
    // The first three pages, a leaf of the table, and a list for each end.
    for (pages, wanted) in [
        (3, Outcome::PageLimit(3)),
        (5, Outcome::PageLimit(5)),
        (6, Outcome::Done(1)),
    ] {
        let limited = Params { pages, ..LINE };
        let house = opened(alloc, made(alloc, &limited))?;
        let rows = rows_of(alloc, &limited, &[Act::Add(1, 10), Act::Add(2, 12)])?;
        let (house, outcome) = came_back(put(house, &rows))?;
        assert_eq!(rt; outcome, wanted);
        let last = house.last();
        let next = last.saturating_add(1);
        // The house goes on, here with an empty batch.
        let (house, outcome) = came_back(put(house, &[]))?;
        assert_eq!(rt; outcome, Outcome::Done(next));
        let mut house = opened(alloc, house.into_device())?;
        let all = query_at(&limited, Kind::Count, 0, 999999);
        let count = i128::from(last) * 2;
        assert!(rt; asked(&mut house, &all, next) == Some(Ok(count)));
    }
    Ok(())
}

#[test]
fn a_warehouse_that_is_full(rt: HostRuntime) -> Result<(), Fail> {
    let alloc = rt.alloc();
    let limited = Params { pages: 6, ..LINE };
    let all = query_at(&limited, Kind::Count, 0, 999999);
    let mut house = opened(alloc, made(alloc, &limited))?;
    let mut added = 0;
    for id in 0..20u32 {
        let rows = rows_of(alloc, &limited, &[Act::Add(u64::from(id), id)])?;
        let (next, outcome) = came_back(put(house, &rows))?;
        house = opened(alloc, next.into_device())?;
        // A leaf of the table has up to 14 lives (docs/PAGES.md), and there is no page for a second one.
        if id < 14 {
            added = i128::from(id) + 1;
            assert_eq!(rt; outcome, Outcome::Done(id + 1));
        } else {
            assert_eq!(rt; outcome, Outcome::PageLimit(6));
        }
        let last = house.last();
        assert!(rt; asked(&mut house, &all, last) == Some(Ok(added)));
    }
    // A withdrawal marks a life that is there.
    let (mut house, outcome) = came_back(put(house, &[Row::Withdraw(3)]))?;
    assert_eq!(rt; outcome, Outcome::Done(15));
    assert!(rt; asked(&mut house, &all, 15) == Some(Ok(13)));
    assert!(rt; asked(&mut house, &all, 14) == Some(Ok(14)));
    Ok(())
}

#[test]
fn a_damaged_table(rt: HostRuntime) -> Result<(), Fail> {
    let alloc = rt.alloc();
    for byte in [0, 255] {
        let mut disk = begun(alloc, false)?;
        let root = meta_of(&mut disk)?.table.root;
        write_over(&mut disk, root, &[byte; 4096])?;
        let house = opened(alloc, disk)?;
        let (mut house, outcome) = came_back(put(house, &[Row::Withdraw(1)]))?;
        assert_eq!(rt; outcome, Outcome::Damaged(root));
        // The trees answer as before.
        assert!(rt; stands_at(&mut house, 1));
    }
    Ok(())
}
