//! Objects with their dates, in the forms that the leaves of object tables have them.
ghost use Rattle.std.specs.Prelude.{◌≡◌, ◌+◌, ◌<◌, ◌≤◌, ◌++◌, length, take, IsTrue};
ghost use Rattle.std.specs.List.{All};
ghost use Rattle.std.specs.Int.{w64};
ghost use Rattle.std.specs.Int.RustNames.{FitsSigned};
ghost use Rattle.page_layout.specs.Entries.{entries_at};
ghost use Rattle.page_layout.specs.Signed.{signed_at};
ghost use Rattle.page_layout.specs.Dated.{object_bytes, object_at, IsObjectTyped, date_bytes, dated_bytes, dated_at, IsDatedTyped, end_fits, ends_fit, withdrawal_fits, dates_fit, dated_fits, by_id_at, by_id_fits, by_life_bytes, by_life_at, by_life_fits, life_precedes, length-dated, length-by_life, by_id-back, by_life-back};

use crate::entry::{Entry, get_all, put_all};
use crate::front::{put_u32, put_u64};
use crate::number::{number_u32, number_u64, skip};
use crate::signed::number_i64;
use crate::three::{put_three_u32, three_u32};
use arrayvec::ArrayVec;
use bw_types::{Dated, Object};
use ports::Page;

const GREATEST_END: u32 = 4294967294;

/// The form of tables by id, in which each object has its first life.
pub(crate) struct ById;

/// The form of tables by id and life.
pub(crate) struct ByLife;

fn put_object(page: &mut Page, place: usize, object: &Object)
    requires { place + 256 ≤ 4096 }
    ensures { take (place + 256) page.new ≡ take place page.old ++ object_bytes object.now }
{
    put_u64(page, place, object.id);
    put_three_u32(page, place + 8, &object.low);
    put_three_u32(page, place + 20, &object.high);
    object.weight.put(page, place + 32);
    put_all(page, place + 40, &object.coeffs);
}

fn put_dates(page: &mut Page, place: usize, dated: &Dated)
    requires { place + 16 ≤ 4096 }
    ensures { take (place + 16) page.new ≡ take place page.old ++ date_bytes dated.now }
{
    put_u32(page, place, dated.added);
    put_u32(page, place + 4, dated.add_event);
    put_u32(page, place + 8, dated.withdrawn);
    put_u32(page, place + 12, dated.withdraw_event);
}

fn put_dated(page: &mut Page, place: usize, dated: &Dated)
    requires { place + 272 ≤ 4096 }
    ensures { take (place + 272) page.new ≡ take place page.old ++ dated_bytes dated.now }
{
    put_object(page, place, &dated.object);
    put_dates(page, place + 256, dated);
}

fn get_coefficients(bytes: &[u8]) -> [i64; 27]
    requires { 216 ≤ length bytes.now }
    ensures value { result ≡ entries_at signed_at 8 27 bytes.now }
    ensures typed { All (FitsSigned w64) result }
{
    let row: ArrayVec<i64, 27> = get_all(27, bytes);
    let mut coefficients = [0; 27];
    coefficients.copy_from_slice(row.as_slice());
    coefficients
}

fn get_object(bytes: &[u8]) -> Object
    requires { 256 ≤ length bytes.now }
    ensures value { result ≡ object_at bytes.now }
    ensures typed { IsObjectTyped result }
{
    Object {
        id: number_u64(bytes),
        low: three_u32(skip(bytes, 8)),
        high: three_u32(skip(bytes, 20)),
        weight: number_i64(skip(bytes, 32)),
        coeffs: get_coefficients(skip(bytes, 40)),
    }
}

fn get_dated(life: u32, bytes: &[u8]) -> Dated
    requires { 272 ≤ length bytes.now }
    ensures value { result ≡ dated_at life bytes.now }
    ensures typed { IsDatedTyped result }
{
    Dated {
        object: get_object(bytes),
        life,
        added: number_u32(skip(bytes, 256)),
        add_event: number_u32(skip(bytes, 260)),
        withdrawn: number_u32(skip(bytes, 264)),
        withdraw_event: number_u32(skip(bytes, 268)),
    }
}

fn end_fits(low: u32, high: u32) -> bool
    ensures { result ≡ end_fits low high }
{
    low <= high && high <= GREATEST_END
}

fn ends_fit(object: &Object) -> bool
    ensures { result ≡ ends_fit object.now }
{
    end_fits(object.low[0], object.high[0])
        && (end_fits(object.low[1], object.high[1]) && end_fits(object.low[2], object.high[2]))
}

fn withdrawal_fits(dated: &Dated) -> bool
    ensures { result ≡ withdrawal_fits dated.now }
{
    if dated.withdrawn == 0 {
        dated.withdraw_event == 0
    } else {
        dated.added < dated.withdrawn
    }
}

fn dates_fit(dated: &Dated) -> bool
    ensures { result ≡ dates_fit dated.now }
{
    dated.added >= 1 && withdrawal_fits(dated)
}

fn dated_fits(dated: &Dated) -> bool
    ensures { result ≡ dated_fits dated.now }
{
    ends_fit(&dated.object) && dates_fit(dated)
}

/// Whether an id and a life come before another id and life.
pub(crate) fn life_precedes(id: u64, life: u32, next_id: u64, next_life: u32) -> bool
    ensures { result ≡ life_precedes id life next_id next_life }
{
    id < next_id || (id == next_id && life < next_life)
}

impl Entry<ById> for Dated {
    const SIZE: usize = 272;

    ghost SIZE = { 272 };

    ghost spelling = { dated_bytes };

    ghost value_at = { by_id_at };

    ghost is_typed = { IsDatedTyped };

    ghost keeps = { λ _ d. IsTrue (by_id_fits d) };

    ghost precedes = { λ d next. d.object.id < next.object.id };

    fn put(&self, page: &mut Page, place: usize) {
        put_dated(page, place, self);
    }

    fn get(bytes: &[u8]) -> Dated {
        get_dated(1, bytes)
    }

    fn keeps(&self, _level: u8) -> bool {
        dated_fits(self) && self.life == 1
    }

    fn precedes(&self, next: &Dated) -> bool {
        self.object.id < next.object.id
    }

    ghost has_size = { length-dated };

    ghost reads_back = { λ _ x rest typed fits. by_id-back x rest typed fits };
}

impl Entry<ByLife> for Dated {
    const SIZE: usize = 276;

    ghost SIZE = { 276 };

    ghost spelling = { by_life_bytes };

    ghost value_at = { by_life_at };

    ghost is_typed = { IsDatedTyped };

    ghost keeps = { λ _ d. IsTrue (by_life_fits d) };

    ghost precedes = { λ d next. IsTrue (life_precedes d.object.id d.life next.object.id next.life) };

    fn put(&self, page: &mut Page, place: usize) {
        put_dated(page, place, self);
        put_u32(page, place + 272, self.life);
    }

    fn get(bytes: &[u8]) -> Dated {
        get_dated(number_u32(skip(bytes, 272)), bytes)
    }

    fn keeps(&self, _level: u8) -> bool {
        dated_fits(self) && self.life >= 1
    }

    fn precedes(&self, next: &Dated) -> bool {
        life_precedes(self.object.id, self.life, next.object.id, next.life)
    }

    ghost has_size = { length-by_life };

    ghost reads_back = { λ _ x rest typed _. by_life-back x rest typed };
}
