// The values of arguments, and the params that they give.

ghost use Rattle.std.specs.Prelude.{◌≡◌, ◌≤◌, IfSome, None, Some, option_map};
ghost use Rattle.bw_types.specs.Fits.{IsInRange};
ghost use Rattle.command_words.specs.Command.{params_from, read_or, sample_from, value_from, version_from};
ghost use Rattle.command_words.specs.Reading.{words_of_text};

use bw_types::Params;
use csv_rows::number;

/// The limit on events where none is given.
const USUAL_EVENTS: u64 = 1000000;

/// The limit on pages where none is given: 4 GiB of pages.
const USUAL_PAGES: u64 = 1048576;

/// The values of a command that makes params, as text.
#[derive(Clone, Copy)]
pub struct ParamsText<'a> {
    pub dims: Option<&'a str>,
    pub degree: Option<&'a str>,
    pub events: Option<&'a str>,
    pub pages: Option<&'a str>,
    pub signed: Option<&'a str>,
}

/// The most rows that `sample` makes.
const MOST_SAMPLES: u64 = 20000;

/// The number that a value spells, where it is from `least` to `most`, both included. None for any
/// other value.
pub fn value(text: &str, least: u64, most: u64) -> Option<u64>
    ensures value { result ≡ value_from least most text.now }
    ensures within { IfSome result (λ n. (least ≤ n) × (n ≤ most)) }
{
    let value = number(text.as_bytes(), most)?;
    if value >= least { Some(value) } else { None }
}

// The number that an option is set to, or the usual one where it is not set.
fn value_or(text: Option<&str>, usual: u64, least: u64, most: u64) -> Option<u64>
    ensures value { result ≡ read_or usual (value_from least most) (option_map (λ v. v.now) text.entry) }
    ensures within { IfSome result (λ n. least ≤ usual → usual ≤ most → (least ≤ n) × (n ≤ most)) }
{
    match text {
        None => Some(usual),
        Some(text) => value(text, least, most),
    }
}

// The degree that is set.
fn degree(text: Option<&str>) -> Option<Option<u8>>
    ensures value { result ≡ read_or None (λ v. option_map Some (value_from 0 2 v)) (option_map (λ v. v.now) text.entry) }
    ensures within { IfSome result (λ degree. IfSome degree (λ g. g ≤ 2)) }
{
    match text {
        None => Some(None),
        Some(text) => Some(Some(value(text, 0, u64::from(Params::MOST_DEGREE))? as u8)),
    }
}

/// The params that values give. None where one is not a number in its range.
pub fn params(text: &ParamsText) -> Option<Params>
    ensures value { result ≡ params_from (words_of_text text.now) }
    ensures fits { IfSome result IsInRange }
{
    let dims = value(text.dims?, 1, u64::from(Params::MOST_DIMS))?;
    let degree = degree(text.degree)?;
    let events = value_or(text.events, USUAL_EVENTS, 1, u64::from(Params::MOST_EVENTS))?;
    let pages = value_or(
        text.pages,
        USUAL_PAGES,
        Params::LEAST_PAGES,
        Params::MOST_PAGES,
    )?;
    let signed = value_or(text.signed, 0, 0, 1)?;
    Some(Params {
        dims: dims as u8,
        degree,
        events: events as u32,
        pages,
        origin: if signed == 0 {
            0
        } else {
            Params::SIGNED_ORIGIN
        },
    })
}

/// The start and the count of a sample. None where one is not a number in its range.
pub fn sample_numbers(start: Option<&str>, count: Option<&str>) -> Option<(u64, u32)>
    ensures { result ≡ sample_from (option_map (λ v. v.now) start.entry) (option_map (λ v. v.now) count.entry) }
{
    let start = value(start?, 0, u64::MAX)?;
    let count = value(count?, 0, MOST_SAMPLES)?;
    Some((start, count as u32))
}

/// The number of a version. None where the value is not one.
pub fn version(text: Option<&str>) -> Option<u32>
    ensures { result ≡ version_from (option_map (λ v. v.now) text.entry) }
{
    let version = value(text?, 0, u64::from(u32::MAX))?;
    Some(version as u32)
}
