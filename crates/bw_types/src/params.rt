/// What a warehouse is made for; it never changes over the warehouse's life.
///
/// | Field | Meaning | Range |
/// |---|---|---|
/// | `dims` | dimensions of every box | 1 to 3 |
/// | `degree` | greatest exponent of a value function in each dimension, or `None` where objects have none | 0 to 2 |
/// | `events` | the most events that the history may come to | 1 to 268435456 |
/// | `pages` | the most pages that the page file may have | 3 to 4294967295 |
/// | `origin` | what is added to a coordinate to give the number that is stored | 0 in a plain warehouse, 2147483647 in a signed one |
#[derive(Clone, Copy, PartialEq, Eq, Debug)]
pub struct Params {
    pub dims: u8,
    pub degree: Option<u8>,
    pub events: u32,
    pub pages: u64,
    pub origin: u32,
}

impl Params {
    /// The most dimensions that a warehouse may have.
    pub const MOST_DIMS: u8 = 3;

    /// The greatest degree of a value function.
    pub const MOST_DEGREE: u8 = 2;

    /// The highest limit on events.
    pub const MOST_EVENTS: u32 = 268435456;

    /// The fewest pages that a page file may be limited to: two gates' worth and the meta page.
    pub const LEAST_PAGES: u64 = 3;

    /// The highest limit on pages.
    pub const MOST_PAGES: u64 = 4294967295;

    /// The masses of all objects that are ever added stay below this.
    pub const MASS_LIMIT: u128 = 1 << 126;

    /// The origin of a signed warehouse.
    pub const SIGNED_ORIGIN: u32 = 2147483647;
}
