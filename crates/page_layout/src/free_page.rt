//! Free pages.
ghost use Rattle.std.specs.Prelude.{◌≡◌};
ghost use Rattle.page_layout.specs.FreePage.{IsFreePage, IsTyped, free_page_in, next_fits, free_page_page};
ghost use Rattle.page_layout.specs.FreePageLaws.{free_page_in-page};

use crate::counted::{is_counted, read_double, start};
use crate::entry::Own;
use crate::front::finish;
use crate::number::bytes_of;
use crate::spelled::Spelled;
use ports::{FREE_PAGE, Page};

/// A page that is not in use: the number of the next free page, or 0 where it is the last.
#[derive(Clone, Copy, Debug, PartialEq, Eq)]
pub struct FreePage {
    pub next: u64,
}

/// Whether this may be the number of a free page, or 0 for none.
pub(crate) fn next_fits(next: u64) -> bool
    ensures { result ≡ next_fits next }
{
    next == 0 || next >= 3
}

impl Spelled for FreePage {
    ghost keeps = { IsFreePage };

    ghost is_typed = { IsTyped };

    ghost spelling = { free_page_page };

    ghost value_in = { free_page_in };

    fn write(&self, page: &mut Page) {
        start(page, FREE_PAGE, 0, 0, 0, self.next);
        finish(page, 16);
    }

    fn guess(page: &Page) -> FreePage {
        FreePage {
            next: read_double(page),
        }
    }

    fn keeps_rules(&self) -> bool {
        next_fits(self.next)
    }

    fn is_spelled(page: &Page) -> bool {
        let _bytes = bytes_of(page);
        let next = read_double(page);
        if !next_fits(next) {
            return false;
        }
        if page[1] != 0 {
            return false;
        }
        is_counted::<Own, u64>(page, FREE_PAGE, 0, next, 0)
    }

    ghost reads_back = { free_page_in-page };
}
