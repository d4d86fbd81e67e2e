//! The heads of the journal's groups.
ghost use Rattle.page_layout.specs.Head.{IsHead, IsTyped, head_in, head_page};
ghost use Rattle.page_layout.specs.HeadLaws.{head_in-page};

use crate::counted::{read_entries, spells_row, write_counted};
use crate::entry::{Own, are_in_order};
use crate::number::bytes_of;
use crate::spelled::Spelled;
use arrayvec::ArrayVec;
use ports::Page;

const KIND: u8 = 8;

/// The head of a group of the journal: where the images after it belong.
///
/// A head has 1 to 500 homes, which ascend strictly and are at least 1. `more` says that another
/// group follows.
#[derive(Debug, PartialEq, Drop)]
pub struct JournalHead {
    pub more: bool,
    pub homes: ArrayVec<u64, 500>,
}

impl Spelled for JournalHead {
    ghost keeps = { IsHead };

    ghost is_typed = { IsTyped };

    ghost spelling = { head_page };

    ghost value_in = { head_in };

    fn write(&self, page: &mut Page) {
        write_counted(page, KIND, u8::from(self.more), 0, 0, self.homes.as_slice());
    }

    fn guess(page: &Page) -> JournalHead {
        JournalHead {
            more: page[1] == 1,
            homes: read_entries(page, 500),
        }
    }

    fn keeps_rules(&self) -> bool {
        let count = self.homes.len();
        1 <= count && count <= 500 && are_in_order(1, self.homes.as_slice())
    }

    fn is_spelled(page: &Page) -> bool {
        let _bytes = bytes_of(page);
        spells_row::<Own, u64>(page, KIND, 0, 1, 500)
    }

    ghost reads_back = { head_in-page };
}
