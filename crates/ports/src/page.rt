//! The page and the refusals of calls on pages.
ghost use Rattle.std.specs.Prelude.{◌≡◌};
ghost use Rattle.ports.specs.Pages.{blank_bytes};

use thiserror::Error;

/// A page: 4096 bytes.
pub type Page = [u8; 4096];

/// The first byte of a free page. No page that is in use begins with it.
pub const FREE_PAGE: u8 = 9;

/// A page of zeros.
#[tactic(auto, unfolding(crate::specs::Pages::blank_bytes))]
pub fn blank_page() -> Page
    ensures { result ≡ blank_bytes }
{
    [0; 4096]
}

/// Why a page could not be read.
#[derive(Clone, Copy, Debug, PartialEq, Eq, Error)]
pub enum PageFault {
    /// The device failed. Comes only where the count of faults rose.
    #[error("the disk failed")]
    Disk,
    /// This page is not in the map.
    #[error("page {0} is damaged")]
    Damaged(u64),
}

/// Why a stage of changes refused a call.
#[derive(Clone, Copy, Debug, PartialEq, Eq, Error)]
pub enum StageFault {
    /// The device failed. Comes only where the count of faults rose.
    #[error("the disk failed")]
    Disk,
    /// This page is not in the map, or is met where the free pages are not in order.
    #[error("page {0} is damaged")]
    Damaged(u64),
    /// As many pages are allotted as the limit allows: this number.
    #[error("page limit {0} reached")]
    PageLimit(u64),
    /// There was no memory.
    #[error("no memory")]
    NoMemory,
}

impl From<PageFault> for StageFault {
    ghost use Rattle.ports.specs.Faults.{HandsOn};

    ghost from_gives = { HandsOn };

    fn from(fault: PageFault) -> StageFault {
        match fault {
            PageFault::Disk => StageFault::Disk,
            PageFault::Damaged(page) => StageFault::Damaged(page),
        }
    }
}
