//! How the program ended.
ghost use Rattle.std.specs.Prelude.{◌≡◌};
ghost use Rattle.boxsum.specs.Statuses.{exit_code};

use page_disk::Area;
use page_space::OpenFault;
use page_warehouse::GatherFault;
use row_machine::Ending;
use std::fmt;

/// How the program ended. The number of a status is the exit status, and its text goes to standard
/// error.
#[derive(Clone, Copy, PartialEq, Eq, Debug)]
pub enum Status {
    /// The command is done: the whole text was written, and the input was read to its end.
    Fine,
    /// The words are not in the grammar, or ask for a command that is not built yet. Nothing was
    /// called.
    Usage,
    /// There is no warehouse on the disk. Nothing was written to it.
    NoWarehouse,
    /// There is a warehouse on the disk already, or on the second disk something that may not be written over. It stays.
    AlreadyThere,
    /// The input failed.
    ReadFault,
    /// The output failed.
    WriteFault,
    /// The disk failed.
    DiskFault,
    /// Memory ran out.
    NoMemory,
    /// This page of the disk is not as the program leaves it.
    Damaged { area: Area, page: u64 },
    /// So many bytes were taken from the input, as many as may be, and more are needed.
    InputLimit { taken: u64 },
    /// As many pages are given out as the limit allows: this number.
    PageLimit { allotted: u64 },
    /// The version is above the last one, which is this. The second disk was not called.
    NoVersion { last: u32 },
}

/// How a command ended, and the disk that it was carried out on.
#[derive(Drop)]
pub struct Ran<D> {
    pub status: Status,
    pub disk: D,
}

/// How a command ended, and the two disks that it was given.
#[derive(Drop)]
pub struct RanTwo<D, E> {
    pub status: Status,
    pub disk: D,
    pub second: E,
}

impl Status {
    /// The number of the status.
    pub fn code(self) -> u8
        ensures { result ≡ exit_code self }
    {
        match self {
            Status::Fine => 0,
            Status::Usage => 2,
            Status::NoWarehouse => 3,
            Status::AlreadyThere => 4,
            Status::ReadFault => 5,
            Status::WriteFault => 6,
            Status::DiskFault => 7,
            Status::NoMemory => 8,
            Status::Damaged { .. } => 9,
            Status::InputLimit { .. } => 10,
            Status::PageLimit { .. } => 11,
            Status::NoVersion { .. } => 12,
        }
    }
}

impl From<Ending> for Status {
    ghost use Rattle.std.specs.Prelude.{◌≡◌};
    ghost use Rattle.boxsum.specs.Statuses.{status_of};

    ghost from_gives = { λ ending status. status ≡ status_of ending };

    fn from(ending: Ending) -> Status {
        match ending {
            Ending::Fine => Status::Fine,
            Ending::ReadFault => Status::ReadFault,
            Ending::WriteFault => Status::WriteFault,
            Ending::DiskFault => Status::DiskFault,
            Ending::NoMemory => Status::NoMemory,
            Ending::Damaged { page } => Status::Damaged {
                area: Area::Pages,
                page,
            },
            Ending::InputLimit { taken } => Status::InputLimit { taken },
            Ending::PageLimit { allotted } => Status::PageLimit { allotted },
        }
    }
}

impl From<OpenFault> for Status {
    ghost use Rattle.std.specs.Prelude.{◌≡◌};
    ghost use Rattle.boxsum.specs.Statuses.{status_of_fault};

    ghost from_gives = { λ fault status. status ≡ status_of_fault fault };

    fn from(fault: OpenFault) -> Status {
        match fault {
            OpenFault::Disk => Status::DiskFault,
            OpenFault::Empty => Status::NoWarehouse,
            OpenFault::Damaged(page) => Status::Damaged {
                area: Area::Pages,
                page,
            },
            OpenFault::NoMemory => Status::NoMemory,
            OpenFault::BadJournal(page) => Status::Damaged {
                area: Area::Journal,
                page,
            },
        }
    }
}

impl From<GatherFault> for Status {
    ghost use Rattle.std.specs.Prelude.{◌≡◌};
    ghost use Rattle.boxsum.specs.Statuses.{status_of_gathering};

    ghost from_gives = { λ fault status. status ≡ status_of_gathering fault };

    fn from(fault: GatherFault) -> Status {
        match fault {
            GatherFault::Disk => Status::DiskFault,
            GatherFault::Damaged(page) => Status::Damaged {
                area: Area::Pages,
                page,
            },
            GatherFault::NoMemory => Status::NoMemory,
        }
    }
}

impl fmt::Display for Status {
    ghost use Rattle.std.specs.Prelude.{Some};
    ghost use Rattle.boxsum.specs.Statuses.{status_text};

    ghost output = { λ status. Some (status_text status) };

    fn fmt<W: fmt::Write>(&self, f: &mut fmt::Formatter<W>) -> fmt::Result {
        match self {
            Status::Fine => f.write_str(""),
            Status::Usage => f.write_str(
                "usage: boxsum create D [--degree G] [--events N] [--pages N] [--signed S], run, scratch D [--degree G] [--events N] [--signed S], sample START COUNT, check, spans, spanrun, report, export, compact V",
            ),
            Status::NoWarehouse => f.write_str("no warehouse here"),
            Status::AlreadyThere => f.write_str("there is a warehouse already"),
            Status::ReadFault => f.write_str("input failed"),
            Status::WriteFault => f.write_str("output failed"),
            Status::DiskFault => f.write_str("disk failed"),
            Status::NoMemory => f.write_str("no memory"),
            Status::Damaged {
                area: Area::Pages,
                page,
            } => write!(f, "damaged page {page}"),
            Status::Damaged {
                area: Area::Journal,
                page,
            } => write!(f, "damaged journal page {page}"),
            Status::InputLimit { .. } => f.write_str("input too long"),
            Status::PageLimit { allotted } => write!(f, "page limit {allotted} reached"),
            Status::NoVersion { last } => write!(f, "last version is {last}"),
        }
    }
}
