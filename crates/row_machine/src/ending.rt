//! How a run over an input ended.

/// Why no further line is served.
#[derive(Clone, Copy, PartialEq, Eq, Debug)]
pub enum Ending {
    /// The input was read to its end, and every reply was written.
    Fine,
    /// The source failed.
    ReadFault,
    /// The sink failed.
    WriteFault,
    /// Memory ran out.
    NoMemory,
    /// So many bytes were taken from the source, as many as may be, and more are needed.
    InputLimit { taken: u64 },
    /// The device under the house failed.
    DiskFault,
    /// This page of the device is not as the program leaves it.
    Damaged { page: u64 },
    /// As many pages are given out as the limit allows: this number.
    PageLimit { allotted: u64 },
}

/// How a run ended, and the device that lasts.
#[derive(Drop)]
pub struct RunEnd<D> {
    pub ending: Ending,
    pub device: D,
}
