//! The disk as a journal sees it: what a read returns, and what a crash may leave.
ghost use Rattle.std.specs.Prelude.{◌≡◌, ◌⊎◌, ◌+◌, ◌-◌, ◌^◌, ◌≤◌, ℕ, Bool, List, min, length, true, false, Ok, IsTrue, IsErr, IfOk, OnOk, OnErr};
ghost use Rattle.ports.specs.Count.{CountsFault};
ghost use Rattle.page_disk.specs.Disk.{IsRead, TellsImage};
ghost use Rattle.page_disk.specs.Image.{Image, ImagesDifferAt, area_of, with_area, written_at};
ghost use Rattle.page_disk.specs.Moment.{Moment, counted_in, settled_moment, then_moment};

use ports::Page;

/// The two areas of a disk.
#[derive(Clone, Copy, Debug, PartialEq, Eq)]
pub enum Area {
    /// The pages themselves, each under its number.
    Pages,
    /// New images of pages on their way home, so that a change that was cut off can be finished.
    Journal,
}

/// The device failed. Comes only where its count of faults rose, or stands at its last value.
#[derive(Clone, Copy, Debug, PartialEq, Eq)]
pub struct Failed;

/// Two areas of pages that can be read, written and synced.
///
/// A disk may tell its image, and also what a crash at each moment may leave. What is claimed of
/// images holds where they are told. A moment inside a write counts, with that page counted as
/// written; so does a moment inside any other call, at which the disk is as before it or as after it.
/// A stop of the program is a disk whose every later call fails.
pub trait Disk {
    /// Whether the image is told.
    ghost tells: { Self → Bool };

    /// The image as reads give it.
    ghost image: { Self → Image };

    /// The moments so far, the newest first, each with what a crash at it may leave. None where the
    /// crashes are not told.
    ghost moments: { Self → List Moment };

    /// How often a page was read.
    ghost reads: { Self → ℕ };

    /// How often the device failed.
    ghost faults: { Self → ℕ };

    /// The number of pages of an area.
    fn len(&mut self, area: Area) -> Result<u64, Failed>
        ensures ok { IfOk result (λ n. IsTrue (tells self.old) → n ≡ length (area_of area (image self.old))) }
        ensures faults { CountsFault result (faults self.old) (faults self.new) }
        ensures reads { reads self.new ≡ reads self.old }
        ensures tells { tells self.new ≡ tells self.old }
        ensures image { image self.new ≡ image self.old }
        ensures moments { moments self.new ≡ moments self.old };

    /// Reads a page into `buf`. Answers false exactly where the page is at or past the end, and then
    /// `buf` is as before.
    ///
    /// The count of reads rises by one at each read, also at one that fails. Where it stands at its
    /// last value, the read fails.
    fn read(&mut self, area: Area, page: u64, buf: &mut Page) -> Result<bool, Failed>
        ensures ok { IfOk result (λ found. IsTrue (tells self.old) → IsRead (area_of area (image self.old)) page found buf.new) }
        ensures absent { result ≡ Ok false → buf.new ≡ buf.old }
        ensures faults { CountsFault result (faults self.old) (faults self.new) }
        ensures reads { reads self.new ≡ min (reads self.old + 1) (2 ^ 64 - 1) }
        ensures reads_stay_or_rise { reads self.old ≤ reads self.new }
        ensures worn_out { reads self.old ≡ 2 ^ 64 - 1 → IsErr result }
        ensures tells { tells self.new ≡ tells self.old }
        ensures image { image self.new ≡ image self.old }
        ensures moments { moments self.new ≡ moments self.old };

    /// Writes a page, which is at most the length. At the length it appends.
    ///
    /// A disk that does not tell its length fails where the page is past it. After a failure the disk
    /// is as before, or the page counts as written.
    fn write(&mut self, area: Area, page: u64, buf: &Page) -> Result<(), Failed>
        requires { IsTrue (tells self.old) → page ≤ length (area_of area (image self.old)) }
        ensures ok { OnOk result (IsTrue (tells self.old)
            → image self.new ≡ with_area area (written_at (area_of area (image self.old)) page buf.now) (image self.old)) }
        ensures ok_moments { OnOk result (moments self.new ≡ then_moment (counted_in area page) (moments self.old)) }
        ensures err { OnErr result (
            ((moments self.new ≡ moments self.old) × (IsTrue (tells self.old) → image self.new ≡ image self.old))
            ⊎ ((moments self.new ≡ then_moment (counted_in area page) (moments self.old))
            × (IsTrue (tells self.old) → ImagesDifferAt area page (image self.old) (image self.new)))) }
        ensures faults { CountsFault result (faults self.old) (faults self.new) }
        ensures reads { reads self.new ≡ reads self.old }
        ensures tells { tells self.new ≡ tells self.old };

    /// Makes sure of both areas: after it a crash leaves exactly what reads give.
    fn sync(&mut self) -> Result<(), Failed>
        ensures ok { OnOk result (moments self.new ≡ then_moment (λ _. settled_moment (image self.old)) (moments self.old)) }
        ensures err { OnErr result (moments self.new ≡ moments self.old) }
        ensures faults { CountsFault result (faults self.old) (faults self.new) }
        ensures reads { reads self.new ≡ reads self.old }
        ensures tells { tells self.new ≡ tells self.old }
        ensures image { image self.new ≡ image self.old };

    /// Where the crashes are told the image is, and a crash now may leave it.
    ghost tells_image: { (disk : Self) → TellsImage (tells disk) (image disk) (moments disk) };
}
