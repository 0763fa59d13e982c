ghost use Rattle.std.specs.Prelude.{◌≡◌, ◌<◌, ◌≤◌, IsTrue, Bool, List, ℕ, Option, IfSome, OnOk, length};
ghost use Rattle.std.specs.Option.{ForSome};
ghost use Rattle.spec_file.specs.Image.{page};
ghost use Rattle.pg_base.specs.Stops.{StopsFor, NamesOnly, stop_of};

use crate::{NoMemory, Page, PageNo};

/// Why a page of an image was not read.
#[derive(Clone, Copy, Debug, PartialEq, Eq)]
pub enum ReadStop {
    /// The device below failed in reading this page.
    Fault(PageNo),
    /// The check that the reader reads for has ended.
    Ended,
    NoMemory,
}

impl From<NoMemory> for ReadStop {
    ghost use Rattle.pg_base.specs.declared.reader.ReadStop.TheVariants.{NoMemory};

    ghost from_gives = { λ _ stop. stop ≡ NoMemory };

    fn from(_: NoMemory) -> Self {
        ReadStop::NoMemory
    }
}

/// Something that reads the pages of one image, as DBCC CHECKDB reads those of its snapshot.
pub trait SnapReader {
    /// How many pages the image has.
    ghost pages: { Self → ℕ };

    /// The pages themselves, where the reader tells them.
    ghost image: { Self → Option (List (List ℕ)) };

    /// The check that this reader reads for has ended. It never begins again.
    ghost ended: { Self → Bool };

    /// How often the device below has failed. The count never falls.
    ghost faults: { Self → ℕ };

    /// The page of the last read that failed.
    ghost failed: { Self → Option ℕ };

    /// Numbers that name what the reader is made over.
    ghost bound: { Self → List ℕ };

    /// Fills `into` with page `p` of the image. Only a fault counts, and names this page.
    fn page(&mut self, p: PageNo, into: &mut Page) -> Result<(), ReadStop>
        requires { p.0 < pages self.old }
        ensures page { OnOk result (IfSome (image self.old) (λ image. into.new.bytes ≡ page image p.0)) }
        ensures stop { StopsFor (faults self.old) (faults self.new) (failed self.old) (failed self.new) (ended self.new) (stop_of result) }
        ensures named { NamesOnly p.0 (stop_of result) }
        ensures ended { IsTrue (ended self.old) → IsTrue (ended self.new) }
        ensures faults { faults self.old ≤ faults self.new }
        ensures pages { pages self.new ≡ pages self.old }
        ensures image { image self.new ≡ image self.old }
        ensures bound { bound self.new ≡ bound self.old };

    /// A told image has as many pages as the reader says.
    ghost whole: { (r : Self) → ForSome (image r) (λ image. length image ≡ pages r) };
}
