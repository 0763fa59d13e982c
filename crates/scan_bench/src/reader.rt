// A data file of known size, read as one image.
ghost use Rattle.std.specs.Prelude.{◌≡◌, ◌+◌, false, [], None, All, OnOk, option_map, vec_len};

use pg_base::{NoMemory, Page, PageNo, ReadStop, SnapReader};
use vol_dev::Volume;

/// A reader with a data file of its own, which tells nothing.
#[derive(Drop)]
pub struct FileReader<V: Volume> {
    pub volume: V,
    pub pages: u32,
    pub failed: Option<PageNo>,
    ghost untold: { V.contents volume ≡ None },
}

impl<V: Volume> FileReader<V> {
    pub fn of(volume: V, pages: u32) -> FileReader<V>
        requires { V.contents volume ≡ None }
        ensures { result.pages ≡ pages }
    {
        FileReader {
            volume,
            pages,
            failed: None,
        }
    }
}

impl<V: Volume> SnapReader for FileReader<V> {
    ghost use Rattle.std.proofs.lemmas.Option.{none-some};

    ghost pages = { λ r. r.pages };

    ghost image = { λ _. None };

    ghost ended = { λ _. false };

    ghost faults = { λ r. V.faults r.volume };

    ghost failed = { λ r. option_map (λ p. p.0) r.failed };

    ghost bound = { λ _. [] };

    ghost whole = { λ _ x at. absurd (none-some x at) };

    fn page(&mut self, p: PageNo, into: &mut Page) -> Result<(), ReadStop> {
        match self.volume.read(p, into) {
            Ok(()) => Ok(()),
            Err(_) => {
                self.failed = Some(p);
                Err(ReadStop::Fault(p))
            }
        }
    }
}

/// Adds one reader.
pub fn push_reader<V: Volume + Drop>(
    all: &mut Vec<FileReader<V>>,
    volume: V,
    pages: u32,
) -> Result<(), NoMemory>
    requires untold { V.contents volume ≡ None }
    requires same { All (λ r. r.pages ≡ pages) all.old.items }
    ensures same { OnOk result (All (λ r. r.pages ≡ pages) all.new.items) }
    ensures count { OnOk result (vec_len all.new ≡ vec_len all.old + 1) }
{
    all.push(FileReader::of(volume, pages))?;
    Ok(())
}
