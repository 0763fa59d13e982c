// A data file of known size, read as one image.
ghost use Rattle.std.specs.Prelude.{◌≡◌, ◌*◌, false, length, [], None, option_map};
ghost use Rattle.std.specs.Option.{ForSome};
ghost use Rattle.spec_file.specs.Image.{pages_of};
ghost use Rattle.spec_file.specs.declared.sizes.TheConstants.{PAGE_SIZE};

use pg_base::{Page, PageNo, ReadStop, SnapReader};
use vol_dev::Volume;

/// The pages of a data file that nobody writes meanwhile.
pub struct VolumeReader<V: Volume> {
    pub volume: V,
    pub pages: u32,
    pub failed: Option<PageNo>,
    ghost whole: { ForSome (V.contents volume) (λ bytes. length bytes ≡ PAGE_SIZE * pages) },
}

impl<V: Volume> VolumeReader<V> {
    pub fn of(volume: V, pages: u32) -> VolumeReader<V>
        requires { ForSome (V.contents volume) (λ bytes. length bytes ≡ PAGE_SIZE * pages) }
        ensures volume { result.volume ≡ volume }
        ensures pages { result.pages ≡ pages }
    {
        VolumeReader {
            volume,
            pages,
            failed: None,
        }
    }

    pub fn into_volume(self) -> V
        ensures { result ≡ self.volume }
    {
        let VolumeReader {
            volume,
            pages: _pages,
            failed: _failed,
        } = self;
        volume
    }
}

impl<V: Volume> SnapReader for VolumeReader<V> {
    ghost use Rattle.checkdb_top.specs.WholeFiles.{whole_image};

    ghost pages = { λ r. r.pages };

    ghost image = { λ r. option_map pages_of (V.contents r.volume) };

    ghost ended = { λ _. false };

    ghost faults = { λ r. V.faults r.volume };

    ghost failed = { λ r. option_map (λ p. p.0) r.failed };

    ghost bound = { λ _. [] };

    ghost whole = { λ r. whole_image (V.contents r.volume) r.pages r.whole };

    fn page(&mut self, p: PageNo, into: &mut Page) -> Result<(), ReadStop> {
        match self.volume.read(p, into) {
            Ok(()) => Ok(()),
            Err(_) => {
                self.failed = Some(p);
                Err(ReadStop::Fault(p))
            }
        }
    }
}
