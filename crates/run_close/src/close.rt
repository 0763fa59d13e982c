// The close of a run: its log, and then its pages.
ghost use Rattle.std.specs.Prelude.{◌≡◌, All, IsTrue, flat_map, IfOk, IsErrOf};
ghost use Rattle.pg_base.specs.Faults.{Counts};
ghost use Rattle.spec_log.specs.Bytes.{item_bytes};
ghost use Rattle.spec_log.specs.Items.{has_form};
ghost use Rattle.run_close.specs.Close.{IsCloseOf, MayClose, ClosesBy};

use log_rec::encode;
use pg_base::NoMemory;
use spec_log::Record;
use std::alloc::Global;
use vol_dev::{LogFile, Volume};
use vol_pool::{Frames, changed_pages};

/// What the close of a run writes: the bytes of its items, and which pages they change. It is made
/// before anything is written, so that the close itself wants no memory.
#[derive(Drop)]
pub struct Close {
    pub(crate) bytes: Vec<u8>,
    pub(crate) changed: Vec<bool>,
}

/// The device that failed at the close of a run.
#[derive(Clone, Copy, Debug, PartialEq, Eq)]
pub enum CloseStop {
    Log,
    Volume,
}

/// The bytes of these items.
fn encoded(alloc: Global, items: &[Record]) -> Result<Vec<u8>, NoMemory>
    requires { All (λ item. IsTrue (has_form item)) items.now }
    ensures { IfOk result (λ bytes. bytes.items ≡ flat_map item_bytes items.now) }
{
    let mut bytes = Vec::new(alloc);
    for item in items {
        encode(item, &mut bytes)?;
    }
    Ok(bytes)
}

impl Close {
    /// The close of a run that has appended these items, the oldest first, over so many pages.
    pub fn of(alloc: Global, items: &[Record], pages: usize) -> Result<Close, NoMemory>
        requires { All (λ item. IsTrue (has_form item)) items.now }
        ensures { IfOk result (IsCloseOf items.now pages) }
    {
        let bytes = encoded(alloc, items)?;
        let changed = changed_pages(alloc, items, pages)?;
        Ok(Close { bytes, changed })
    }

    /// Appends the items to the log, and then writes the changed pages in rising order.
    pub fn write<V: Volume, L: LogFile>(
        &self,
        frames: &Frames,
        volume: &mut V,
        log: &mut L,
    ) -> Result<(), CloseStop>
        requires { MayClose self.now frames.now (V.contents volume.old) }
        ensures closes { ClosesBy self.now frames.now (V.contents volume.old) (V.contents volume.new) (L.contents log.old) (L.contents log.new) result }
        ensures volume_faults { Counts (IsErrOf result CloseStop.Volume) (V.faults volume.old) (V.faults volume.new) }
        ensures log_faults { Counts (IsErrOf result CloseStop.Log) (L.faults log.old) (L.faults log.new) }
    {
        if log.append(&self.bytes).is_err() {
            return Err(CloseStop::Log);
        }
        match frames.write_back(volume, &self.changed) {
            Ok(()) => Ok(()),
            Err(_) => Err(CloseStop::Volume),
        }
    }
}
