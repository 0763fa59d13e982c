// The header and the slots of one page of a still file.
ghost use Rattle.std.specs.Prelude.{false, IfSome};
ghost use Rattle.pg_base.specs.Faults.{Counts};
ghost use Rattle.spec_script.specs.PageText.{page_text};
ghost use Rattle.vol_dev.specs.Files.{ReadsFile};
ghost use Rattle.checkdb_top.specs.Form.{Passes};
ghost use Rattle.checkdb_top.specs.Answers.{Answers, IsDevice, Prints, ended};
ghost use Rattle.checkdb_top.specs.Printings.{page_printing};
ghost use Rattle.checkdb_top.specs.declared.status.Device.TheVariants.{Volume, Sink};

use crate::file::{Finished, PassedFile, open_file, status_of};
use crate::reader::VolumeReader;
use crate::{Device, Status};
use ck_text::write_page;
use pg_base::{Page, PageNo, read_page};
use std::alloc::Global;

fn print<K: vol_dev::Sink>(page: &Page, p: PageNo, out: &mut K) -> Status
    ensures prints { Prints (page_text p.0 page.now.bytes) (ended false) (K.contents out.old) (K.contents out.new) result }
    ensures volume_fault { ¬ IsDevice Volume result }
    ensures faults { Counts (IsDevice Sink result) (K.faults out.old) (K.faults out.new) }
{
    match write_page(page, p, out) {
        Err(_) => Status::Device {
            which: Device::Sink,
        },
        Ok(()) => Status::Clean,
    }
}

// Shows page p of a file that has passed its tests. The third word is wrong where the file ends before it.
fn show_page<V: vol_dev::Volume, K: vol_dev::Sink>(
    alloc: Global,
    reader: &mut VolumeReader<V>,
    p: PageNo,
    out: &mut K,
) -> Status
    requires passes { IfSome (V.contents reader.old.volume) Passes }
    ensures answers { Answers (page_printing p.0) (V.contents reader.old.volume) (K.contents out.old) (K.contents out.new) result }
    ensures reads { ReadsFile V.Volume reader.old.volume reader.new.volume (IsDevice Volume result) }
    ensures faults { Counts (IsDevice Sink result) (K.faults out.old) (K.faults out.new) }
{
    if p.0 >= reader.pages {
        return Status::Words { at: 3 };
    }
    match read_page(alloc, reader, p) {
        Err(stop) => status_of(stop),
        Ok(page) => print(&page, p, out),
    }
}

/// Writes the header and the slots of page `p` of a still file, once the file has passed its tests.
pub fn show<V: vol_dev::Volume, K: vol_dev::Sink>(
    alloc: Global,
    volume: V,
    p: PageNo,
    out: &mut K,
) -> Finished<V>
    ensures answers { Answers (page_printing p.0) (V.contents volume) (K.contents out.old) (K.contents out.new) result.status }
    ensures reads { ReadsFile V.Volume volume result.volume (IsDevice Volume result.status) }
    ensures faults { Counts (IsDevice Sink result.status) (K.faults out.old) (K.faults out.new) }
{
    let PassedFile {
        mut reader,
        geometry: _geometry,
    } = match open_file(alloc, volume) {
        Ok(passed) => passed,
        Err(finished) => return finished,
    };
    let status = show_page(alloc, &mut reader, p, out);
    Finished {
        status,
        volume: reader.into_volume(),
    }
}
