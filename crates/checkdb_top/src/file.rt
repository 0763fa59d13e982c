// A data file that has passed its tests, as one image.
ghost use Rattle.std.specs.Prelude.{◌≡◌, ◌≢◌, ◌%◌, ◌≤◌, IsTrue, IfOk, IfErr, IsErrAnd, MatchResult, OnOk, IfSome, length};
ghost use Rattle.pg_base.specs.declared.reader.ReadStop.TheVariants.{Ended};
ghost use Rattle.spec_file.specs.FileForm.{size_passes};
ghost use Rattle.spec_file.specs.Places.{HasShape};
ghost use Rattle.vol_dev.specs.Files.{ReadsFile};
ghost use Rattle.checkdb_top.specs.Form.{Passes, NamesGeometry};
ghost use Rattle.checkdb_top.specs.Answers.{IsDevice, Stops, stopped};
ghost use Rattle.checkdb_top.specs.declared.status.Device.TheVariants.{Volume, Sink};

use crate::reader::VolumeReader;
use crate::{Device, Status};
use pg_base::{Geometry, PAGE_SIZE, PageNo, ReadStop, read_page};
use run_file::{passes_size, tested_geometry};
use spec_start::FileWhy;
use std::alloc::Global;

/// A file that has passed its tests.
pub struct PassedFile<V: vol_dev::Volume> {
    pub reader: VolumeReader<V>,
    pub geometry: Geometry,
}

/// How a command over a still file ended, and the file.
pub struct Finished<V> {
    pub status: Status,
    pub volume: V,
}

// A file whose size passes; or how a command ends without it.
fn whole_file<V: vol_dev::Volume>(volume: V) -> Result<VolumeReader<V>, Finished<V>>
    ensures size { IfOk result (λ reader. IfSome (V.contents volume) (λ file. IsTrue (size_passes (length file)))) }
    ensures low { IfOk result (λ reader. 16 ≤ reader.pages) }
    ensures whole { IfOk result (λ reader. reader.pages % 8 ≡ 0) }
    ensures stops { IfErr result (λ finished. Stops (V.contents volume) finished.status) }
    ensures sink { IfErr result (λ finished. ¬ IsDevice Sink finished.status) }
    ensures reads { MatchResult result (λ reader. ReadsFile V.Volume volume reader.volume ⊥)
        (λ finished. ReadsFile V.Volume volume finished.volume (IsDevice Volume finished.status)) }
{
    let mut volume = volume;
    let Ok(size) = volume.size() else {
        let status = Status::Device {
            which: Device::Volume,
        };
        return Err(Finished { status, volume });
    };
    if !passes_size(size) {
        let status = Status::File(FileWhy::Size);
        return Err(Finished { status, volume });
    }
    let pages = (size / PAGE_SIZE as u64) as u32;
    Ok(VolumeReader::of(volume, pages))
}

// The geometry of a file whose size has passed, once all its tests have; or how a command ends without it.
fn tested<V: vol_dev::Volume>(
    alloc: Global,
    reader: &mut VolumeReader<V>,
) -> Result<Geometry, Status>
    requires size { IfSome (V.contents reader.old.volume) (λ file. IsTrue (size_passes (length file))) }
    requires low { 16 ≤ reader.old.pages }
    requires whole { reader.old.pages % 8 ≡ 0 }
    ensures passes { OnOk result (IfSome (V.contents reader.old.volume) Passes) }
    ensures geometry { IfOk result (λ g. IfSome (V.contents reader.old.volume) (NamesGeometry g)) }
    ensures shape { IfOk result (λ g. HasShape g reader.new.pages) }
    ensures stops { IfErr result (Stops (V.contents reader.old.volume)) }
    ensures sink { IfErr result (λ s. ¬ IsDevice Sink s) }
    ensures reads { ReadsFile V.Volume reader.old.volume reader.new.volume (IsErrAnd result (IsDevice Volume)) }
{
    let pages = reader.pages;
    let first = match read_page(alloc, reader, PageNo(0)) {
        Ok(first) => first,
        Err(stop) => return Err(status_of(stop)),
    };
    match tested_geometry(&first, pages) {
        Ok(g) => Ok(g),
        Err(why) => Err(Status::File(why)),
    }
}

/// A file that passes its tests, to be read as one image; or how a command ends without it.
pub fn open_file<V: vol_dev::Volume>(alloc: Global, volume: V) -> Result<PassedFile<V>, Finished<V>>
    ensures passes { OnOk result (IfSome (V.contents volume) Passes) }
    ensures geometry { IfOk result (λ passed. IfSome (V.contents volume) (NamesGeometry passed.geometry)) }
    ensures shape { IfOk result (λ passed. HasShape passed.geometry passed.reader.pages) }
    ensures stops { IfErr result (λ finished. Stops (V.contents volume) finished.status) }
    ensures sink { IfErr result (λ finished. ¬ IsDevice Sink finished.status) }
    ensures reads { MatchResult result (λ passed. ReadsFile V.Volume volume passed.reader.volume ⊥)
        (λ finished. ReadsFile V.Volume volume finished.volume (IsDevice Volume finished.status)) }
{
    let mut reader = match whole_file(volume) {
        Ok(reader) => reader,
        Err(finished) => return Err(finished),
    };
    match tested(alloc, &mut reader) {
        Ok(geometry) => Ok(PassedFile { reader, geometry }),
        Err(status) => Err(Finished {
            status,
            volume: reader.into_volume(),
        }),
    }
}

/// The status of a command that met a stop in reading. Only a reader for a session's check ever ends.
pub fn status_of(stop: ReadStop) -> Status
    requires { stop ≢ Ended }
    ensures { result ≡ stopped stop }
{
    match stop {
        ReadStop::Fault(_) => Status::Device {
            which: Device::Volume,
        },
        ReadStop::NoMemory => Status::Memory,
        ReadStop::Ended => unreachable!(),
    }
}
