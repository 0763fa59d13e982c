ghost use Rattle.std.specs.Prelude.{◌≡◌, ◌≤◌};
ghost use Rattle.spec_file.specs.Pfs as spec;

use spec_file::{PfsKind, ROOM};

// The flags of a PFS byte, and the fullness of a page that is all in use.
const ALLOCATED: u8 = 0x40;

const MIXED: u8 = 0x20;

const IAM: u8 = 0x10;

const FULL: u8 = 4;

/// Whether a PFS byte tells that its page is allocated.
pub fn is_allocated(byte: u8) -> bool
    ensures { result ≡ spec.is_allocated_byte byte }
{
    (byte >> 6) & 1 == 1
}

/// Bits 0 to 2 of a PFS byte: how full a page with so many free bytes is. 0 is empty, 1 up to half
/// full, 2 up to 80 percent, 3 up to 95 percent, 4 above.
pub fn fullness_of(free: u16) -> u8
    requires { free ≤ ROOM }
    ensures { result ≡ spec.fullness_of free }
{
    let used = 100 * (ROOM - free) as u32;
    let room = ROOM as u32;
    if used == 0 {
        0
    } else if used <= 50 * room {
        1
    } else if used <= 80 * room {
        2
    } else if used <= 95 * room {
        3
    } else {
        4
    }
}

/// The PFS byte that a page of this use should have. `fullness` is that of a heap's page, and 0 for a
/// page of a clustered table.
pub fn expected(kind: PfsKind, fullness: u8) -> u8
    requires { fullness ≤ 4 }
    ensures { result ≡ spec.expected kind fullness }
{
    match kind {
        PfsKind::System => ALLOCATED + FULL,
        PfsKind::Reserved | PfsKind::Unused => 0,
        PfsKind::Boot => ALLOCATED + MIXED + FULL,
        PfsKind::Iam => ALLOCATED + MIXED + IAM,
        PfsKind::Single => ALLOCATED + MIXED + fullness,
        PfsKind::Uniform => ALLOCATED + fullness,
    }
}
