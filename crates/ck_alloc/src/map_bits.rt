// The values that one map page holds, in their order.
ghost use Rattle.std.specs.Prelude.{◌≡◌, ◌≤◌, ◌<◌, ◌++◌, OnOk, map};
ghost use Rattle.spec_file.specs.declared.sizes.TheConstants.{BIT_COUNT};
ghost use Rattle.std.specs.List.{range_with_len};
ghost use Rattle.spec_file.specs.Image.{bit as bit_of};
ghost use Rattle.ck_alloc.specs.SystemPlaces.{byte_of};

use pg_base::{MAPS_START, NoMemory, Page};
use pg_maps::bit;

/// Adds the first n bits of a GAM or SGAM page.
pub fn push_bits(bits: &mut Vec<bool>, page: &Page, n: u32) -> Result<(), NoMemory>
    requires { n ≤ BIT_COUNT }
    ensures { OnOk result (bits.new.items ≡ bits.old.items ++ map (bit_of page.now.bytes) (range_with_len 0 n)) }
{
    for i in 0..n {
        bits.push(bit(page, i))?;
    }
    Ok(())
}

fn byte(page: &Page, i: u32) -> u8
    requires { i < 8088 }
    ensures { result ≡ byte_of page.now.bytes i }
{
    page.bytes[MAPS_START + i as usize]
}

/// Adds the first n bytes of a PFS page.
pub fn push_bytes(bytes: &mut Vec<u8>, page: &Page, n: u32) -> Result<(), NoMemory>
    requires { n ≤ 8088 }
    ensures { OnOk result (bytes.new.items ≡ bytes.old.items ++ map (byte_of page.now.bytes) (range_with_len 0 n)) }
{
    for i in 0..n {
        bytes.push(byte(page, i))?;
    }
    Ok(())
}
