// Numbers in bytes, the lowest byte first.
ghost use Rattle.std.specs.Prelude.{◌≡◌, ◌+◌, ◌≤◌, length};
ghost use Rattle.spec_file.specs.Image.{number_at};
ghost use Rattle.pg_base.specs.Numbers.{PutsNumber};

use crate::Page;
use byteorder::{ByteOrder, LittleEndian};

/// The number of the four bytes from `at`, the lowest first.
#[tactic(auto, unfolding(spec_file::specs::Image::number_at))]
pub fn u32_at(bytes: &[u8], at: usize) -> u32
    requires { at + 4 ≤ length bytes.now }
    ensures { result ≡ number_at 4 at bytes.now }
{
    LittleEndian::read_u32(&bytes[at..])
}

/// The number of the eight bytes from `at`, the lowest first.
#[tactic(auto, unfolding(spec_file::specs::Image::number_at))]
pub fn u64_at(bytes: &[u8], at: usize) -> u64
    requires { at + 8 ≤ length bytes.now }
    ensures { result ≡ number_at 8 at bytes.now }
{
    LittleEndian::read_u64(&bytes[at..])
}

/// The number of the two bytes from `at`, the lowest first.
#[tactic(auto, unfolding(spec_file::specs::Image::number_at))]
pub fn u16_at(bytes: &[u8], at: usize) -> u16
    requires { at + 2 ≤ length bytes.now }
    ensures { result ≡ number_at 2 at bytes.now }
{
    LittleEndian::read_u16(&bytes[at..])
}

/// Puts a number into the four bytes from `at`, the lowest first.
pub fn put_u32(page: &mut Page, at: usize, value: u32)
    requires { at + 4 ≤ 8192 }
    ensures { PutsNumber 4 at value page.old.bytes page.new.bytes }
{
    LittleEndian::write_u32(&mut page.bytes[at..at + 4], value);
}

/// Puts a number into the two bytes from `at`, the lowest first.
pub fn put_u16(page: &mut Page, at: usize, value: u16)
    requires { at + 2 ≤ 8192 }
    ensures { PutsNumber 2 at value page.old.bytes page.new.bytes }
{
    LittleEndian::write_u16(&mut page.bytes[at..at + 2], value);
}
