// The payloads of rows.
ghost use Rattle.std.specs.Prelude.{◌≡◌, ◌≤◌, flat_map, is_err};
ghost use Rattle.std.specs.List.{list_all};
ghost use Rattle.vol_dev.specs.Output.{Wrote};
ghost use Rattle.spec_script.specs.Replies as spec;

use crate::line::write_bytes;
use arrayvec::ArrayVec;
use spec_log::Values;
use vol_dev::{DeviceFailed, Sink};

fn is_plain(b: u8) -> bool
    ensures { result ≡ spec.is_plain b }
{
    matches!(b, b' '..=b'~') && !(b == b'\'' || b == b'\\')
}

fn are_plain(bytes: &[u8]) -> bool
    ensures { result ≡ list_all spec.is_plain bytes.now }
{
    bytes.iter().all(|b| is_plain(*b))
}

fn hex_digit(n: u8) -> u8
    requires { n ≤ 15 }
    ensures { result ≡ spec.hex_digit n }
{
    if n < 10 { b'0' + n } else { b'a' - 10 + n }
}

fn shown(b: u8) -> ArrayVec<u8, 3>
    ensures { result.items ≡ spec.shown_byte b }
{
    let mut bytes = ArrayVec::new();
    if is_plain(b) {
        bytes.push(b);
    } else {
        bytes.push(b'\\');
        bytes.push(hex_digit(b / 16));
        bytes.push(hex_digit(b % 16));
    }
    bytes
}

// The bytes of a payload one by one.
fn write_shown<K: Sink>(payload: &[u8], out: &mut K) -> Result<(), DeviceFailed>
    ensures { Wrote K.Sink out.old out.new (flat_map spec.shown_byte payload.now) (is_err result) }
{
    for b in payload {
        write_bytes(shown(*b).as_slice(), out)?;
    }
    Ok(())
}

// A payload; plain ones, as all of a script are, in one write.
fn write_payload<K: Sink>(payload: &[u8], out: &mut K) -> Result<(), DeviceFailed>
    ensures { Wrote K.Sink out.old out.new (flat_map spec.shown_byte payload.now) (is_err result) }
{
    if are_plain(payload) {
        write_bytes(payload, out)
    } else {
        write_shown(payload, out)
    }
}

fn write_payload_line<K: Sink>(payload: &Values<u8>, out: &mut K) -> Result<(), DeviceFailed>
    ensures { Wrote K.Sink out.old out.new (spec.payload_line payload.now) (is_err result) }
{
    write_bytes(b"  '", out)?;
    write_payload(payload.as_slice(), out)?;
    write_bytes(b"'\n", out)
}

/// A line for each payload.
pub(crate) fn write_payloads<K: Sink>(
    payloads: &[Values<u8>],
    out: &mut K,
) -> Result<(), DeviceFailed>
    ensures { Wrote K.Sink out.old out.new (flat_map spec.payload_line payloads.now) (is_err result) }
{
    for payload in payloads {
        write_payload_line(payload, out)?;
    }
    Ok(())
}
