// The replies of a session as output.
ghost use Rattle.std.specs.Prelude.{◌<◌, ◌^◌, length, is_err};
ghost use Rattle.spec_script.specs.Replies.{session_text};
ghost use Rattle.vol_dev.specs.Output.{Wrote};

use ck_text::write_reply;
use spec_script::Reply;
use vol_dev::{DeviceFailed, Sink};

/// Writes the replies of a session, which is counted from 1. After a failure a front of their bytes
/// stands there.
pub fn write_session<K: Sink>(
    session: u32,
    replies: &[Reply],
    out: &mut K,
) -> Result<(), DeviceFailed>
    requires { length replies.now < 2 ^ 32 }
    ensures { Wrote K.Sink out.old out.new (session_text session 1 replies.now) (is_err result) }
{
    for (i, reply) in replies.iter().enumerate() {
        write_reply(session, i as u32 + 1, reply, out)?;
    }
    Ok(())
}
