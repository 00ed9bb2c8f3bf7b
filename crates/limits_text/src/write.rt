ghost use Rattle.std.specs.Prelude.{OnOk, OnErr};
ghost use Rattle.std.specs.Io.KnownBytes.{Appends};
ghost use Rattle.limits_text.specs.Lists.{AppendsFront};

use std::io;
use std::io::{ErrorKind, Write};

// Writes all of the bytes as `write_all` does, and says what an error leaves: a beginning of them was written, and nothing else.
pub(crate) fn write_whole<W: Write>(out: &mut W, bytes: &[u8]) -> io::Result<()>
    ensures whole { OnOk result (Appends (W.Write.contents out.old)
        (W.Write.contents out.new) bytes.now) }
    ensures front { OnErr result (AppendsFront (W.Write.contents out.old)
        (W.Write.contents out.new) bytes.now) }
{
    let mut at = 0;
    for _ in 0..u64::MAX {
        if at == bytes.len() {
            return Ok(());
        }
        match out.write(&bytes[at..]) {
            Ok(0) => {
                let message = "failed to write whole buffer";
                return Err(io::Error::new(ErrorKind::WriteZero, message));
            }
            Ok(count) => at += count,
            Err(error) => {
                if error.kind() != ErrorKind::Interrupted {
                    return Err(error);
                }
            }
        }
    }
    let message = "gave up writing after 2^64 tries";
    Err(io::Error::new(ErrorKind::TimedOut, message))
}
