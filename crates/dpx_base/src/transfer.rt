ghost use Rattle.std.specs.Prelude.{OnOk, OnErr};
ghost use Rattle.std.specs.Io.KnownBytes.{Appends};
ghost use Rattle.dpx_base.specs.Faults.{HasCause};
ghost use Rattle.dpx_base.specs.Transfer.{AppendsFront};

use crate::{Failed, Sink};

/// Writes all of the bytes, or as many as are taken before a write fails.
pub fn write_whole<O: Sink>(out: &mut O, bytes: &[u8]) -> Result<(), Failed>
    ensures whole { OnOk result (Appends (O.seen out.old).taken (O.seen out.new).taken bytes.now) }
    ensures front { OnErr result (AppendsFront (O.seen out.old).taken (O.seen out.new).taken bytes.now) }
    ensures cause { HasCause (O.seen out.old).faults (O.seen out.new).faults result }
{
    let mut start = 0;
    while start < bytes.len() {
        start += out.write(&bytes[start..])?;
    }
    Ok(())
}
