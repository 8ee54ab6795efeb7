ghost use Rattle.std.specs.Prelude.{OnOk, OnErr};
ghost use Rattle.sched_base.specs.Outside.{Gains, GainsFront, HasCause};

use crate::faults::Failed;
use crate::outside::Sink;

/// Appends all the bytes: each write is given all that are left, until none is or a write fails. `Failed` comes only
/// where the sink counted it, and a prefix was appended.
pub fn write_whole<K: Sink>(out: &mut K, bytes: &[u8]) -> Result<(), Failed>
    ensures whole { OnOk result (Gains (K.held out.old) (K.held out.new) bytes.now) }
    ensures front { OnErr result (GainsFront (K.held out.old) (K.held out.new) bytes.now) }
    ensures cause { HasCause (K.faults out.old) (K.faults out.new) result }
{
    let mut written = 0;
    while written < bytes.len() {
        written += out.write(&bytes[written..])?;
    }
    Ok(())
}
