//! What a scan of a run wrote.
ghost use Rattle.std.specs.Prelude.{◌<◌, length};

use commands::DEPTH;
use gateway::{Core, WriteOrder};
use point_writer::{NoWrite, Write};

/// What went out for the i-th output in the last scan, or why nothing did. With: one that it goes with wasn't acknowledged, so
/// that it had no turn.
pub(crate) fn outgoing(core: &Core<DEPTH>, order: &WriteOrder, i: usize) -> Result<Write, NoWrite>
    requires { i < length core.now.site.outs }
{
    let write = core.write(i);
    if write.is_ok() && !order.outputs().contains(&i) {
        return Err(NoWrite::With);
    }
    write
}
