// The greatest memory.

use crate::holds;
use main_memory::{LINE_BYTES, Memory, MemoryError};

// The greatest memory that `new` allows, 64 MiB, has room for its last line.
#[test]
fn has_room_for_all_lines(rt: HostRuntime) -> Result<(), MemoryError> {
    let mut memory = Memory::new(rt.alloc(), 524_288)?;
    let lines = memory.lines();
    holds(&rt, lines == 524_288);
    let mut line = [0; LINE_BYTES as usize];
    if let Some(last) = lines.checked_sub(1) {
        memory.copy_in(last * LINE_BYTES, &[7; LINE_BYTES as usize]);
        memory.copy_out(last * LINE_BYTES, &mut line);
    }
    holds(&rt, line == [7; LINE_BYTES as usize]);
    Ok(())
}
