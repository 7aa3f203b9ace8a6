// The queue beside a plain one, which keeps every command ever issued.
ghost use Rattle.std.specs.Prelude.{◌<◌};
ghost use Rattle.mfc_queue.specs.Stands.{IsKnown};

use crate::holds;
use mfc_command::{Command, Kind, Mark};
use mfc_queue::{Queue, QueueFull};
use std::alloc::AllocError;
use std::process::Abort;

/// A command that was issued: its place, how many parts it has, those done as bits, and whether it was retired.
#[derive(Clone, Copy)]
struct Row {
    command: Command,
    place: Option<u32>,
    parts: u32,
    done: u32,
}

/// All commands ever issued, in the order of their numbers.
#[derive(Drop)]
struct Plain {
    rows: Vec<Row>,
}

impl Plain {
    fn free(&self) -> usize {
        let outstanding = self.rows.iter().filter(|row| row.place.is_some()).count();
        16usize.saturating_sub(outstanding)
    }

    fn busy(&self) -> u32 {
        let mut bits = 0;
        for row in self.rows.iter() {
            if row.place.is_some() {
                bits |= 1u32 << (row.command.tag % 32);
            }
        }
        bits
    }

    fn outstanding_from(&self, cmd: u32) -> Option<u32> {
        let mut number = 0u32;
        for row in self.rows.iter() {
            if row.place.is_some() && number >= cmd {
                return Some(number);
            }
            number = number.saturating_add(1);
        }
        None
    }

    fn may_start(&self, cmd: u32, command: &Command) -> bool {
        let mut number = 0u32;
        for row in self.rows.iter() {
            if row.place.is_some() && number < cmd && goes_first(&row.command, command) {
                return false;
            }
            number = number.saturating_add(1);
        }
        true
    }
}

/// Whether the earlier command goes before the later one.
fn goes_first(c: &Command, d: &Command) -> bool {
    if matches!(c.kind, Kind::Barrier) || matches!(d.kind, Kind::Barrier) {
        return true;
    }
    c.tag == d.tag && (matches!(c.mark, Mark::Barred) || !matches!(d.mark, Mark::Plain))
}

/// A command of one of four tags.
fn command_of(seed: u32) -> Command
    ensures { result.tag < 32 }
{
    let kind = match seed / 256 % 8 {
        0 => Kind::Barrier,
        1 | 2 | 3 => Kind::Put,
        _ => Kind::Get,
    };
    let mark = match seed / 2048 % 6 {
        0 => Mark::Barred,
        1 => Mark::Fenced,
        _ => Mark::Plain,
    };
    Command {
        kind,
        mark,
        tag: (seed / 16_384 % 4) as u8,
        ls: 0,
        ea: 0,
        size: 16,
    }
}

/// Issues a command on both.
fn issue(rt: &impl Abort, queue: &mut Queue, plain: &mut Plain, seed: u32) -> Result<(), AllocError>
    requires { IsKnown queue.old }
    ensures { IsKnown queue.new }
{
    if queue.issued() >= 1_000_000 {
        return Ok(());
    }
    let command = command_of(seed);
    let free = plain.free();
    match queue.issue(command) {
        Ok(cmd) => {
            holds(rt, free > 0);
            holds(rt, cmd as usize == plain.rows.len());
            let place = queue.place(cmd);
            plain.rows.push(Row {
                command,
                place,
                parts: 0,
                done: 0,
            })?;
        }
        Err(QueueFull) => holds(rt, free == 0),
    }
    Ok(())
}

/// Begins or marks parts of an outstanding command, or retires it, on both.
fn go_on(rt: &impl Abort, queue: &mut Queue, plain: &mut Plain, cmd: u32, seed: u32)
    requires { IsKnown queue.old }
    ensures { IsKnown queue.new }
{
    if queue.place(cmd).is_none() {
        return;
    }
    let Some(row) = plain.rows.get_mut(cmd as usize) else {
        return;
    };
    let part = seed / 4096 % 21;
    match seed / 65_536 % 4 {
        0 => {
            queue.retire(cmd);
            row.place = None;
        }
        1 => {
            queue.set_parts(cmd, part);
            row.parts = part;
            row.done = 0;
        }
        _ => {
            if part < queue.parts(cmd) {
                let all = queue.mark(cmd, part);
                row.done |= 1u32 << part;
                holds(rt, all == (row.done.count_ones() == row.parts));
            }
        }
    }
}

/// One call, or none where the command isn't outstanding.
fn call(
    rt: &impl Abort,
    queue: &mut Queue,
    plain: &mut Plain,
    cmd: u32,
    seed: u32,
) -> Result<(), AllocError>
    requires { IsKnown queue.old }
    ensures { IsKnown queue.new }
{
    if seed / 1024 % 4 == 0 {
        return issue(rt, queue, plain, seed);
    }
    go_on(rt, queue, plain, cmd, seed);
    Ok(())
}

/// Whether the answer is the part before which `n` parts are left, or says how far `n` is behind the last part left.
fn is_left_at(row: &Row, n: u32, answer: Result<u32, u64>) -> bool {
    match answer {
        Ok(part) => {
            let before = (1u32 << (part % 32)).wrapping_sub(1);
            part < row.parts
                && row.done >> (part % 32) & 1 == 0
                && (!row.done & before).count_ones() == n
        }
        Err(behind) => {
            let left = row.parts.saturating_sub(row.done.count_ones());
            n >= left && behind == u64::from(n.saturating_sub(left))
        }
    }
}

/// What both answer of one command.
fn compare(rt: &impl Abort, queue: &Queue, plain: &Plain, cmd: u32)
    requires { IsKnown queue.now }
{
    let Some(row) = plain.rows.get(cmd as usize) else {
        return;
    };
    let place = queue.place(cmd);
    holds(rt, place == row.place);
    holds(
        rt,
        queue.outstanding_from(cmd) == plain.outstanding_from(cmd),
    );
    if place.is_none() {
        return;
    }
    holds(rt, queue.command(cmd) == row.command);
    holds(
        rt,
        queue.may_start(cmd) == plain.may_start(cmd, &row.command),
    );
    holds(rt, queue.parts(cmd) == row.parts);
    for n in 0..4u32 {
        holds(
            rt,
            is_left_at(row, 5 * n, queue.left_at(cmd, u64::from(5 * n))),
        );
    }
    if 19 < queue.parts(cmd) {
        holds(rt, queue.done(cmd, 19) == (row.done / 524_288 % 2 == 1));
    }
}

/// Some thousand calls on both, drawn by a fixed rule.
#[test]
fn answers_as_a_plain_queue(rt: HostRuntime) -> Result<(), AllocError> {
    let mut queue = Queue::new();
    let mut plain = Plain {
        rows: Vec::new(rt.alloc()),
    };
    let mut seed = 7u32;
    for _ in 0..6000 {
        seed = seed.wrapping_mul(1_664_525).wrapping_add(1_013_904_223);
        let issued = queue.issued();
        let drawn = issued.saturating_sub(seed / 16 % 24);
        let cmd = queue.outstanding_from(drawn).unwrap_or(drawn);
        call(&rt, &mut queue, &mut plain, cmd, seed)?;
        compare(&rt, &queue, &plain, cmd);
        holds(&rt, queue.issued() as usize == plain.rows.len());
        holds(&rt, queue.free() as usize == plain.free());
        let busy = plain.busy();
        holds(&rt, queue.busy() == busy);
        holds(&rt, queue.outstanding(3) == (busy / 8 % 2 == 1));
    }
    holds(&rt, plain.rows.len() >= 1000);
    Ok(())
}
