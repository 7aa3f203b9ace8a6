//! How far a command has come.

ghost use Rattle.std.specs.Prelude.{◌≡◌, ◌+◌, ◌*◌, ◌<◌, ◌^◌, ◌==◌, ◌&&◌};
ghost use Rattle.mfc_command.specs.Parts.{parts_of};
ghost use Rattle.race_order.specs.Status.{is_single, is_transfer, begun, has_one_piece, is_last, finished, after_piece, with_element, after_element, after_ack, stepped, elements_done};

use cell_base::Step;
use cell_machine::Note;
use mfc_command::{Command, Kind};

/// How far a queued command has come: the elements that were read of a list; the pieces that are left of the transfer
/// or of the element that was read last; whether that element is flagged; whether the list is stalled after it.
#[derive(Clone, Copy)]
pub struct Progress {
    pub command: Command,
    pub read: u32,
    pub left: u32,
    pub flagged: bool,
    pub stalled: bool,
    pub done: bool,
}

fn single(kind: Kind) -> bool
    ensures { result ≡ is_single kind }
{
    match kind {
        Kind::Put => true,
        Kind::Get => true,
        Kind::PutList => false,
        Kind::GetList => false,
        Kind::Barrier => false,
        Kind::PutQueued => true,
        Kind::Signal => true,
    }
}

fn transfers(command: &Command) -> bool
    ensures { result ≡ is_transfer command.now }
{
    single(command.kind) && command.size != 0
}

/// How many parts a command's bytes are copied in, whether or not it was checked.
fn parts(command: &Command) -> u32
    ensures { result ≡ parts_of command.now.ea command.now.size }
{
    if command.size == 0 {
        return 0;
    }
    let end = u64::from(command.ea) + u64::from(command.size) - 1;
    (end / 128 - u64::from(command.ea) / 128 + 1) as u32
}

/// A command that was just issued.
pub fn begin(command: Command) -> Progress
    ensures { result ≡ begun command }
{
    let left = if transfers(&command) {
        parts(&command)
    } else {
        0
    };
    Progress {
        command,
        read: 0,
        left,
        flagged: false,
        stalled: false,
        done: false,
    }
}

/// Whether one piece completes the command.
pub(crate) fn has_one_piece(command: Command) -> bool
    ensures { result ≡ has_one_piece command }
{
    begin(command).left == 1
}

fn last_read(progress: &Progress) -> bool
    ensures { result ≡ is_last progress.now }
{
    8 * u64::from(progress.read) == u64::from(progress.command.size)
}

fn finish(progress: Progress) -> Progress
    ensures { result ≡ finished progress }
{
    if transfers(&progress.command) {
        Progress {
            left: 0,
            stalled: false,
            done: true,
            ..progress
        }
    } else {
        Progress {
            left: 0,
            stalled: progress.flagged,
            done: !progress.flagged && last_read(&progress),
            ..progress
        }
    }
}

fn piece(progress: Progress) -> Progress
    ensures { result ≡ after_piece progress }
{
    if progress.left == 1 {
        finish(progress)
    } else {
        Progress {
            left: progress.left.saturating_sub(1),
            ..progress
        }
    }
}

fn one_more(progress: Progress, parts: u32, flag: bool) -> Progress
    requires { progress.read + 1 < 2 ^ 32 }
    ensures { result ≡ with_element progress parts flag }
{
    Progress {
        read: progress.read + 1,
        left: parts,
        flagged: flag,
        stalled: false,
        ..progress
    }
}

fn element(progress: Progress, note: Note) -> Progress
    requires { progress.read + 1 < 2 ^ 32 }
    ensures { result ≡ after_element progress note }
{
    match note {
        Note::Element { parts, flagged, .. } => {
            if parts == 0 {
                finish(one_more(progress, u32::from(parts), flagged))
            } else {
                one_more(progress, u32::from(parts), flagged)
            }
        }
        _ => one_more(progress, 1, false),
    }
}

fn acknowledged(progress: Progress, note: Note) -> Progress
    ensures { result ≡ after_ack progress note }
{
    match note {
        Note::Ack { tag } => {
            if progress.stalled && tag == u32::from(progress.command.tag) {
                Progress {
                    stalled: false,
                    done: last_read(&progress),
                    ..progress
                }
            } else {
                progress
            }
        }
        _ => progress,
    }
}

/// The progress of command `cmd` of `spe` after a step.
pub fn step_on(spe: u8, cmd: u32, progress: Progress, step: Step, note: Note) -> Progress
    requires { progress.read + 1 < 2 ^ 32 }
    ensures { result ≡ stepped spe cmd progress step note }
{
    match step {
        Step::Exec { spe: q } => {
            if q == spe {
                acknowledged(progress, note)
            } else {
                progress
            }
        }
        Step::Piece { spe: q, cmd: d, .. } => {
            if q == spe && d == cmd {
                piece(progress)
            } else {
                progress
            }
        }
        Step::Elem { spe: q, cmd: d } => {
            if q == spe && d == cmd {
                element(progress, note)
            } else {
                progress
            }
        }
        Step::Retire { spe: q, cmd: d } => {
            if q == spe && d == cmd {
                Progress {
                    stalled: false,
                    done: true,
                    ..progress
                }
            } else {
                progress
            }
        }
        Step::Atomic { .. } => progress,
        Step::Host => progress,
    }
}

/// How many elements of a list are wholly done.
pub(crate) fn done_elements(progress: &Progress) -> u32
    ensures { result ≡ elements_done progress.now }
{
    if progress.left == 0 {
        progress.read
    } else {
        progress.read.saturating_sub(1)
    }
}
