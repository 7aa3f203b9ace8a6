//! Which steps change what other actors can see.

ghost use Rattle.std.specs.Prelude.{◌≡◌, ◌||◌};
ghost use Rattle.run_progress.specs.Changes.{is_host, is_shared, is_visible};

use cell_base::Step;
use cell_machine::{Note, Place, Span};

/// Whether it is the step of the host.
fn is_host(step: Step) -> bool
    ensures { result ≡ is_host step }
{
    match step {
        Step::Host => true,
        _ => false,
    }
}

/// Whether a step with this note changes a mailbox, a signal register or a status.
fn is_visible(note: Note) -> bool
    ensures { result ≡ is_visible note }
{
    match note {
        Note::Put { .. } => true,
        Note::Take { .. } => true,
        Note::Signal { .. } => true,
        Note::Ended => true,
        _ => false,
    }
}

/// Whether other actors can see a step with this note, whatever it writes.
pub fn is_seen(step: Step, note: Note) -> bool
    ensures { result ≡ (is_host step || is_visible note) }
{
    is_host(step) || is_visible(note)
}

/// Whether the span has bytes of main memory.
pub fn is_shared(span: Span) -> bool
    ensures { result ≡ is_shared span }
{
    match span.place {
        Place::Memory => span.len != 0,
        Place::Local(_) => false,
    }
}
