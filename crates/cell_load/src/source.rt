// The names of sources.
ghost use Rattle.std.specs.Prelude.{◌≡◌, ◌≤◌, ◌<◌, ◌++◌, map, IfOk, OnOk};
ghost use Rattle.cell_load.specs.Entries.{entry_of};
ghost use Rattle.cell_load.specs.Sources.{named, source_of, sources_of, spes_after, spes_in};

use crate::line::Line;
use std::alloc::{AllocError, Global};

/// The name of a source, and the processor in whose store its image is placed.
#[derive(Drop)]
pub struct SourceName {
    /// The processor's number, from 0.
    pub spe: u8,
    pub(crate) name: String,
}

impl SourceName {
    /// The name as the machine file has it: 1 to 255 characters from `!` to `~` without `#`.
    pub fn name(&self) -> &str
        ensures { result.now ≡ (named self.now).name }
    {
        self.name.as_str()
    }
}

/// Keeps the source that a line names, and answers how many processors came by its end.
fn keep_source(sources: &mut Vec<SourceName>, spes: u8, line: &Line) -> Result<u8, AllocError>
    requires { spes < 255 }
    ensures kept { OnOk result (map named sources.new.items ≡ map named sources.old.items ++ source_of spes (entry_of line.now)) }
    ensures spes { IfOk result (λ n. n ≡ spes_after spes (entry_of line.now)) }
{
    match line {
        Line::Spe => Ok(spes + 1),
        Line::Source { name } => {
            let name = name.clone()?;
            let spe = spes.saturating_sub(1);
            sources.push(SourceName { spe, name })?;
            Ok(spes)
        }
        _ => Ok(spes),
    }
}

/// The sources of these lines in order, each of the latest processor before it.
pub(crate) fn sources_in(alloc: Global, lines: &[Line]) -> Result<Vec<SourceName>, AllocError>
    requires { spes_in (map entry_of lines.now) ≤ 16 }
    ensures { IfOk result (λ sources. map named sources.items ≡ sources_of (map entry_of lines.now)) }
{
    let mut sources = Vec::new(alloc);
    let mut spes: u8 = 0;
    for line in lines {
        spes = keep_source(&mut sources, spes, line)?;
    }
    Ok(sources)
}
