//! Which line placed the word at an address of a local store.

ghost use Rattle.std.specs.Prelude.{◌≡◌, is_some};
ghost use Rattle.hunt_reports.specs.Origins.{covers, has_placed, is_line, line_at, line_by, line_in, named_line, owner, source_line, statement_of, is_placed};

use spu_asm::ListedLine;

/// What a line of a machine file places in a local store.
#[derive(Clone, Copy)]
pub enum Placed {
    /// The image of the source of this number: `source` lines count from 0.
    Source { number: usize },
    /// The bytes of a `code` or `bytes` line: their first address, and how many they are.
    Bytes { at: u32, len: usize },
}

/// What a line of a machine file places, and the processor in whose store.
#[derive(Clone, Copy)]
pub struct Placing {
    pub spe: u32,
    pub placed: Placed,
}

/// A source: its name, the addresses of its lines, and the statement of each line of its text.
#[derive(Drop)]
pub struct Source {
    pub name: Vec<u8>,
    pub lines: Vec<ListedLine>,
    pub statements: Vec<Vec<u8>>,
}

/// What the lines of a machine file place, in their order, and its sources.
#[derive(Drop)]
pub struct Places {
    pub placings: Vec<Placing>,
    pub sources: Vec<Source>,
}

/// A line of a source: the name of the source, the line's number, counted from 1, and its statement.
#[derive(Clone, Copy)]
pub struct SourceLine<'a> {
    pub name: &'a [u8],
    pub number: u32,
    pub statement: &'a [u8],
}

/// Whether a line placed the byte at an address.
fn is_line(line: ListedLine, at: u32) -> bool
    ensures { result ≡ is_line at line }
{
    line.at <= at && at < line.next
}

/// The number of the line that placed the byte at an address.
fn line_at(lines: &[ListedLine], at: u32) -> Option<u32>
    ensures { result ≡ line_at lines.now at }
{
    for line in lines {
        if is_line(*line, at) {
            return Some(line.number);
        }
    }
    None
}

/// The statement of a line; empty if the source has no such line.
pub fn statement_of(source: &Source, line: u32) -> &[u8]
    ensures { result.now ≡ statement_of source.now line }
{
    match source.statements.get((line as usize).saturating_sub(1)) {
        Some(statement) => statement.as_slice(),
        None => &[],
    }
}

/// The line of the source of this number that placed the byte at an address.
#[tactic(auto, unfolding(crate::specs::Origins::line_in))]
fn line_in(sources: &[Source], number: usize, at: u32) -> Option<SourceLine<'_>>
    ensures { named_line result ≡ line_in sources.now number at }
{
    let source = sources.get(number)?;
    let line = line_at(source.lines.as_slice(), at)?;
    Some(SourceLine {
        name: source.name.as_slice(),
        number: line,
        statement: statement_of(source, line),
    })
}

/// Whether the byte at an address is among what was placed.
fn has_placed(sources: &[Source], placed: Placed, at: u32) -> bool
    ensures { result ≡ has_placed sources.now at placed }
{
    match placed {
        Placed::Source { number } => line_in(sources, number, at).is_some(),
        Placed::Bytes { at: from, len } => from <= at && ((at - from) as usize) < len,
    }
}

/// Whether a line of the machine file placed the byte at an address of a processor's store, though another may have replaced it.
fn covers(sources: &[Source], placing: Placing, spe: u8, at: u32) -> bool
    ensures { result ≡ covers sources.now spe at placing }
{
    placing.spe == u32::from(spe) && has_placed(sources, placing.placed, at)
}

impl Places {
    /// The last line of the machine file that placed the byte at an address of a processor's store.
    fn owner(&self, spe: u8, at: u32) -> Option<Placed>
        ensures { result ≡ owner self.now spe at }
    {
        let mut found = None;
        for placing in &self.placings {
            if covers(&self.sources, *placing, spe, at) {
                found = Some(placing.placed);
            }
        }
        found
    }

    /// Whether a line of the machine file placed the byte at an address of a processor's store.
    pub fn is_placed(&self, spe: u8, at: u32) -> bool
        ensures { result ≡ is_placed self.now spe at }
    {
        self.owner(spe, at).is_some()
    }

    /// The line of a source that placed the byte at an address of a processor's store; None where a `code` or `bytes` line did, or none.
    #[tactic(auto, unfolding(crate::specs::Origins::source_line))]
    pub fn source_line(&self, spe: u8, at: u32) -> Option<SourceLine<'_>>
        ensures { named_line result ≡ source_line self.now spe at }
    {
        match self.owner(spe, at)? {
            Placed::Source { number } => line_in(&self.sources, number, at),
            Placed::Bytes { .. } => None,
        }
    }
}
