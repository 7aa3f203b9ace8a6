//! The kinds of failures and warnings.

ghost use Rattle.std.specs.Prelude.{◌≡◌, ◌==◌};
ghost use Rattle.std.specs.List.{position};
ghost use Rattle.hunt_tally.specs.Lines.{told_by};
ghost use Rattle.hunt_texts.specs.Findings.{key_word, kind_word, is_of_kind, kind_words};

use hunt_tally::Line;

/// A kind of failures, or of warnings.
#[derive(Clone, Copy)]
pub enum Finding {
    Race,
    Halt,
    Fault,
    Deadlock,
    Livelock,
    Missed,
    Budget,
    LostSignal,
    UnreadPutllc,
    UnreadTags,
    UnwrittenBytes,
}

fn space_at(key: &[u8]) -> Option<usize>
    ensures { result ≡ position (λ b. b == 32) key.now }
{
    key.iter().position(|b| *b == b' ')
}

/// The first word of a key, which names the kind of the finding.
pub fn key_word(key: &[u8]) -> &[u8]
    ensures { result.now ≡ key_word key.now }
{
    match space_at(key) {
        Some(place) => &key[..place],
        None => key,
    }
}

impl Finding {
    /// The first word of the keys of this kind.
    fn word(self) -> &'static [u8]
        ensures { result.now ≡ kind_word self }
    {
        match self {
            Finding::Race => b"race",
            Finding::Halt => b"halt",
            Finding::Fault => b"fault",
            Finding::Deadlock => b"deadlock",
            Finding::Livelock => b"livelock",
            Finding::Missed => b"missed",
            Finding::Budget => b"budget",
            Finding::LostSignal => b"lost-signal",
            Finding::UnreadPutllc => b"unread-putllc",
            Finding::UnreadTags => b"unread-tags",
            Finding::UnwrittenBytes => b"unwritten-bytes",
        }
    }

    /// Whether a line of the tally is of this kind.
    pub fn is_of(self, line: Line<'_>) -> bool
        ensures { result ≡ is_of_kind self (told_by line.entry) }
    {
        key_word(line.key) == self.word()
    }

    /// The words for this kind.
    pub fn words(self) -> &'static [u8]
        ensures { result.now ≡ kind_words self }
    {
        match self {
            Finding::Race => b"data race",
            Finding::Halt => b"halt",
            Finding::Fault => b"fault",
            Finding::Deadlock => b"deadlock",
            Finding::Livelock => b"livelock",
            Finding::Missed => b"missing line",
            Finding::Budget => b"spent budget",
            Finding::LostSignal => b"warning: lost signal",
            Finding::UnreadPutllc => b"warning: unread status of a PUTLLC",
            Finding::UnreadTags => b"warning: unread tag status",
            Finding::UnwrittenBytes => b"warning: bytes that nothing wrote",
        }
    }
}
