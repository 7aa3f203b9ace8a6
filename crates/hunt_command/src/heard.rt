//! The words of the command line, one after the other.

ghost use Rattle.std.specs.Prelude.{◌≡◌, map, string_bytes};
ghost use Rattle.std.specs.Option.{option_map};
ghost use Rattle.hunt_command.specs.Heard.{has_dash, heard, silent, key_of, with_value, with_place, with_json, with_all, with_plain, with_word, said_on};

/// An option that has a word after it.
#[derive(Clone, Copy, PartialEq, Eq)]
pub enum Key {
    Runs,
    Time,
    Seed,
    From,
    Jobs,
    Expect,
    Pass,
    Warn,
    Until,
    Tools,
}

/// The words so far.
#[derive(Clone, Copy)]
pub struct Heard<'a> {
    /// By places: the machine file, and up to three words after it.
    pub machine: Option<&'a str>,
    pub first: Option<&'a str>,
    pub second: Option<&'a str>,
    pub third: Option<&'a str>,
    /// By options.
    pub runs: Option<&'a str>,
    pub time: Option<&'a str>,
    pub seed: Option<&'a str>,
    pub from: Option<&'a str>,
    pub jobs: Option<&'a str>,
    pub expect: Option<&'a str>,
    pub pass: Option<&'a str>,
    pub warn: Option<&'a str>,
    pub until: Option<&'a str>,
    pub tools: Option<&'a str>,
    pub all: bool,
    pub json: bool,
    /// The option of which the word comes next.
    pub awaited: Option<Key>,
}

fn has_dash(word: &str) -> bool
    ensures { result ≡ has_dash word.now }
{
    match word.as_bytes() {
        [b, ..] => *b == b'-',
        [] => false,
    }
}

/// The option that has a word after it.
fn key_of(word: &str) -> Option<Key>
    ensures { result ≡ key_of word.now }
{
    match word {
        "--runs" => Some(Key::Runs),
        "--time" => Some(Key::Time),
        "--seed" => Some(Key::Seed),
        "--from" => Some(Key::From),
        "--jobs" => Some(Key::Jobs),
        "--expect" => Some(Key::Expect),
        "--pass" => Some(Key::Pass),
        "--warn" => Some(Key::Warn),
        "--until" => Some(Key::Until),
        "--tools" => Some(Key::Tools),
        _ => None,
    }
}

impl<'a> Heard<'a> {
    /// Before the first word.
    pub fn new() -> Heard<'a>
        ensures { heard result ≡ silent }
    {
        Heard {
            machine: None,
            first: None,
            second: None,
            third: None,
            runs: None,
            time: None,
            seed: None,
            from: None,
            jobs: None,
            expect: None,
            pass: None,
            warn: None,
            until: None,
            tools: None,
            all: false,
            json: false,
            awaited: None,
        }
    }

    /// The value of an option, which is given once.
    fn with_value(self, key: Key, word: &'a str) -> Option<Heard<'a>>
        ensures { option_map heard result ≡ with_value (heard self.entry) key word.now }
    {
        let old = Heard {
            awaited: None,
            ..self
        };
        let value = Some(word);
        match key {
            Key::Runs if old.runs.is_none() => Some(Heard { runs: value, ..old }),
            Key::Time if old.time.is_none() => Some(Heard { time: value, ..old }),
            Key::Seed if old.seed.is_none() => Some(Heard { seed: value, ..old }),
            Key::From if old.from.is_none() => Some(Heard { from: value, ..old }),
            Key::Jobs if old.jobs.is_none() => Some(Heard { jobs: value, ..old }),
            Key::Expect if old.expect.is_none() => Some(Heard {
                expect: value,
                ..old
            }),
            Key::Pass if old.pass.is_none() => Some(Heard { pass: value, ..old }),
            Key::Warn if old.warn.is_none() => Some(Heard { warn: value, ..old }),
            Key::Until if old.until.is_none() => Some(Heard {
                until: value,
                ..old
            }),
            Key::Tools if old.tools.is_none() => Some(Heard {
                tools: value,
                ..old
            }),
            _ => None,
        }
    }

    /// The next place.
    fn with_place(self, word: &'a str) -> Option<Heard<'a>>
        ensures { option_map heard result ≡ with_place (heard self.entry) (heard self.entry).machine (heard self.entry).first (heard self.entry).second (heard self.entry).third word.now }
    {
        let place = Some(word);
        match (self.machine, self.first, self.second, self.third) {
            (None, _, _, _) => Some(Heard {
                machine: place,
                ..self
            }),
            (_, None, _, _) => Some(Heard {
                first: place,
                ..self
            }),
            (_, _, None, _) => Some(Heard {
                second: place,
                ..self
            }),
            (_, _, _, None) => Some(Heard {
                third: place,
                ..self
            }),
            _ => None,
        }
    }

    fn with_json(self) -> Option<Heard<'a>>
        ensures { option_map heard result ≡ with_json (heard self.entry) self.entry.json }
    {
        if self.json {
            return None;
        }
        Some(Heard { json: true, ..self })
    }

    fn with_all(self) -> Option<Heard<'a>>
        ensures { option_map heard result ≡ with_all (heard self.entry) self.entry.all }
    {
        if self.all {
            return None;
        }
        Some(Heard { all: true, ..self })
    }

    /// An option without a word after it, or a place: no other word has a dash in front.
    fn with_plain(self, word: &'a str) -> Option<Heard<'a>>
        ensures { option_map heard result ≡ with_plain (heard self.entry) word.now }
    {
        if word == "--json" {
            self.with_json()
        } else if word == "--all" {
            self.with_all()
        } else if has_dash(word) {
            None
        } else {
            self.with_place(word)
        }
    }

    /// The next word, which may be the one that an option awaits.
    fn with_word(self, word: &'a str) -> Option<Heard<'a>>
        ensures { option_map heard result ≡ with_word (heard self.entry) word.now }
    {
        if let Some(key) = self.awaited {
            return self.with_value(key, word);
        }
        match key_of(word) {
            Some(key) => Some(Heard {
                awaited: Some(key),
                ..self
            }),
            None => self.with_plain(word),
        }
    }
}

/// What the words say after those that were heard. None if one is no option and has no place.
#[tactic(auto, unfolding(crate::specs::Heard::said_on))]
fn hear_on<'a>(so_far: Heard<'a>, words: &'a [String]) -> Option<Heard<'a>>
    ensures { option_map heard result ≡ said_on (heard so_far.entry) (map string_bytes words.now) }
{
    match words {
        [] => Some(so_far),
        [word, rest @ ..] => hear_on(so_far.with_word(word.as_str())?, rest),
    }
}

/// What the words say.
pub fn hear(words: &[String]) -> Option<Heard<'_>>
    ensures { option_map heard result ≡ said_on silent (map string_bytes words.now) }
{
    hear_on(Heard::new(), words)
}
