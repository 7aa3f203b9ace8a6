//! The forms of words.

ghost use Rattle.std.specs.Prelude.{◌≡◌, ◌≤◌, ◌<◌, ◌+◌, Some, IfSome, map, option_and_then, string_bytes};
ghost use Rattle.std.specs.Option.{option_map};
ghost use Rattle.hunt_command.specs.Heard.{heard, texts_of, silent, said_on};
ghost use Rattle.hunt_command.specs.Words.{asks_help, count_within, either, number_or, runs_asked, runs_said, time_said, most_made, told_runs, seed_said, from_said, jobs_said, tools_said, warn_named, warn_said, is_on, is_plain, names_nothing, hunt_said, each_said, record_said, placed, form_said, spoken, said, most_runs, most_run, most_jobs, IsWithin};

use crate::heard::{Heard, hear};
use crate::numbers::{number_of, seconds_of};

/// How many runs a hunt may make, and how many it makes at most if the words don't say.
const MOST_RUNS: u32 = 1_000_000;

/// For how many seconds a hunt may run.
const MOST_TIME: u32 = 1_000_000;

pub const DEFAULT_RUNS: u32 = 1000;

/// How many runs `each` prints by default.
const DEFAULT_TOLD: u32 = 200;

/// On how many threads a hunt may run.
pub const MOST_JOBS: u32 = 256;

/// What is done with warnings.
#[derive(Clone, Copy)]
pub enum Warn {
    /// They are not looked for.
    Off,
    /// They are printed.
    Print,
    /// They are printed, and count as failures.
    Error,
}

impl Warn {
    /// Whether they are looked for.
    pub fn is_on(self) -> bool
        ensures { result ≡ is_on self }
    {
        match self {
            Warn::Off => false,
            Warn::Print => true,
            Warn::Error => true,
        }
    }
}

/// A hunt that is asked for.
#[derive(Clone, Copy)]
pub struct Hunt<'a> {
    pub machine: &'a str,
    /// The number of the first run, and how many, if given.
    pub from: u32,
    pub runs: Option<u32>,
    /// For how many seconds, if given.
    pub time: Option<u32>,
    pub seed: u64,
    /// On how many threads, if given.
    pub jobs: Option<u32>,
    /// The expectation file and the pass file.
    pub expect: Option<&'a str>,
    pub pass: Option<&'a str>,
    /// What is done with warnings.
    pub warn: Warn,
    /// The file that ends the hunt once it exists.
    pub until: Option<&'a str>,
    /// The folder of the tools, as commands name it, and whether all findings are printed.
    pub tools: &'a str,
    pub all: bool,
    pub json: bool,
}

/// What the words ask for.
#[derive(Clone, Copy)]
pub enum Form<'a> {
    /// To make runs, and to report what was found.
    Hunt(Hunt<'a>),
    /// To make this many runs, and to print for each how it ends and its race.
    Each {
        machine: &'a str,
        from: u32,
        runs: u32,
        seed: u64,
    },
    /// To print what `cell run` would print of this run.
    Record {
        machine: &'a str,
        run: u32,
        seed: u64,
    },
    Help,
    NoForm,
}

/// The word of a place or of an option; None if both are given.
fn either<'a>(place: Option<&'a str>, option: Option<&'a str>) -> Option<Option<&'a str>>
    ensures { option_map texts_of result ≡ either (texts_of place.entry) (texts_of option.entry) }
{
    match (place, option) {
        (None, _) => Some(option),
        (Some(_), None) => Some(place),
        (Some(_), Some(_)) => None,
    }
}

/// A number from 1 to the limit.
fn count_of(word: &str, limit: u32) -> Option<u32>
    ensures value { result ≡ count_within limit word.now }
    ensures bounds { IfSome result (λ n. (0 < n) × (n ≤ limit)) }
{
    let n = number_of(word, u64::from(limit))?;
    if n > 0 { Some(n as u32) } else { None }
}

fn runs_of(word: Option<&str>) -> Option<Option<u32>>
    ensures value { result ≡ runs_said (texts_of word.entry) }
    ensures bounds { IfSome result (λ runs. IfSome runs (λ n. (0 < n) × (n ≤ most_runs))) }
{
    match word {
        Some(word) => Some(Some(count_of(word, MOST_RUNS)?)),
        None => Some(None),
    }
}

fn time_of(word: Option<&str>) -> Option<Option<u32>>
    ensures { result ≡ time_said (texts_of word.entry) }
{
    let Some(word) = word else {
        return Some(None);
    };
    let seconds = seconds_of(word, u64::from(MOST_TIME))?;
    if seconds > 0 {
        Some(Some(seconds as u32))
    } else {
        None
    }
}

/// How many runs are asked for: as many as there can be if only a time is given.
fn runs_asked(time: Option<u32>, runs: Option<u32>) -> Option<u32>
    ensures value { result ≡ runs_asked time runs }
    ensures bounds { IfSome runs (λ n. (0 < n) × (n ≤ most_runs)) → IfSome result (λ n. (0 < n) × (n ≤ most_runs)) }
{
    if time.is_some() && runs.is_none() {
        Some(MOST_RUNS)
    } else {
        runs
    }
}

/// How many runs a hunt makes at most.
pub fn most_made(runs: Option<u32>) -> u32
    ensures value { result ≡ most_made runs }
    ensures bounds { IfSome runs (λ n. (0 < n) × (n ≤ most_runs)) → (0 < result) × (result ≤ most_runs) }
{
    runs.unwrap_or(DEFAULT_RUNS)
}

/// How many runs `each` prints.
fn told_runs(runs: Option<u32>) -> u32
    ensures value { result ≡ told_runs runs }
    ensures bounds { IfSome runs (λ n. (0 < n) × (n ≤ most_runs)) → (0 < result) × (result ≤ most_runs) }
{
    runs.unwrap_or(DEFAULT_TOLD)
}

fn seed_of(word: Option<&str>) -> Option<u64>
    ensures { result ≡ seed_said (texts_of word.entry) }
{
    match word {
        Some(word) => number_of(word, u64::MAX),
        None => Some(1),
    }
}

/// The number of a run.
fn run_of(word: &str) -> Option<u32>
    ensures { result ≡ number_or 0 most_run (Some word.now) }
{
    let n = number_of(word, u64::from(u32::MAX))?;
    Some(n as u32)
}

/// The number of the first of this many runs.
fn from_of(word: Option<&str>, runs: u32) -> Option<u32>
    ensures value { result ≡ from_said (texts_of word.entry) runs }
    ensures bounds { IfSome result (λ from. from + runs ≤ most_run) }
{
    let from = match word {
        Some(word) => run_of(word)?,
        None => 0,
    };
    if u64::from(from) + u64::from(runs) <= u64::from(u32::MAX) {
        Some(from)
    } else {
        None
    }
}

fn jobs_of(word: Option<&str>) -> Option<Option<u32>>
    ensures value { result ≡ jobs_said (texts_of word.entry) }
    ensures bounds { IfSome result (λ jobs. IfSome jobs (λ n. (0 < n) × (n ≤ most_jobs))) }
{
    match word {
        Some(word) => Some(Some(count_of(word, MOST_JOBS)?)),
        None => Some(None),
    }
}

/// The folder of the tools.
fn tools_of<'a>(word: Option<&'a str>) -> &'a str
    ensures { result.now ≡ tools_said (texts_of word.entry) }
{
    match word {
        Some(word) => word,
        None => "tools",
    }
}

/// What a word of `--warn` says.
fn warn_named(word: &str) -> Option<Warn>
    ensures { result ≡ warn_named word.now }
{
    match word {
        "none" => Some(Warn::Off),
        "print" => Some(Warn::Print),
        "error" => Some(Warn::Error),
        _ => None,
    }
}

/// What is done with warnings.
fn warn_of(word: Option<&str>) -> Option<Warn>
    ensures { result ≡ warn_said (texts_of word.entry) }
{
    match word {
        Some(word) => warn_named(word),
        None => Some(Warn::Print),
    }
}

/// Whether no option of hunts alone names a file or a folder.
fn names_nothing(words: &Heard) -> bool
    ensures { result ≡ names_nothing (heard words.now) }
{
    words.expect.is_none() && words.pass.is_none() && words.until.is_none() && words.tools.is_none()
}

/// Whether no option of hunts alone is given.
fn is_plain(words: &Heard) -> bool
    ensures { result ≡ is_plain (heard words.now) }
{
    names_nothing(words)
        && words.time.is_none()
        && words.jobs.is_none()
        && words.warn.is_none()
        && !words.all
        && !words.json
}

fn hunt_form<'a>(
    words: &Heard<'a>,
    machine: &'a str,
    runs: Option<&'a str>,
    seed: Option<&'a str>,
) -> Option<Form<'a>>
    ensures value { option_map said result ≡ hunt_said (heard words.now) machine.now (texts_of runs.entry) (texts_of seed.entry) }
    ensures within { IfSome result IsWithin }
{
    let said = runs_of(runs)?;
    let time = time_of(words.time)?;
    let runs = runs_asked(time, said);
    let seed = seed_of(seed)?;
    let from = from_of(words.from, most_made(runs))?;
    let jobs = jobs_of(words.jobs)?;
    let warn = warn_of(words.warn)?;
    Some(Form::Hunt(Hunt {
        machine,
        from,
        runs,
        time,
        seed,
        jobs,
        expect: words.expect,
        pass: words.pass,
        warn,
        until: words.until,
        tools: tools_of(words.tools),
        all: words.all,
        json: words.json,
    }))
}

fn each_form<'a>(
    words: &Heard<'a>,
    machine: &'a str,
    runs: Option<&'a str>,
    seed: Option<&'a str>,
) -> Option<Form<'a>>
    ensures value { option_map said result ≡ each_said (heard words.now) machine.now (texts_of runs.entry) (texts_of seed.entry) }
    ensures within { IfSome result IsWithin }
{
    if !is_plain(words) {
        return None;
    }
    let runs = told_runs(runs_of(runs)?);
    let seed = seed_of(seed)?;
    let from = from_of(words.from, runs)?;
    Some(Form::Each {
        machine,
        from,
        runs,
        seed,
    })
}

fn record_form<'a>(
    words: &Heard<'a>,
    machine: &'a str,
    run: Option<&'a str>,
    seed: Option<&'a str>,
) -> Option<Form<'a>>
    ensures value { option_map said result ≡ record_said (heard words.now) machine.now (texts_of run.entry) (texts_of seed.entry) }
    ensures within { IfSome result IsWithin }
{
    if !is_plain(words) || words.runs.is_some() || words.from.is_some() {
        return None;
    }
    let run = run_of(run?)?;
    let seed = seed_of(seed)?;
    Some(Form::Record { machine, run, seed })
}

/// The form that the words after the machine file ask for.
fn placed<'a>(words: &Heard<'a>, machine: &'a str) -> Option<Form<'a>>
    ensures value { option_map said result ≡ placed (heard words.now) machine.now (heard words.now).first }
    ensures within { IfSome result IsWithin }
{
    let Some(word) = words.first else {
        return hunt_form(words, machine, words.runs, words.seed);
    };
    if word == "record" {
        let seed = either(words.third, words.seed)?;
        return record_form(words, machine, words.second, seed);
    }
    if word == "each" {
        let runs = either(words.second, words.runs)?;
        let seed = either(words.third, words.seed)?;
        return each_form(words, machine, runs, seed);
    }
    if words.third.is_some() {
        return None;
    }
    let runs = either(Some(word), words.runs)?;
    let seed = either(words.second, words.seed)?;
    hunt_form(words, machine, runs, seed)
}

/// The form of the words, if they are one.
fn form_heard(words: &[String]) -> Option<Form<'_>>
    ensures value { option_map said result ≡ option_and_then form_said (said_on silent (map string_bytes words.now)) }
    ensures within { IfSome result IsWithin }
{
    let heard = hear(words)?;
    if heard.awaited.is_some() {
        return None;
    }
    placed(&heard, heard.machine?)
}

fn asks_help(words: &[String]) -> bool
    ensures { result ≡ asks_help (map string_bytes words.now) }
{
    for word in words {
        if word.as_str() == "--help" {
            return true;
        }
    }
    false
}

/// The form of the words.
pub fn form_of(words: &[String]) -> Form<'_>
    ensures form { said result ≡ spoken (map string_bytes words.now) }
    ensures within { IsWithin result }
{
    if asks_help(words) {
        return Form::Help;
    }
    form_heard(words).unwrap_or(Form::NoForm)
}
