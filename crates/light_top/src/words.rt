// The words of the command line.
ghost use Rattle.std.specs.Prelude.{◌≡◌, ◌<◌, ◌^◌};
ghost use Rattle.light_top.specs.Words.{is_plain, number_of, any_number_of, name_of, limits_of, inputs_of, crew_of, form_of, texts, run_of, record_of, asm_of, list_of, show_of, upgrade_of, check_of, solve_of, replay_of, races_of, until_of, audit_of, workers_of, batch_of, arena_of_words, command_of};

use crate::crew::{Crew, Workers};
use machine::Limits;
use std::marker::Model;

/// The most memory steps that limits may allow, and that a thread may take in its turn on a worker.
const MOST_STEPS: u32 = 268_435_455;

/// The most instructions that limits may allow.
const MOST_INSTR: u32 = 1_073_741_824;

/// The most log entries of a thread that limits may allow.
const MOST_ENTRIES: u32 = 16_384;

/// The greatest number of a thread.
const LAST_THREAD: u32 = 14;

/// The most workers.
const MOST_WORKERS: u32 = 15;

/// A file's name: any text that isn't empty.
#[derive(Drop)]
pub struct Name<'a> {
    text: &'a str,
}

impl<'a> Model for Name<'a> {
    ghost use Rattle.std.specs.Prelude.{ℕ, List};

    ghost Value = { List ℕ };

    ghost view = { λ n. n.text.now };
}

impl<'a> Name<'a> {
    pub fn of(text: &'a str) -> Option<Name<'a>>
        ensures { result ≡ name_of text.now }
    {
        if text.is_empty() {
            None
        } else {
            Some(Name { text })
        }
    }

    pub fn as_str(&self) -> &str
        ensures { result.now ≡ self.now }
    {
        self.text
    }
}

/// A command with its words read.
#[derive(Drop)]
pub enum Command<'a> {
    /// Plays the program of an image by turns. Without inputs, all input lists are empty.
    Run {
        image: Name<'a>,
        limits: Limits,
        inputs: Option<Name<'a>>,
    },
    /// Runs it on threads, and saves the log. Without a crew, each thread of the program has a worker of its own.
    Record {
        image: Name<'a>,
        log: Name<'a>,
        limits: Limits,
        crew: Option<Crew>,
        inputs: Option<Name<'a>>,
    },
    /// Saves the image of the program that a text says.
    Asm {
        text: Name<'a>,
        image: Name<'a>,
    },
    /// Prints the program of an image as text.
    List {
        image: Name<'a>,
    },
    /// Prints a log as text.
    Show {
        log: Name<'a>,
    },
    /// Saves a log of version 1 as it is written today.
    Upgrade {
        old: Name<'a>,
        log: Name<'a>,
    },
    /// Checks that the order in a schedule respects a log.
    Check {
        log: Name<'a>,
        schedule: Name<'a>,
    },
    /// Finds an order that respects a log, and saves it.
    Solve {
        log: Name<'a>,
        schedule: Name<'a>,
        budget: u32,
    },
    /// Finds such an order, plays the program of an image by it, and saves it.
    Replay {
        image: Name<'a>,
        log: Name<'a>,
        schedule: Name<'a>,
        budget: u32,
    },
    /// Prints which pairs of writes a log leaves open.
    Races {
        log: Name<'a>,
    },
    /// Prints how a thread stands right after a memory step, by a log, playing only what that step needs. Step 0 is
    /// before the first one.
    Until {
        image: Name<'a>,
        log: Name<'a>,
        thread: u8,
        step: u32,
        budget: u32,
    },
    /// Tells whether a log is that of a whole history of a program, and how long such a history is.
    Audit {
        image: Name<'a>,
        log: Name<'a>,
        budget: u32,
    },
    /// Replays many logs on so many workers, and prints what becomes of each.
    Batch {
        list: Name<'a>,
        budget: u32,
        workers: Workers,
    },
    /// Records an arena program, and replays it.
    Arena {
        number: u32,
    },
}

// Whether a text may be that of a number: it has no sign, and a zero in front stands alone.
fn is_plain(word: &[u8]) -> bool
    ensures { result ≡ is_plain word.now }
{
    match word {
        [] => false,
        [c] => *c != b'+',
        [c, _, ..] => *c != b'+' && *c != b'0',
    }
}

/// A decimal number with no sign and no leading zero, of at most `most`.
fn number(word: &str, most: u32) -> Option<u32>
    ensures { result ≡ number_of most word.now }
{
    if !is_plain(word.as_bytes()) {
        return None;
    }
    match word.parse::<u32>() {
        Ok(n) => { if n <= most { Some(n) } else { None } }
        Err(_) => None,
    }
}

fn limits(steps: &str, instr: &str, entries: &str) -> Option<Limits>
    ensures { result ≡ limits_of steps.now instr.now entries.now }
{
    let steps = number(steps, MOST_STEPS)?;
    let instr = number(instr, MOST_INSTR)?;
    let entries = number(entries, MOST_ENTRIES)?;
    Limits::new(steps, instr, entries)
}

// Any number of 32 bits.
fn any_number(word: &str) -> Option<u32>
    ensures { result ≡ any_number_of word.now }
{
    number(word, u32::MAX)
}

// The names of inputs that these words are: none, or one.
fn inputs<'a>(words: &'a [String]) -> Option<Option<Name<'a>>>
    ensures { result ≡ inputs_of (texts words.now) }
{
    match words {
        [] => Some(None),
        [inputs] => Some(Some(Name::of(inputs.as_str())?)),
        _ => None,
    }
}

fn crew(workers: &str, slice: &str) -> Option<Crew>
    ensures { result ≡ crew_of workers.now slice.now }
{
    let workers = number(workers, MOST_WORKERS)?;
    let slice = number(slice, MOST_STEPS)?;
    Crew::new(workers as u8, slice)
}

// Which workers and which inputs these words name.
fn form<'a>(words: &'a [String]) -> Option<(Option<Crew>, Option<Name<'a>>)>
    ensures { result ≡ form_of (texts words.now) }
{
    match words {
        [] => Some((None, None)),
        [inputs] => Some((None, Some(Name::of(inputs.as_str())?))),
        [workers, slice, rest @ ..] => {
            let crew = crew(workers.as_str(), slice.as_str())?;
            Some((Some(crew), inputs(rest)?))
        }
    }
}

fn run<'a>(words: &'a [String]) -> Option<Command<'a>>
    ensures { result ≡ run_of (texts words.now) }
{
    match words {
        [image, steps, instr, entries, rest @ ..] => Some(Command::Run {
            image: Name::of(image.as_str())?,
            limits: limits(steps.as_str(), instr.as_str(), entries.as_str())?,
            inputs: inputs(rest)?,
        }),
        _ => None,
    }
}

fn record<'a>(words: &'a [String]) -> Option<Command<'a>>
    ensures { result ≡ record_of (texts words.now) }
{
    match words {
        [image, log, steps, instr, entries, rest @ ..] => {
            let image = Name::of(image.as_str())?;
            let log = Name::of(log.as_str())?;
            let limits = limits(steps.as_str(), instr.as_str(), entries.as_str())?;
            let (crew, inputs) = form(rest)?;
            Some(Command::Record {
                image,
                log,
                limits,
                crew,
                inputs,
            })
        }
        _ => None,
    }
}

fn asm<'a>(words: &'a [String]) -> Option<Command<'a>>
    ensures { result ≡ asm_of (texts words.now) }
{
    match words {
        [text, image] => Some(Command::Asm {
            text: Name::of(text.as_str())?,
            image: Name::of(image.as_str())?,
        }),
        _ => None,
    }
}

fn list<'a>(words: &'a [String]) -> Option<Command<'a>>
    ensures { result ≡ list_of (texts words.now) }
{
    match words {
        [image] => Some(Command::List {
            image: Name::of(image.as_str())?,
        }),
        _ => None,
    }
}

fn show<'a>(words: &'a [String]) -> Option<Command<'a>>
    ensures { result ≡ show_of (texts words.now) }
{
    match words {
        [log] => Some(Command::Show {
            log: Name::of(log.as_str())?,
        }),
        _ => None,
    }
}

fn upgrade<'a>(words: &'a [String]) -> Option<Command<'a>>
    ensures { result ≡ upgrade_of (texts words.now) }
{
    match words {
        [old, log] => Some(Command::Upgrade {
            old: Name::of(old.as_str())?,
            log: Name::of(log.as_str())?,
        }),
        _ => None,
    }
}

fn check<'a>(words: &'a [String]) -> Option<Command<'a>>
    ensures { result ≡ check_of (texts words.now) }
{
    match words {
        [log, schedule] => Some(Command::Check {
            log: Name::of(log.as_str())?,
            schedule: Name::of(schedule.as_str())?,
        }),
        _ => None,
    }
}

fn solve<'a>(words: &'a [String]) -> Option<Command<'a>>
    ensures { result ≡ solve_of (texts words.now) }
{
    match words {
        [log, schedule, budget] => Some(Command::Solve {
            log: Name::of(log.as_str())?,
            schedule: Name::of(schedule.as_str())?,
            budget: any_number(budget.as_str())?,
        }),
        _ => None,
    }
}

fn replay<'a>(words: &'a [String]) -> Option<Command<'a>>
    ensures { result ≡ replay_of (texts words.now) }
{
    match words {
        [image, log, schedule, budget] => Some(Command::Replay {
            image: Name::of(image.as_str())?,
            log: Name::of(log.as_str())?,
            schedule: Name::of(schedule.as_str())?,
            budget: any_number(budget.as_str())?,
        }),
        _ => None,
    }
}

fn races<'a>(words: &'a [String]) -> Option<Command<'a>>
    ensures { result ≡ races_of (texts words.now) }
{
    match words {
        [log] => Some(Command::Races {
            log: Name::of(log.as_str())?,
        }),
        _ => None,
    }
}

fn until<'a>(words: &'a [String]) -> Option<Command<'a>>
    ensures { result ≡ until_of (texts words.now) }
{
    match words {
        [image, log, thread, step, budget] => Some(Command::Until {
            image: Name::of(image.as_str())?,
            log: Name::of(log.as_str())?,
            thread: number(thread.as_str(), LAST_THREAD)? as u8,
            step: number(step.as_str(), MOST_STEPS)?,
            budget: any_number(budget.as_str())?,
        }),
        _ => None,
    }
}

fn audit<'a>(words: &'a [String]) -> Option<Command<'a>>
    ensures { result ≡ audit_of (texts words.now) }
{
    match words {
        [image, log, budget] => Some(Command::Audit {
            image: Name::of(image.as_str())?,
            log: Name::of(log.as_str())?,
            budget: any_number(budget.as_str())?,
        }),
        _ => None,
    }
}

fn workers(word: &str) -> Option<Workers>
    ensures { result ≡ workers_of word.now }
{
    Workers::new(number(word, MOST_WORKERS)? as u8)
}

fn batch<'a>(words: &'a [String]) -> Option<Command<'a>>
    ensures { result ≡ batch_of (texts words.now) }
{
    match words {
        [list, budget, workers_word] => Some(Command::Batch {
            list: Name::of(list.as_str())?,
            budget: any_number(budget.as_str())?,
            workers: workers(workers_word.as_str())?,
        }),
        _ => None,
    }
}

fn arena<'a>(words: &'a [String]) -> Option<Command<'a>>
    ensures { result ≡ arena_of_words (texts words.now) }
{
    match words {
        [number] => Some(Command::Arena {
            number: any_number(number.as_str())?,
        }),
        _ => None,
    }
}

/// The command that the words are, if they are one.
pub fn read_command<'a>(words: &'a [String]) -> Option<Command<'a>>
    ensures { result ≡ command_of (texts words.now) }
{
    match words {
        [verb, rest @ ..] => match verb.as_str() {
            "run" => run(rest),
            "record" => record(rest),
            "asm" => asm(rest),
            "list" => list(rest),
            "show" => show(rest),
            "upgrade" => upgrade(rest),
            "check" => check(rest),
            "solve" => solve(rest),
            "replay" => replay(rest),
            "races" => races(rest),
            "until" => until(rest),
            "audit" => audit(rest),
            "batch" => batch(rest),
            "arena" => arena(rest),
            _ => None,
        },
        [] => None,
    }
}
