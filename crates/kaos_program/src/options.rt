//! The words behind the program's name: the word of a command, and its options. A further option is a variant of `Given` and a field of
//! `Options` here, and is spelled in specs/Commands.antt.

ghost use Rattle.std.specs.Prelude.{◌≡◌, ◌<◌, ◌≤◌, map, length, IfSome, MatchOption, option_map, string_bytes};
ghost use Rattle.std.specs.List.{list_all};
ghost use Rattle.std.specs.Char.{is_ascii_digit};
ghost use Rattle.kaos_program.specs.Commands.{AreWords, AreOtherWords};
ghost use Rattle.kaos_program.specs.Options.{command_form, option_form, options_form, is_number, number_named as number_of_word, form_named, option_of, first_option, with_option, given_by, check_of, regress_of};

use crate::command::Command;
use source_sink::value_up_to;
use verdict_report::Form;

/// The budget of a demand where no words give another.
const BUDGET: u32 = 20_000;

/// The greatest budget.
const MOST_BUDGET: u64 = 200_000;

/// The depth of a regression where no words give another.
const DEPTH: u8 = 3;

/// The greatest depth.
const MOST_DEPTH: u64 = 6;

// An option, with its value.
#[derive(Clone, Copy)]
enum Given<'w> {
    Budget(u32),
    Form(Form),
    Goal(&'w str),
    Depth(u8),
}

// What options have given so far.
#[derive(Clone, Copy)]
struct Options<'w> {
    budget: Option<u32>,
    form: Option<Form>,
    goal: Option<&'w str>,
    depth: Option<u8>,
}

// Whether all bytes of a value are digits.
fn are_digits(value: &[u8]) -> bool
    ensures { result ≡ list_all is_ascii_digit value.now }
{
    value.iter().all(|byte| byte.is_ascii_digit())
}

// Whether a value is 1 to 6 digits.
fn is_number(value: &[u8]) -> bool
    ensures { result ≡ is_number value.now }
{
    (1..=6).contains(&value.len()) && are_digits(value)
}

// The number from 1 to the most that a value is.
fn number_named(value: &str, most: u64) -> Option<u64>
    requires { most ≤ MOST_BUDGET }
    ensures number { result ≡ number_of_word most value.now }
    ensures most { IfSome result (λ number. number ≤ most) }
{
    if !is_number(value.as_bytes()) {
        return None;
    }
    let number = value_up_to(value.as_bytes(), most + 1);
    if (1..=most).contains(&number) {
        Some(number)
    } else {
        None
    }
}

// The form that a value is.
fn form_named(value: &str) -> Option<Form>
    ensures { result ≡ form_named value.now }
{
    match value {
        "full" => Some(Form::Full),
        "brief" => Some(Form::Brief),
        "lines" => Some(Form::Lines),
        _ => None,
    }
}

// The option of a name with a value.
fn option_of<'w>(name: &str, value: &'w str) -> Option<Given<'w>>
    ensures { option_map option_form result ≡ option_of name.now value.now }
{
    match name {
        "--budget" => Some(Given::Budget(number_named(value, MOST_BUDGET)? as u32)),
        "--form" => Some(Given::Form(form_named(value)?)),
        "--goal" => Some(Given::Goal(value)),
        "--depth" => Some(Given::Depth(number_named(value, MOST_DEPTH)? as u8)),
        _ => None,
    }
}

// The option that words begin with, and the words behind it.
fn first_option<'w>(words: &'w [String]) -> Option<(Given<'w>, &'w [String])>
    ensures read { option_map (λ r. (option_form r.0, map string_bytes r.1.now)) result
        ≡ first_option (map string_bytes words.now) }
    ensures fewer { IfSome result (λ r. length r.1.now < length words.now) }
{
    let (word, behind) = words.split_first()?;
    match word.split_once('=') {
        Some((name, value)) => Some((option_of(name, value)?, behind)),
        None => {
            let (value, behind) = behind.split_first()?;
            Some((option_of(word, value)?, behind))
        }
    }
}

impl<'w> Options<'w> {
    // These options and one more, which was not given before.
    fn with(self, given: Given<'w>) -> Option<Options<'w>>
        ensures { option_map options_form result ≡ with_option (options_form self.entry) (option_form given.entry) }
    {
        let mut more = self;
        match given {
            Given::Budget(nodes) if self.budget.is_none() => more.budget = Some(nodes),
            Given::Form(form) if self.form.is_none() => more.form = Some(form),
            Given::Goal(name) if self.goal.is_none() => more.goal = Some(name),
            Given::Depth(levels) if self.depth.is_none() => more.depth = Some(levels),
            _ => return None,
        }
        Some(more)
    }

    // The check that is asked for.
    fn check(self) -> Option<Command<'w>>
        ensures { option_map command_form result ≡ check_of (options_form self.entry) }
    {
        if self.goal.is_some() || self.depth.is_some() {
            return None;
        }
        Some(Command::Check {
            budget: self.budget.unwrap_or(BUDGET),
            form: self.form.unwrap_or(Form::Full),
        })
    }

    // The regression that is asked for.
    fn regress(self) -> Option<Command<'w>>
        ensures { option_map command_form result ≡ regress_of (options_form self.entry) }
    {
        if self.form.is_some() {
            return None;
        }
        Some(Command::Regress {
            goal: self.goal?,
            depth: self.depth.unwrap_or(DEPTH),
            budget: self.budget.unwrap_or(BUDGET),
        })
    }
}

// What words give that spell options.
fn options_of<'w>(words: &'w [String]) -> Option<Options<'w>>
    ensures { option_map options_form result ≡ given_by (map string_bytes words.now) }
{
    let mut options = Options {
        budget: None,
        form: None,
        goal: None,
        depth: None,
    };
    let mut rest = words;
    'words: while !rest.is_empty() {
        let (given, behind) = first_option(rest)?;
        options = options.with(given)?;
        rest = behind;
    }
    Some(options)
}

/// The command of the words behind the program's name; none where they are those of no command.
pub(crate) fn command_of<'w>(words: &'w [String]) -> Option<Command<'w>>
    ensures { MatchOption result (AreOtherWords words.now) (λ command. AreWords words.now (command_form command)) }
{
    let (first, rest) = words.split_first()?;
    match first.as_str() {
        "check" => options_of(rest)?.check(),
        "regress" => options_of(rest)?.regress(),
        "trace" if rest.is_empty() => Some(Command::Trace),
        _ => None,
    }
}
