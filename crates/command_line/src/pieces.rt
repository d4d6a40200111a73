// What a word is by itself.
ghost use Rattle.std.specs.Prelude.{◌≡◌, Some, None, map, string_bytes};
ghost use Rattle.std.specs.Option.{MatchOption};
ghost use Rattle.command_line.specs.Grammar.{is_dashed};
ghost use Rattle.command_line.specs.Pieces.{named_in, single_commands, log_commands, begun, begun_log, option_named};
ghost use Rattle.command_line.specs.Pieces.{alone_sort, joined_sort};
ghost use Rattle.command_line.specs.Pieces.{option_sort, sort_of, joined_value};

use crate::commands::{COMMANDS, Command, LOG_COMMANDS, OPTION_NAMES, OptionName};

/// What a word is before `--`.
#[derive(Clone, Copy)]
pub(crate) enum Sort {
    Plain,
    /// `--`
    Dashes,
    /// An option without value.
    Alone(OptionName),
    /// An option with its value after `=`.
    Joined(OptionName),
    /// An option whose value is the next word.
    Apart(OptionName),
    Unknown,
}

/// What the next word may be.
#[derive(Clone, Copy)]
pub(crate) enum Place {
    Anything,
    Value(OptionName),
    /// After `--`.
    Behind,
}

fn single_command(word: &str) -> Option<Command>
    ensures { result ≡ named_in single_commands word.now }
{
    COMMANDS
        .iter()
        .copied()
        .find(|command| word == command.word())
}

fn log_command(word: &str) -> Option<Command>
    ensures { result ≡ named_in log_commands word.now }
{
    LOG_COMMANDS
        .iter()
        .copied()
        .find(|command| word == command.word())
}

// The command on logs with which the words after `log` begin, and the words after it.
fn begun_log(words: &[String]) -> Option<(Command, &[String])>
    ensures { MatchOption result (begun_log (map string_bytes words.now) ≡ None)
        (λ found. begun_log (map string_bytes words.now)
        ≡ Some (record { command = found.0; rest = map string_bytes found.1.now })) }
{
    let [word, rest @ ..] = words else {
        return None;
    };
    match log_command(word.as_str()) {
        Some(command) => Some((command, rest)),
        None => None,
    }
}

/// The command with which words begin, and the words after it.
pub(crate) fn begun(words: &[String]) -> Option<(Command, &[String])>
    ensures { MatchOption result (begun (map string_bytes words.now) ≡ None)
        (λ found. begun (map string_bytes words.now)
        ≡ Some (record { command = found.0; rest = map string_bytes found.1.now })) }
{
    let [word, rest @ ..] = words else {
        return None;
    };
    if word.as_str() == "log" {
        return begun_log(rest);
    }
    match single_command(word.as_str()) {
        Some(command) => Some((command, rest)),
        None => None,
    }
}

fn option_named(word: &str) -> Option<OptionName>
    ensures { result ≡ option_named word.now }
{
    OPTION_NAMES
        .iter()
        .copied()
        .find(|name| word == name.word())
}

/// A word that begins with `-` and isn't `-` alone.
pub(crate) fn is_dashed(word: &str) -> bool
    ensures { result ≡ is_dashed word.now }
{
    match word.as_bytes() {
        [first, _, ..] => *first == b'-',
        _ => false,
    }
}

// An option's word without `=`.
fn alone_sort(name: Option<OptionName>) -> Sort
    ensures { result ≡ alone_sort name }
{
    match name {
        None => Sort::Unknown,
        Some(name) if name.has_value() => Sort::Apart(name),
        Some(name) => Sort::Alone(name),
    }
}

// An option's word with `=`.
fn joined_sort(name: Option<OptionName>) -> Sort
    ensures { result ≡ joined_sort name }
{
    match name {
        Some(name) if name.has_value() => Sort::Joined(name),
        _ => Sort::Unknown,
    }
}

fn option_sort(word: &str) -> Sort
    ensures { result ≡ option_sort word.now }
{
    match word.split_once('=') {
        Some((name, _)) => joined_sort(option_named(name)),
        None => alone_sort(option_named(word)),
    }
}

pub(crate) fn sort_of(word: &str) -> Sort
    ensures { result ≡ sort_of word.now }
{
    if !is_dashed(word) {
        return Sort::Plain;
    }
    if word == "--" {
        return Sort::Dashes;
    }
    option_sort(word)
}

/// What comes after the first `=`.
pub(crate) fn joined_value(word: &str) -> &str
    ensures { result.now ≡ joined_value word.now }
{
    let parts = word.split_once('=');
    match parts {
        Some((_, value)) => value,
        None => "",
    }
}
