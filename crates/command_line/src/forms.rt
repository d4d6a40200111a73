// Whether options are of the forms that the command has.
ghost use Rattle.std.specs.Prelude.{◌≡◌, true, map, string_bytes, count_by, drop, nat_le};
ghost use Rattle.std.specs.List.{list_all, list_any};
ghost use Rattle.command_line.specs.Forms.{all_differ, has_given, is_named, is_stdin, is_stdin_given, names_file};
ghost use Rattle.command_line.specs.Forms.{reads_file, has_number_first, file_words, stdin_files};
ghost use Rattle.command_line.specs.Lines.{given_of, is_value_now, taken_now, has_needed, plain_now, fits_now};
ghost use Rattle.command_line.specs.PortTexts.{is_some_text};

use crate::commands::{Command, OptionName};
use crate::lines::{Line, Setting};

pub(crate) fn is_some_text(text: &str) -> bool
    ensures { result ≡ is_some_text text.now }
{
    !text.is_empty()
}

// The value is a number, or the name of a file, or there is none.
fn is_value(setting: &Setting) -> bool
    ensures { result ≡ is_value_now setting.now.name (string_bytes setting.now.value) }
{
    match setting.name {
        OptionName::Frames | OptionName::One => !is_some_text(setting.value.as_str()),
        OptionName::Turns | OptionName::Ticks => setting.number.is_some(),
        _ => is_some_text(setting.value.as_str()),
    }
}

// The command takes the option with this value.
fn is_taken(command: Command, setting: &Setting) -> bool
    ensures { result ≡ taken_now command (given_of setting.now) }
{
    command.has_option(setting.name) && command.is_option_built(setting.name) && is_value(setting)
}

fn are_taken(command: Command, settings: &[Setting]) -> bool
    ensures { result ≡ list_all (λ s. taken_now command (given_of s)) settings.now }
{
    settings.iter().all(|setting| is_taken(command, setting))
}

pub(crate) fn is_named(setting: &Setting, name: OptionName) -> bool
    ensures { result ≡ is_named name (given_of setting.now) }
{
    setting.name.word() == name.word()
}

pub(crate) fn is_any_named(settings: &[Setting], name: OptionName) -> bool
    ensures { result ≡ list_any (λ s. is_named name (given_of s)) settings.now }
{
    settings.iter().any(|setting| is_named(setting, name))
}

/// Whether an option is given.
pub(crate) fn has_given(settings: &[Setting], name: OptionName) -> bool
    ensures { result ≡ has_given name (map given_of settings.now) }
{
    is_any_named(settings, name)
}

// No option is given twice.
fn all_differ(mut settings: &[Setting]) -> bool
    ensures { result ≡ all_differ (map given_of settings.now) }
{
    while let [first, rest @ ..] = settings {
        if is_any_named(rest, first.name) {
            return false;
        }
        settings = rest;
    }
    true
}

// The key is given, if the command needs one.
fn has_needed(command: Command, settings: &[Setting]) -> bool
    ensures { result ≡ has_needed command (map given_of settings.now) }
{
    !command.needs_key() || has_given(settings, OptionName::Key)
}

fn is_stdin(word: &str) -> bool
    ensures { result ≡ is_stdin word.now }
{
    word == "-"
}

fn names_file(name: OptionName) -> bool
    ensures { result ≡ names_file name }
{
    matches!(
        name,
        OptionName::Key | OptionName::Defs | OptionName::File | OptionName::Store
    )
}

pub(crate) fn reads_file(command: Command) -> bool
    ensures { result ≡ reads_file command }
{
    matches!(
        command,
        Command::Fleet
            | Command::Decode
            | Command::LogShow
            | Command::LogFilter
            | Command::LogMake
            | Command::Fence
    )
}

fn has_number_first(command: Command) -> bool
    ensures { result ≡ has_number_first command }
{
    matches!(command, Command::LogFilter | Command::LogMake)
}

fn after_first(words: &[String]) -> &[String]
    ensures { map string_bytes result.now ≡ drop 1 (map string_bytes words.now) }
{
    match words {
        [_, rest @ ..] => rest,
        [] => &[],
    }
}

/// The plain words that name files.
pub(crate) fn file_words(command: Command, words: &[String]) -> &[String]
    ensures { map string_bytes result.now ≡ file_words command (map string_bytes words.now) }
{
    if !reads_file(command) {
        return &[];
    }
    if has_number_first(command) {
        after_first(words)
    } else {
        words
    }
}

fn is_stdin_setting(setting: &Setting) -> bool
    ensures { result ≡ is_stdin_given (given_of setting.now) }
{
    names_file(setting.name) && is_stdin(setting.value.as_str())
}

fn stdin_settings(settings: &[Setting]) -> usize
    ensures { result ≡ count_by (λ s. is_stdin_given (given_of s)) settings.now }
{
    settings
        .iter()
        .filter(|setting| is_stdin_setting(setting))
        .count()
}

fn stdin_words(words: &[String]) -> usize
    ensures { result ≡ count_by (λ w. is_stdin (string_bytes w)) words.now }
{
    words.iter().filter(|word| is_stdin(word.as_str())).count()
}

/// Whether the options fit the command, for plain words that are of its form.
pub(crate) fn fits(line: &Line) -> bool
    requires { plain_now line.now.command (has_given OptionName.File (map given_of line.now.settings.items))
        (map string_bytes line.now.words.items) ≡ true }
    ensures { result ≡ fits_now line.now.command (map given_of line.now.settings.items)
        (map string_bytes line.now.words.items) }
{
    if !line.command.is_built() {
        return false;
    }
    if !are_taken(line.command, &line.settings) {
        return false;
    }
    if !all_differ(&line.settings) {
        return false;
    }
    if !has_needed(line.command, &line.settings) {
        return false;
    }
    is_stdin_once(line)
}

// Standard input is one file at most.
fn is_stdin_once(line: &Line) -> bool
    ensures { result ≡ nat_le (stdin_files line.now.command (map given_of line.now.settings.items)
        (map string_bytes line.now.words.items)) 1 }
{
    let in_settings = stdin_settings(&line.settings);
    let in_words = stdin_words(file_words(line.command, &line.words));
    in_settings <= 1 && in_words <= 1 - in_settings
}
