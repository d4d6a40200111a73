// The files and numbers that a line names.
ghost use Rattle.std.specs.Prelude.{◌≡◌, ◌≤◌, IfOk, option_map, map, string_bytes};
ghost use Rattle.std.specs.List.{find};
ghost use Rattle.std.specs.Option.{option_copied};
ghost use Rattle.command_line.specs.Forms.{has_given, is_named};
ghost use Rattle.command_line.specs.Lines.{given_of, asked_by};
ghost use Rattle.command_line.specs.Names.{value_given, first_word, main_file, number_given, turns_asked, ticks_asked};

use crate::commands::OptionName;
use crate::forms::{file_words, has_given, is_named, reads_file};
use crate::lines::{Line, Setting};
use std::alloc::{AllocError, Global};

fn setting_of(settings: &[Setting], name: OptionName) -> Option<&Setting>
    ensures { option_copied result ≡ find (λ s. is_named name (given_of s)) settings.now }
{
    settings.iter().find(|setting| is_named(setting, name))
}

fn first_word(alloc: Global, words: &[String]) -> Result<Option<String>, AllocError>
    ensures { IfOk result (λ word. option_map string_bytes word ≡ first_word (map string_bytes words.now)) }
{
    match words {
        [word, ..] => Ok(Some(String::from_str(alloc, word.as_str())?)),
        [] => Ok(None),
    }
}

impl Line {
    /// Whether this option is given.
    pub fn has(&self, name: OptionName) -> bool
        ensures { result ≡ has_given name (map given_of self.now.settings.items) }
    {
        has_given(&self.settings, name)
    }

    /// The value of this option, if it is given.
    pub fn value(&self, alloc: Global, name: OptionName) -> Result<Option<String>, AllocError>
        ensures { IfOk result (λ value. option_map string_bytes value
            ≡ value_given name (map given_of self.now.settings.items)) }
    {
        match setting_of(&self.settings, name) {
            Some(setting) => Ok(Some(String::from_str(alloc, setting.value.as_str())?)),
            None => Ok(None),
        }
    }

    // The number of this option, if it is given.
    fn number_of(&self, name: OptionName) -> Option<u64>
        ensures { result ≡ number_given name (map given_of self.now.settings.items) }
    {
        match setting_of(&self.settings, name) {
            Some(setting) => setting.number,
            None => None,
        }
    }

    /// How many times a port may be read: what `--turns` says, or 1,000,000.
    pub fn turns(&self) -> u64
        ensures asked { result ≡ turns_asked (map given_of self.now.settings.items) }
        ensures least { 1 ≤ result }
        ensures most { result ≤ 1_000_000_000 }
    {
        self.number_of(OptionName::Turns).unwrap_or(1_000_000)
    }

    /// How many ticks a station waits for the end of its operation: what `--ticks` says, or 50.
    pub fn ticks(&self) -> u64
        ensures asked { result ≡ ticks_asked (map given_of self.now.settings.items) }
        ensures least { 1 ≤ result }
        ensures most { result ≤ 1_000_000_000 }
    {
        self.number_of(OptionName::Ticks).unwrap_or(50)
    }

    /// The file that is read after the key and the definitions, if the line names one.
    pub fn main(&self, alloc: Global) -> Result<Option<String>, AllocError>
        ensures { IfOk result (λ file. option_map string_bytes file ≡ main_file (asked_by self.now)) }
    {
        if reads_file(self.command) {
            first_word(alloc, file_words(self.command, &self.words))
        } else {
            self.value(alloc, OptionName::File)
        }
    }
}
