// Words are read from left to right.
ghost use Rattle.std.specs.Prelude.{◌≡◌, [], ◌∷◌, ◌++◌, List, ℕ, Some, None, OnOk, IfOk, IsErrOf, map, is_some};
ghost use Rattle.std.specs.Prelude.{string_bytes};
ghost use Rattle.command_line.specs.Built.{built};
ghost use Rattle.command_line.specs.Grammar.{Asks, AskNothing};
ghost use Rattle.command_line.specs.Lines.{given_of, asked_by, parts_of, with_rest, LineSays, LineNodeSays};
ghost use Rattle.command_line.specs.Pieces.{parts_at};

use crate::commands::OptionName;
use crate::faults::WantedFault;
use crate::forms::{fits, has_given};
use crate::lines::{Line, Setting};
use crate::numbers::number;
use crate::pieces::{Place, Sort, begun, is_dashed, joined_value, sort_of};
use crate::plain::read_plain;
use std::alloc::Global;

// The most that the number of an option may be.
const MOST_TURNS: u64 = 1_000_000_000;

/// What was read of the words after the command.
#[derive(Drop)]
struct Reader {
    alloc: Global,
    place: Place,
    settings: Vec<Setting>,
    words: Vec<String>,
}

impl Reader {
    fn new(alloc: Global) -> Reader
        ensures place { result.place ≡ Place.Anything }
        ensures settings { result.settings.items ≡ [] }
        ensures words { result.words.items ≡ [] }
    {
        Reader {
            alloc,
            place: Place::Anything,
            settings: Vec::new(alloc),
            words: Vec::new(alloc),
        }
    }

    fn set(&mut self, name: OptionName, value: &str) -> Result<(), WantedFault>
        ensures ok { OnOk result ((map given_of self.new.settings.items
            ≡ map given_of self.old.settings.items ++ (record { name = name; value = value.now }) ∷ [])
            × (self.new.words ≡ self.old.words) × (self.new.place ≡ Place.Anything)) }
        ensures not_usage { ¬ IsErrOf result WantedFault.Usage }
    {
        let number = number(value, 1, MOST_TURNS);
        let value = String::from_str(self.alloc, value)?;
        self.settings.push(Setting {
            name,
            value,
            number,
        })?;
        self.place = Place::Anything;
        Ok(())
    }

    fn keep(&mut self, word: &str) -> Result<(), WantedFault>
        ensures ok { OnOk result ((map string_bytes self.new.words.items
            ≡ map string_bytes self.old.words.items ++ word.now ∷ [])
            × (self.new.settings ≡ self.old.settings) × (self.new.place ≡ self.old.place)) }
        ensures not_usage { ¬ IsErrOf result WantedFault.Usage }
    {
        self.words.push(String::from_str(self.alloc, word)?)?;
        Ok(())
    }

    // A word where an option may come.
    fn sort(&mut self, word: &str) -> Result<(), WantedFault>
        requires { self.old.place ≡ Place.Anything }
        ensures taken { (rest : List (List ℕ)) → OnOk result (
            with_rest self.old.place self.old.settings.items self.old.words.items (word.now ∷ rest)
            ≡ with_rest self.new.place self.new.settings.items self.new.words.items rest) }
        ensures refused { (rest : List (List ℕ)) → IsErrOf result WantedFault.Usage
            → parts_at self.old.place (word.now ∷ rest) ≡ None }
    {
        match sort_of(word) {
            Sort::Plain => self.keep(word),
            Sort::Alone(name) => self.set(name, ""),
            Sort::Joined(name) => self.set(name, joined_value(word)),
            Sort::Dashes => {
                self.place = Place::Behind;
                Ok(())
            }
            Sort::Apart(name) => {
                self.place = Place::Value(name);
                Ok(())
            }
            Sort::Unknown => Err(WantedFault::Usage),
        }
    }

    fn take(&mut self, word: &str) -> Result<(), WantedFault>
        ensures taken { (rest : List (List ℕ)) → OnOk result (
            with_rest self.old.place self.old.settings.items self.old.words.items (word.now ∷ rest)
            ≡ with_rest self.new.place self.new.settings.items self.new.words.items rest) }
        ensures refused { (rest : List (List ℕ)) → IsErrOf result WantedFault.Usage
            → parts_at self.old.place (word.now ∷ rest) ≡ None }
    {
        match self.place {
            Place::Anything => self.sort(word),
            Place::Value(name) => {
                if is_dashed(word) {
                    return Err(WantedFault::Usage);
                }
                self.set(name, word)
            }
            Place::Behind => self.keep(word),
        }
    }

    // Takes words in order.
    fn take_all(&mut self, words: &[String]) -> Result<(), WantedFault>
        ensures taken { OnOk result (with_rest self.new.place self.new.settings.items self.new.words.items []
            ≡ with_rest self.old.place self.old.settings.items self.old.words.items (map string_bytes words.now)) }
        ensures refused { IsErrOf result WantedFault.Usage
            → with_rest self.old.place self.old.settings.items self.old.words.items (map string_bytes words.now)
            ≡ None }
    {
        for word in words {
            self.take(word.as_str())?;
        }
        Ok(())
    }

    // Whether no value is missing after the last word.
    fn is_whole(&self) -> bool
        ensures { result ≡ is_some (parts_at self.now.place []) }
    {
        match self.place {
            Place::Value(_) => false,
            Place::Anything | Place::Behind => true,
        }
    }
}

// Reads the words after the command.
fn read_behind(alloc: Global, words: &[String]) -> Result<Reader, WantedFault>
    ensures parts { IfOk result (λ r. parts_at Place.Anything (map string_bytes words.now)
        ≡ Some (parts_of r.settings.items r.words.items)) }
    ensures refused { IsErrOf result WantedFault.Usage
        → parts_at Place.Anything (map string_bytes words.now) ≡ None }
{
    let mut reader = Reader::new(alloc);
    reader.take_all(words)?;
    if reader.is_whole() {
        Ok(reader)
    } else {
        Err(WantedFault::Usage)
    }
}

/// What the words after the program's name ask for.
pub fn read(alloc: Global, words: &[String]) -> Result<Line, WantedFault>
    ensures asks { IfOk result (λ line. Asks built (map string_bytes words.now) (asked_by line)) }
    // What its plain words say.
    ensures says { IfOk result LineSays }
    // What those of `drone` and `station` say.
    ensures node { IfOk result LineNodeSays }
    ensures usage { IsErrOf result WantedFault.Usage → AskNothing built (map string_bytes words.now) }
{
    let Some((command, behind)) = begun(words) else {
        return Err(WantedFault::Usage);
    };
    let reader = read_behind(alloc, behind)?;
    let file_given = has_given(&reader.settings, OptionName::File);
    let Some(values) = read_plain(alloc, command, file_given, &reader.words)? else {
        return Err(WantedFault::Usage);
    };
    let line = Line {
        command,
        settings: reader.settings,
        words: reader.words,
        ports: values.ports,
        number: values.number,
        system: values.system,
        task: values.task,
    };
    if fits(&line) {
        Ok(line)
    } else {
        Err(WantedFault::Usage)
    }
}
