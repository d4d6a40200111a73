// What the plain words of a line say.
ghost use Rattle.std.specs.Prelude.{◌≡◌, ◌≤◌, ◌∷◌, [], Some, None, map, string_bytes, IfOk, IfSome};
ghost use Rattle.std.specs.Fmt.{decimal};
ghost use Rattle.command_line.specs.PortTexts.{IsRead, port_text};
ghost use Rattle.command_line.specs.Lines.{is_one_file, are_ports, is_one_number, NumberRead, PlainRead};

use crate::commands::Command;
use crate::forms::is_some_text;
use crate::nodes::{read_drone, read_station};
use crate::numbers::number;
use crate::operations::Task;
use crate::ports::{Port, read_ports};
use std::alloc::{AllocError, Global};

/// The ports, the number of a command that has one, the system of a drone or a station, and what a station is told; no
/// ports, 0, 0 and None for a command that has no such words.
#[derive(Drop)]
pub(crate) struct Values {
    pub(crate) ports: Vec<Port>,
    pub(crate) number: u64,
    pub(crate) system: u8,
    pub(crate) task: Option<Task>,
}

fn without_ports(alloc: Global, number: u64) -> Values
    ensures ports { result.ports.items ≡ [] }
    ensures number { result.number ≡ number }
{
    Values {
        ports: Vec::new(alloc),
        number,
        system: 0,
        task: None,
    }
}

fn with_ports(ports: Vec<Port>) -> Values
    ensures ports { result.ports ≡ ports }
    ensures number { result.number ≡ 0 }
{
    Values {
        ports,
        number: 0,
        system: 0,
        task: None,
    }
}

// One word, which isn't empty.
fn is_one_file(words: &[String]) -> bool
    ensures { result ≡ is_one_file (map string_bytes words.now) }
{
    match words {
        [file] => is_some_text(file.as_str()),
        _ => false,
    }
}

// 1 to 8 ports.
fn router_ports(alloc: Global, words: &[String]) -> Result<Option<Vec<Port>>, AllocError>
    ensures { IfOk result (IsRead (λ ports. map port_text ports.items)
        (are_ports (map string_bytes words.now)) (map string_bytes words.now)) }
{
    if words.is_empty() || words.len() > 8 {
        return Ok(None);
    }
    read_ports(alloc, words)
}

// The number of `make`.
fn one_number(words: &[String]) -> Option<u64>
    ensures read { IsRead (λ n. decimal n ∷ []) (is_one_number (map string_bytes words.now))
        (map string_bytes words.now) result }
    ensures most { IfSome result (λ n. n ≤ 1_000_000) }
{
    match words {
        [word] => number(word.as_str(), 0, 1_000_000),
        _ => None,
    }
}

// The most that the system of `log filter` and the start of `log make` may be.
const MOST_SYSTEM: u64 = 255;

const LATEST_START: u64 = 4_000_000_000_000_000;

// A number, and the name of a file.
fn number_and_file(words: &[String], most: u64) -> Option<u64>
    ensures { NumberRead most (map string_bytes words.now) result }
{
    match words {
        [word, file] => {
            if !is_some_text(file.as_str()) {
                return None;
            }
            number(word.as_str(), 0, most)
        }
        _ => None,
    }
}

// A number that was read, without ports.
fn numbered(alloc: Global, number: Option<u64>) -> Option<Values>
    ensures none { result ≡ None → number ≡ None }
    ensures some { IfSome result (λ v. (number ≡ Some v.number) × (v.ports.items ≡ [])) }
{
    match number {
        Some(number) => Some(without_ports(alloc, number)),
        None => None,
    }
}

/// What the plain words of a command say, or None if they aren't of its form.
pub(crate) fn read_plain(
    alloc: Global,
    command: Command,
    file_given: bool,
    words: &[String],
) -> Result<Option<Values>, AllocError>
    ensures { IfOk result (PlainRead command file_given (map string_bytes words.now)) }
{
    match command {
        Command::Fleet | Command::Decode | Command::LogShow | Command::Fence
            if is_one_file(words) => { Ok(Some(without_ports(alloc, 0))) }
        Command::Dialect if words.is_empty() => Ok(Some(without_ports(alloc, 0))),
        Command::Route => match router_ports(alloc, words)? {
            Some(ports) => Ok(Some(with_ports(ports))),
            None => Ok(None),
        },
        Command::Drone => read_drone(alloc, words),
        Command::Station => read_station(alloc, file_given, words),
        Command::Make => Ok(numbered(alloc, one_number(words))),
        Command::LogFilter => Ok(numbered(alloc, number_and_file(words, MOST_SYSTEM))),
        Command::LogMake => Ok(numbered(alloc, number_and_file(words, LATEST_START))),
        _ => Ok(None),
    }
}
