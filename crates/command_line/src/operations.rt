// What a station does, and how its words are read.
ghost use Rattle.std.specs.Prelude.{◌≡◌, ◌≤◌, ◌++◌, map, length, drop, string_bytes, option_map, IfOk};
ghost use Rattle.std.specs.List.{list_all};
ghost use Rattle.command_line.specs.Numbers.{number_in, is_digit, is_visible};
ghost use Rattle.command_line.specs.OperationTexts.{plan_word, plan_named, cleared_named, is_wire, wire_in};
ghost use Rattle.command_line.specs.OperationTexts.{padded, is_parameter, parameter_in, order_of, setting_of};
ghost use Rattle.command_line.specs.OperationTexts.{file_named};
ghost use Rattle.command_line.specs.OperationTexts.{two_words, three_words, five_words, operation_in, needs_file};
ghost use Rattle.command_line.specs.OperationTexts.{is_on_files};

use crate::numbers::number;
use field_layout::Label;
use std::alloc::{AllocError, Global};

/// A kind of plan.
#[derive(Clone, Copy)]
pub enum PlanWord {
    Mission,
    Fence,
    Rally,
}

/// What a station does with its drone.
#[derive(Drop)]
pub enum Operation {
    Upload(PlanWord),
    Get(PlanWord),
    /// All kinds if none is named.
    Clear(Option<PlanWord>),
    /// A command with its first parameter, a word of 32 bits.
    Command {
        number: u16,
        word: u32,
    },
    ParamList,
    /// The parameter of this id, with zeros after it.
    ParamRead {
        id: [u8; 16],
    },
    /// Its type and its four bytes, in wire order.
    ParamSet {
        id: [u8; 16],
        kind: u8,
        word: [u8; 4],
    },
    FileList,
    /// The file of this name on the drone, which is any word.
    FileGet(Label),
    FilePut(Label),
    FileRemove(Label),
}

/// What a station is told beside its system and its port.
#[derive(Drop)]
pub struct Task {
    pub component: u8,
    /// The system of its drone.
    pub drone: u8,
    pub operation: Operation,
}

const PLANS: [PlanWord; 3] = [PlanWord::Mission, PlanWord::Fence, PlanWord::Rally];

impl PlanWord {
    fn word(self) -> &'static str
        ensures { result.now ≡ plan_word self }
    {
        match self {
            PlanWord::Mission => "mission",
            PlanWord::Fence => "fence",
            PlanWord::Rally => "rally",
        }
    }
}

impl Operation {
    /// Whether it takes a file of this machine.
    pub(crate) fn needs_file(&self) -> bool
        ensures { result ≡ needs_file self.now }
    {
        matches!(self, Operation::Upload(_) | Operation::FilePut(_))
    }

    /// Whether it is one on the files of a drone.
    pub fn is_on_files(&self) -> bool
        ensures { result ≡ is_on_files self.now }
    {
        matches!(
            self,
            Operation::FileList
                | Operation::FileGet(_)
                | Operation::FilePut(_)
                | Operation::FileRemove(_)
        )
    }
}

fn plan_named(word: &str) -> Option<PlanWord>
    ensures { result ≡ plan_named word.now }
{
    PLANS.iter().copied().find(|kind| word == kind.word())
}

// The kind of a clear, which may be `all`.
fn cleared_named(word: &str) -> Option<Option<PlanWord>>
    ensures { result ≡ cleared_named word.now }
{
    if word == "all" {
        return Some(None);
    }
    Some(Some(plan_named(word)?))
}

fn is_digit(byte: u8) -> bool
    ensures { result ≡ is_digit byte }
{
    matches!(byte, b'0'..=b'9' | b'A'..=b'F' | b'a'..=b'f')
}

fn all_digits(bytes: &[u8]) -> bool
    ensures { result ≡ list_all is_digit bytes.now }
{
    bytes.iter().all(|byte| is_digit(*byte))
}

fn is_wire(word: &str) -> bool
    ensures { result ≡ is_wire word.now }
{
    if word.len() == 8 {
        all_digits(word.as_bytes())
    } else {
        false
    }
}

// Eight hexadecimal digits, the highest first.
fn wire(word: &str) -> Option<u32>
    ensures { result ≡ wire_in word.now }
{
    if !is_wire(word) {
        return None;
    }
    u32::from_str_radix(word, 16).ok()
}

fn is_visible(byte: u8) -> bool
    ensures { result ≡ is_visible byte }
{
    matches!(byte, 0x21..=0x7E)
}

fn all_visible(bytes: &[u8]) -> bool
    ensures { result ≡ list_all is_visible bytes.now }
{
    bytes.iter().all(|byte| is_visible(*byte))
}

fn is_parameter(id: &[u8]) -> bool
    ensures { result ≡ is_parameter id.now }
{
    if 1 <= id.len() && id.len() <= 16 {
        all_visible(id)
    } else {
        false
    }
}

// Writes an id at the start.
fn fill(bytes: &mut [u8; 16], id: &[u8])
    requires { length id.now ≤ 16 }
    ensures { bytes.new ≡ id.now ++ drop (length id.now) bytes.old }
{
    bytes[..id.len()].copy_from_slice(id);
}

fn padded(id: &[u8]) -> [u8; 16]
    requires { length id.now ≤ 16 }
    ensures { result ≡ padded id.now }
{
    let mut bytes = [0; 16];
    fill(&mut bytes, id);
    bytes
}

// The id of a parameter, with zeros after it.
fn parameter(word: &str) -> Option<[u8; 16]>
    ensures { result ≡ parameter_in word.now }
{
    let id = word.as_bytes();
    if is_parameter(id) {
        Some(padded(id))
    } else {
        None
    }
}

fn order(first: &str, second: &str) -> Option<Operation>
    ensures { result ≡ order_of (number_in 0 65535 first.now) (wire_in second.now) }
{
    let number = number(first, 0, 65_535)?;
    let word = wire(second)?;
    Some(Operation::Command {
        number: number as u16,
        word,
    })
}

fn setting(id: &str, kind: &str, word: &str) -> Option<Operation>
    ensures { result ≡ setting_of (parameter_in id.now) (number_in 0 255 kind.now) (wire_in word.now) }
{
    let id = parameter(id)?;
    let kind = number(kind, 0, 255)?;
    let word = wire(word)?;
    Some(Operation::ParamSet {
        id,
        kind: kind as u8,
        word: word.to_be_bytes(),
    })
}

fn two_words(name: &str, word: &str) -> Option<Operation>
    ensures { result ≡ two_words name.now word.now }
{
    if name == "upload" {
        return Some(Operation::Upload(plan_named(word)?));
    }
    if name == "get" {
        return Some(Operation::Get(plan_named(word)?));
    }
    if name == "clear" {
        return Some(Operation::Clear(cleared_named(word)?));
    }
    if name == "param" && word == "list" {
        return Some(Operation::ParamList);
    }
    if name == "file" && word == "list" {
        return Some(Operation::FileList);
    }
    None
}

fn label(alloc: Global, word: &str) -> Result<Label, AllocError>
    ensures { IfOk result (λ label. label ≡ word.now) }
{
    Ok(Label::new(word.as_bytes().to_vec(alloc)?))
}

// What is done with the file of a name on the drone.
fn file_named(alloc: Global, way: &str, name: &str) -> Result<Option<Operation>, AllocError>
    ensures { IfOk result (λ operation. operation ≡ file_named way.now name.now) }
{
    if way == "get" {
        return Ok(Some(Operation::FileGet(label(alloc, name)?)));
    }
    if way == "put" {
        return Ok(Some(Operation::FilePut(label(alloc, name)?)));
    }
    if way == "remove" {
        return Ok(Some(Operation::FileRemove(label(alloc, name)?)));
    }
    Ok(None)
}

fn reading(id: &str) -> Option<Operation>
    ensures { result ≡ option_map Operation.ParamRead (parameter_in id.now) }
{
    Some(Operation::ParamRead { id: parameter(id)? })
}

fn three_words(
    alloc: Global,
    name: &str,
    first: &str,
    second: &str,
) -> Result<Option<Operation>, AllocError>
    ensures { IfOk result (λ operation. operation ≡ three_words name.now first.now second.now) }
{
    if name == "command" {
        return Ok(order(first, second));
    }
    if name == "param" && first == "read" {
        return Ok(reading(second));
    }
    if name == "file" {
        return file_named(alloc, first, second);
    }
    Ok(None)
}

fn five_words(name: &str, way: &str, id: &str, kind: &str, word: &str) -> Option<Operation>
    ensures { result ≡ five_words name.now way.now id.now kind.now word.now }
{
    if name == "param" && way == "set" {
        return setting(id, kind, word);
    }
    None
}

/// The operation that words are, if they are one.
pub(crate) fn read_operation(
    alloc: Global,
    words: &[String],
) -> Result<Option<Operation>, AllocError>
    ensures { IfOk result (λ operation. operation ≡ operation_in (map string_bytes words.now)) }
{
    match words {
        [name, word] => Ok(two_words(name.as_str(), word.as_str())),
        [name, first, second] => {
            three_words(alloc, name.as_str(), first.as_str(), second.as_str())
        }
        [name, way, id, kind, word] => Ok(five_words(
            name.as_str(),
            way.as_str(),
            id.as_str(),
            kind.as_str(),
            word.as_str(),
        )),
        _ => Ok(None),
    }
}
