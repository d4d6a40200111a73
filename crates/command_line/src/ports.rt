// The ports of a line.
ghost use Rattle.std.specs.Prelude.{◌≡◌, ◌∷◌, ◌++◌, ℕ, Bool, List, true, false, map, string_bytes, is_some, None};
ghost use Rattle.std.specs.Prelude.{IfOk, IfSome};
ghost use Rattle.std.specs.List.{list_all, list_any};
ghost use Rattle.std.specs.Option.{MatchOption};
ghost use Rattle.command_line.specs.Numbers.{number_in};
ghost use Rattle.command_line.specs.Ports.{is_colon, kind_word, files_word, open_word};
ghost use Rattle.command_line.specs.PortTexts.{IsRead, has_colon, before_colon, after_colon, is_part, kind_named};
ghost use Rattle.command_line.specs.PortTexts.{files_named};
ghost use Rattle.command_line.specs.PortTexts.{is_end, is_rest, is_port, is_marked, is_router_port, target_text};
ghost use Rattle.command_line.specs.PortTexts.{port_text};

use crate::forms::is_some_text;
use crate::numbers::number;
use std::alloc::{AllocError, Global};

/// What a socket does.
#[derive(Clone, Copy)]
pub enum SocketKind {
    /// Connects by TCP.
    Tcp,
    /// Takes one TCP connection.
    Listen,
    /// Exchanges datagrams with one peer.
    Udp,
    /// Replies to its latest sender.
    UdpListen,
}

/// A socket, at a host and the number of a port there, 1 to 65,535.
#[derive(Drop)]
pub struct Socket {
    pub kind: SocketKind,
    pub host: String,
    pub number: u16,
}

/// What a file that is read holds.
#[derive(Clone, Copy)]
pub enum FilesKind {
    /// The bytes of a link.
    File,
    /// A telemetry log, whose frames are played.
    Replay,
}

/// The names of a file that is read and of one that is written.
#[derive(Drop)]
pub struct Files {
    pub kind: FilesKind,
    pub input: String,
    pub output: String,
}

/// Where the packets of a link come from and go.
#[derive(Drop)]
pub enum Target {
    Socket(Socket),
    Files(Files),
}

/// A word PORT. An open port takes packets without a signature and packets of MAVLink 1 too.
#[derive(Drop)]
pub struct Port {
    pub is_open: bool,
    pub target: Target,
}

const KINDS: [SocketKind; 4] = [
    SocketKind::Tcp,
    SocketKind::Listen,
    SocketKind::Udp,
    SocketKind::UdpListen,
];

impl SocketKind {
    fn word(self) -> &'static str
        ensures { result.now ≡ kind_word self }
    {
        match self {
            SocketKind::Tcp => "tcp",
            SocketKind::Listen => "listen",
            SocketKind::Udp => "udp",
            SocketKind::UdpListen => "udplisten",
        }
    }
}

fn kind_named(word: &str) -> Option<SocketKind>
    ensures { result ≡ kind_named word.now }
{
    KINDS.iter().copied().find(|kind| word == kind.word())
}

const FILES_KINDS: [FilesKind; 2] = [FilesKind::File, FilesKind::Replay];

impl FilesKind {
    fn word(self) -> &'static str
        ensures { result.now ≡ files_word self }
    {
        match self {
            FilesKind::File => "file",
            FilesKind::Replay => "replay",
        }
    }
}

fn files_named(word: &str) -> Option<FilesKind>
    ensures { result ≡ files_named word.now }
{
    FILES_KINDS.iter().copied().find(|kind| word == kind.word())
}

// What comes before the first colon, and after it.
fn split_colon(word: &str) -> Option<(&str, &str)>
    ensures { MatchOption result (has_colon word.now ≡ false)
        (λ parts. (has_colon word.now ≡ true) × (parts.0.now ≡ before_colon word.now)
        × (parts.1.now ≡ after_colon word.now)) }
{
    word.split_once(':')
}

fn has_colon(part: &str) -> bool
    ensures { result ≡ list_any is_colon part.now }
{
    part.as_bytes().iter().any(|byte| *byte == b':')
}

// Not empty, and without a colon.
fn is_part(part: &str) -> bool
    ensures { result ≡ is_part part.now }
{
    is_some_text(part) && !has_colon(part)
}

fn read_socket(
    alloc: Global,
    kind: SocketKind,
    host: &str,
    end: &str,
) -> Result<Option<Target>, AllocError>
    ensures { IfOk result (IsRead target_text (is_some (number_in 1 65535 end.now))
        (kind_word kind ++ 58 ∷ (host.now ++ 58 ∷ end.now))) }
{
    let Some(number) = number(end, 1, 65_535) else {
        return Ok(None);
    };
    Ok(Some(Target::Socket(Socket {
        kind,
        host: String::from_str(alloc, host)?,
        number: number as u16,
    })))
}

fn read_files(
    alloc: Global,
    kind: FilesKind,
    input: &str,
    output: &str,
) -> Result<Option<Target>, AllocError>
    ensures { IfOk result (IsRead target_text (is_part output.now)
        (files_word kind ++ 58 ∷ (input.now ++ 58 ∷ output.now))) }
{
    if !is_part(output) {
        return Ok(None);
    }
    Ok(Some(Target::Files(Files {
        kind,
        input: String::from_str(alloc, input)?,
        output: String::from_str(alloc, output)?,
    })))
}

// A kind of files, and what is between two colons and after them.
fn read_named_files(
    alloc: Global,
    kind: &str,
    begin: &str,
    end: &str,
) -> Result<Option<Target>, AllocError>
    ensures { IfOk result (IsRead target_text (is_end None kind.now end.now)
        (kind.now ++ 58 ∷ (begin.now ++ 58 ∷ end.now))) }
{
    match files_named(kind) {
        Some(kind) => read_files(alloc, kind, begin, end),
        None => Ok(None),
    }
}

// A kind, and what is between two colons and after them.
fn read_parts(
    alloc: Global,
    kind: &str,
    begin: &str,
    end: &str,
) -> Result<Option<Target>, AllocError>
    ensures { IfOk result (IsRead target_text (is_end (kind_named kind.now) kind.now end.now)
        (kind.now ++ 58 ∷ (begin.now ++ 58 ∷ end.now))) }
{
    match kind_named(kind) {
        Some(kind) => read_socket(alloc, kind, begin, end),
        None => read_named_files(alloc, kind, begin, end),
    }
}

// A kind, and what comes after its colon.
fn read_rest(alloc: Global, kind: &str, rest: &str) -> Result<Option<Target>, AllocError>
    ensures { IfOk result (IsRead target_text (is_rest kind.now rest.now) (kind.now ++ 58 ∷ rest.now)) }
{
    let Some((begin, end)) = split_colon(rest) else {
        return Ok(None);
    };
    if !is_part(begin) {
        return Ok(None);
    }
    read_parts(alloc, kind, begin, end)
}

fn read_target(alloc: Global, word: &str) -> Result<Option<Target>, AllocError>
    ensures { IfOk result (IsRead target_text (is_port word.now) word.now) }
{
    match split_colon(word) {
        Some((kind, rest)) => read_rest(alloc, kind, rest),
        None => Ok(None),
    }
}

// What comes after `open:` at the start of a word.
fn after_mark(word: &str) -> Option<&str>
    ensures { MatchOption result (is_marked word.now ≡ false)
        (λ rest. (is_marked word.now ≡ true) × (rest.now ≡ after_colon word.now)) }
{
    match split_colon(word) {
        Some((mark, rest)) if mark == "open" => Some(rest),
        _ => None,
    }
}

fn port_at(is_open: bool, target: Option<Target>) -> Option<Port>
    ensures mark { IfSome result (λ p. p.is_open ≡ is_open) }
    ensures read { (passes : Bool) (word : List ℕ) → IsRead target_text passes word target
        → IsRead port_text passes (open_word is_open word) result }
{
    match target {
        Some(target) => Some(Port { is_open, target }),
        None => None,
    }
}

/// The port that the word is, which isn't open.
pub(crate) fn read_closed_port(alloc: Global, word: &str) -> Result<Option<Port>, AllocError>
    ensures read { IfOk result (IsRead port_text (is_port word.now) word.now) }
    ensures closed { IfOk result (λ port. IfSome port (λ p. p.is_open ≡ false)) }
{
    Ok(port_at(false, read_target(alloc, word)?))
}

/// The port of a router that the word is, with `open:` before it or not.
pub(crate) fn read_port(alloc: Global, word: &str) -> Result<Option<Port>, AllocError>
    ensures { IfOk result (IsRead port_text (is_router_port word.now) word.now) }
{
    match after_mark(word) {
        Some(rest) => Ok(port_at(true, read_target(alloc, rest)?)),
        None => Ok(port_at(false, read_target(alloc, word)?)),
    }
}

/// The ports that words are, or None if one of them isn't.
pub(crate) fn read_ports(alloc: Global, words: &[String]) -> Result<Option<Vec<Port>>, AllocError>
    ensures { IfOk result (IsRead (λ ports. map port_text ports.items)
        (list_all is_router_port (map string_bytes words.now)) (map string_bytes words.now)) }
{
    let mut ports = Vec::new(alloc);
    for word in words {
        match read_port(alloc, word.as_str())? {
            Some(port) => ports.push(port)?,
            None => return Ok(None),
        }
    }
    Ok(Some(ports))
}
