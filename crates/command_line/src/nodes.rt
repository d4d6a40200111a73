// The plain words of `drone` and `station`.
ghost use Rattle.std.specs.Prelude.{◌≡◌, true, false, map, string_bytes, IfOk};
ghost use Rattle.std.specs.Option.{MatchOption};
ghost use Rattle.command_line.specs.declared.commands.Command.{Command};
ghost use Rattle.command_line.specs.Numbers.{number_in};
ghost use Rattle.command_line.specs.Nodes.{task_in, OnePort};
ghost use Rattle.command_line.specs.PortTexts.{is_port};
ghost use Rattle.command_line.specs.Lines.{NodeRead, PlainRead};

use crate::numbers::number;
use crate::operations::{Task, read_operation};
use crate::plain::Values;
use crate::ports::{Port, read_closed_port};
use std::alloc::{AllocError, Global};

// A system or a component.
fn node(word: &str) -> Option<u8>
    ensures { result ≡ number_in 1 255 word.now }
{
    Some(number(word, 1, 255)? as u8)
}

// COMP DRONE OP..
fn read_task(
    alloc: Global,
    file_given: bool,
    component: &str,
    drone: &str,
    words: &[String],
) -> Result<Option<Task>, AllocError>
    ensures { IfOk result (λ task. task ≡ task_in file_given component.now drone.now (map string_bytes words.now)) }
{
    let Some(component) = node(component) else {
        return Ok(None);
    };
    let Some(drone) = node(drone) else {
        return Ok(None);
    };
    let Some(operation) = read_operation(alloc, words)? else {
        return Ok(None);
    };
    if file_given == operation.needs_file() {
        Ok(Some(Task {
            component,
            drone,
            operation,
        }))
    } else {
        Ok(None)
    }
}

// PORT, as a list of one port.
fn one_port(alloc: Global, word: &str) -> Result<Option<Vec<Port>>, AllocError>
    ensures { IfOk result (λ ports. MatchOption ports (is_port word.now ≡ false)
        (λ some. (is_port word.now ≡ true) × OnePort word.now some.items)) }
{
    let Some(port) = read_closed_port(alloc, word)? else {
        return Ok(None);
    };
    let mut ports = Vec::new(alloc);
    ports.push(port)?;
    Ok(Some(ports))
}

// SYS and PORT, beside a task that was read.
fn read_node(
    alloc: Global,
    system: &str,
    port: &str,
    task: Option<Task>,
) -> Result<Option<Values>, AllocError>
    ensures { IfOk result (NodeRead system.now port.now task) }
{
    let Some(system) = node(system) else {
        return Ok(None);
    };
    let Some(ports) = one_port(alloc, port)? else {
        return Ok(None);
    };
    Ok(Some(Values {
        ports,
        number: 0,
        system,
        task,
    }))
}

/// SYS PORT.
pub(crate) fn read_drone(alloc: Global, words: &[String]) -> Result<Option<Values>, AllocError>
    ensures { IfOk result (PlainRead Command.Drone false (map string_bytes words.now)) }
{
    let [system, port] = words else {
        return Ok(None);
    };
    read_node(alloc, system.as_str(), port.as_str(), None)
}

/// SYS COMP DRONE PORT OP..
pub(crate) fn read_station(
    alloc: Global,
    file_given: bool,
    words: &[String],
) -> Result<Option<Values>, AllocError>
    ensures { IfOk result (PlainRead Command.Station file_given (map string_bytes words.now)) }
{
    let [system, component, drone, port, operation @ ..] = words else {
        return Ok(None);
    };
    let Some(task) = read_task(
        alloc,
        file_given,
        component.as_str(),
        drone.as_str(),
        operation,
    )?
    else {
        return Ok(None);
    };
    read_node(alloc, system.as_str(), port.as_str(), Some(task))
}
