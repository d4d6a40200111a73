// The command `route`, with the key and the definitions that its line names.
ghost use Rattle.std.specs.Prelude.{◌≡◌, ◌≤◌, ◌-◌, if◌then◌else◌, true, false, slice_set, map, string_bytes, length};
ghost use Rattle.std.specs.Prelude.{IsErr, IsErrOf};
ghost use Rattle.std.specs.Result.{result_err};
ghost use Rattle.command_line.specs.Forms.{has_given};
ghost use Rattle.command_line.specs.Lines.{given_of, asked_by};
ghost use Rattle.command_line.specs.PortTexts.{port_text};
ghost use Rattle.route_command.specs.Routes.{RoutesBeforeStatus};
ghost use Rattle.route_command.specs.Routing.{Routing, router_of, open_ports};
ghost use Rattle.run_status.specs.Seen.{input_of, output_of, before_status_over};

use crate::{Router, route};
use command_inputs::{Inputs, read_given_key};
use command_line::{Line, OptionName, Port};
use dialect_command::known_messages;
use link_table::Ways;
use mav_links::Link;
use mav_ports::{Sink, Source};
use mav_router::RoutePlan;
use run_status::RunEnd;
use std::alloc::Global;

// The set with the port too, if it is open.
fn with_port(ways: Ways, port: u8, is_open: bool) -> Ways
    requires from { 1 ≤ port }
    requires to { port ≤ 8 }
    ensures { result ≡ (if is_open then slice_set ways (port - 1) true else ways) }
{
    if is_open { ways.with(port) } else { ways }
}

// The ports that are open.
fn open_ports(ports: &[Port]) -> Ways
    requires { length ports.now ≤ 8 }
    ensures { result ≡ open_ports (map port_text ports.now) }
{
    let mut ways = Ways::none();
    for at in 0..ports.len() {
        ways = with_port(ways, at as u8 + 1, ports[at].is_open);
    }
    ways
}

/// Routes between the ports by the router, on one thread if the line says so. Writes no status line.
pub fn run_route<T: Router, S: Source, K: Sink>(
    router: &T,
    alloc: Global,
    line: &Line,
    inputs: &mut Inputs<S>,
    ports: &mut Vec<Box<dyn Link>>,
    out: &mut K,
) -> Result<(), RunEnd>
    requires ready { T.ready }
    requires ports { map port_text line.now.ports.items ≡ map string_bytes line.now.words.items }
    requires from { 1 ≤ length (map string_bytes line.now.words.items) }
    requires to { length (map string_bytes line.now.words.items) ≤ 8 }
    requires links { length ports.old.items ≡ length (map string_bytes line.now.words.items) }
    ensures routed { Routing (has_given OptionName.Defs (map given_of line.now.settings.items))
        (before_status_over (output_of K.faults K.sent out.old out.new) (result_err result)) (IsErr result)
        (ports.new ≡ ports.old)
        (λ key known. RoutesBeforeStatus (router_of state
        (asked_by line.now) ports.old.items ports.new.items key known)
        (result_err result) (K.faults out.old) (K.faults out.new) (K.sent out.old) (K.sent out.new))
        (input_of S.has_ended S.faults S.idles S.left inputs.old.key inputs.new.key)
        (input_of S.has_ended S.faults S.idles S.left inputs.old.defs inputs.new.defs) }
    ensures unread_main { inputs.new.main ≡ inputs.old.main }
    ensures unread_defs { has_given OptionName.Defs (map given_of line.now.settings.items) ≡ false
        → inputs.new.defs ≡ inputs.old.defs }
    ensures sound { ¬ IsErrOf result RunEnd.WriteFault → K.faults out.new ≡ K.faults out.old }
{
    let key = read_given_key(&mut inputs.key)?;
    let known = known_messages(alloc, line, &mut inputs.defs)?;
    let plan = RoutePlan {
        one: line.has(OptionName::One),
        turns: line.turns(),
        plain: open_ports(&line.ports),
    };
    route(router, alloc, &key, &known, ports, plan, out)
}
