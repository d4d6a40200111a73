//! Worked examples of commands, parameters and flights, by computation from the definitions alone; and a file that is
//! transferred between both ends, which a test alone shows to succeed with ample memory. Nothing depends on it.
#![tactic(auto)]

#[cfg(test)]
mod files;

ghost use Rattle.test_services.specs.Commands.{WorkedCommands};
ghost use Rattle.test_services.specs.Params.{WorkedParams};
ghost use Rattle.test_services.specs.Flights.{WorkedFlights};

/// The examples of `specs/Commands.antt`, `specs/Params.antt` and `specs/Flights.antt`.
pub fn worked_services()
    ensures commands { WorkedCommands }
    ensures params { WorkedParams }
    ensures flights { WorkedFlights }
{}
