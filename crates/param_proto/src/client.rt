// The station's side of the parameter protocol.
ghost use Rattle.std.specs.Prelude.{◌≡◌, ◌<◌, IsTrue, Some, None, is_some, IfOk, OnOk, OnErr};
ghost use Rattle.param_proto.specs.Client.{new_client, begun, reads, sets, lists, listed, one_comes, value_comes};
ghost use Rattle.param_proto.specs.Client.{client_step, client_tick, known_values, request_of};
ghost use Rattle.param_proto.specs.Views.{task_view, operation_view};
ghost use Rattle.param_proto.specs.Ends.{end_told, tick_told};

use crate::messages::{NO_ID, list_of, param_in, read_of, set_of};
use crate::operations::{OpenOperation, Task};
use crate::types::is_same_id;
use crate::values::Values;
use crate::{NoMemory, Param, ParamBusy, ParamEnd, ParamTick};
use mav_messages::{Message, ParamValue};
use mav_names::{Name, Stream, is_same_stream};
use std::alloc::Global;
use std::marker::Model;

// The ticks in a row after which an operation is given up.
const IDLE_LIMIT: u8 = 5;

/// A client of one drone's server at a time: it reads or sets one parameter, or lists all. What it asks is asked again
/// at each tick that brought nothing, up to a limit (MAVLink guide, Parameter Protocol).
#[derive(Drop)]
pub struct ParamClient {
    me: Name,
    values: Values,
    operation: Option<OpenOperation>,
}

impl Model for ParamClient {
    ghost use Rattle.param_proto.specs.Client.{ClientState};

    ghost Value = { ClientState };

    ghost use Rattle.param_proto.specs.ClientView.{client_view, IsWaiting};

    ghost view = { client_view };

    ghost invariant = { λ c. IsWaiting c.operation };
}

impl ParamClient {
    /// Takes the memory for all values that a list can have.
    pub fn new(alloc: Global, me: Name) -> Result<ParamClient, NoMemory>
        ensures { IfOk result (λ c. c ≡ new_client me) }
    {
        let values = Values::new(alloc)?;
        Ok(ParamClient {
            me,
            values,
            operation: None,
        })
    }

    /// The values of the latest list, from index 0 up to the first that wasn't taken.
    pub fn got(&self) -> &[Param]
        ensures { result.now ≡ known_values self.now.values }
    {
        self.values.got()
    }

    fn begin(&mut self, drone: Stream, task: Task)
        ensures { self.new ≡ record self.old { operation = Some (begun drone (task_view task)) } }
    {
        self.operation = Some(OpenOperation {
            drone,
            task,
            idle: 0,
        });
    }

    fn is_busy(&self) -> bool
        ensures { result ≡ is_some self.now.operation }
    {
        self.operation.is_some()
    }

    /// Asks for the value of an id.
    pub fn read(&mut self, drone: Stream, id: [u8; 16]) -> Result<Message, ParamBusy>
        ensures client { OnOk result (self.new ≡ (reads self.old drone id).client) }
        ensures message { IfOk result (λ m. Some m ≡ (reads self.old drone id).answer) }

        // It is refused exactly if an operation is open.
        ensures free { OnOk result (self.old.operation ≡ None) }
        ensures busy { OnErr result (IsTrue (is_some self.old.operation)) }
        ensures err { OnErr result (self.new ≡ self.old) }
    {
        if self.is_busy() {
            return Err(ParamBusy);
        }
        self.begin(drone, Task::Read(id));
        Ok(read_of(drone, id, -1))
    }

    /// Asks that a parameter takes a value.
    pub fn set(&mut self, drone: Stream, param: Param) -> Result<Message, ParamBusy>
        ensures client { OnOk result (self.new ≡ (sets self.old drone param).client) }
        ensures message { IfOk result (λ m. Some m ≡ (sets self.old drone param).answer) }

        // It is refused exactly if an operation is open.
        ensures free { OnOk result (self.old.operation ≡ None) }
        ensures busy { OnErr result (IsTrue (is_some self.old.operation)) }
        ensures err { OnErr result (self.new ≡ self.old) }
    {
        if self.is_busy() {
            return Err(ParamBusy);
        }
        self.begin(drone, Task::Set(param));
        Ok(set_of(drone, param))
    }

    /// Asks for all values. Those of an earlier list are forgotten.
    pub fn list(&mut self, drone: Stream) -> Result<Message, ParamBusy>
        ensures client { OnOk result (self.new ≡ (lists self.old drone).client) }
        ensures message { IfOk result (λ m. Some m ≡ (lists self.old drone).answer) }

        // It is refused exactly if an operation is open.
        ensures free { OnOk result (self.old.operation ≡ None) }
        ensures busy { OnErr result (IsTrue (is_some self.old.operation)) }
        ensures err { OnErr result (self.new ≡ self.old) }
    {
        if self.is_busy() {
            return Err(ParamBusy);
        }
        self.values.clear();
        self.begin(drone, Task::List);
        Ok(list_of(drone))
    }

    // A value for a read or set.
    fn one(&mut self, id: &[u8; 16], value: &ParamValue) -> Option<ParamEnd>
        ensures client { self.new ≡ (one_comes self.old id.now value.now).client }
        ensures end { result ≡ end_told (one_comes self.old id.now value.now).end }
    {
        if !is_same_id(&value.param_id, id) {
            return None;
        }
        self.operation = None;
        Some(ParamEnd::One(param_in(value)))
    }

    // The list ends if all values below the count were taken.
    fn end_list(&mut self, operation: OpenOperation, count: u16) -> Option<ParamEnd>
        requires { operation.idle < 5 }
        ensures client { self.new ≡ (listed self.old (operation_view operation) count self.old.values).client }
        ensures end { result ≡ end_told (listed self.old (operation_view operation) count self.old.values).end }
    {
        if usize::from(count) > self.values.known() {
            self.operation = Some(operation);
            return None;
        }
        self.values.cut(count);
        self.operation = None;
        Some(ParamEnd::All(count))
    }

    // A value for a list.
    fn listed(&mut self, operation: OpenOperation, value: &ParamValue) -> Option<ParamEnd>
        requires { operation.idle < 5 }
        ensures client { self.new ≡ (value_comes self.old (operation_view operation) value.now).client }
        ensures end { result ≡ end_told (value_comes self.old (operation_view operation) value.now).end }
    {
        if value.param_count == 0 {
            return self.end_list(operation, 0);
        }
        if value.param_index >= value.param_count {
            return None;
        }
        let idle = if self.values.was_taken(value.param_index) {
            operation.idle
        } else {
            0
        };
        self.values.put(value.param_index, param_in(value));
        self.end_list(OpenOperation { idle, ..operation }, value.param_count)
    }

    /// One message of a stream, and what ends with it, if anything.
    pub fn step(&mut self, from: Stream, msg: &Message) -> Option<ParamEnd>
        ensures client { self.new ≡ (client_step self.old from msg.now).client }
        ensures end { result ≡ end_told (client_step self.old from msg.now).end }
    {
        let Message::ParamValue(value) = msg else {
            return None;
        };
        let open = self.operation?;
        if !is_same_stream(open.drone, from) {
            return None;
        }
        match open.task {
            Task::Read(id) => self.one(&id, value),
            Task::Set(param) => self.one(&param.id, value),
            Task::List => self.listed(open, value),
        }
    }

    // What the operation asks.
    fn request(&self, drone: Stream, task: Task) -> Message
        ensures { result ≡ request_of drone (task_view task) self.now.values }
    {
        match task {
            Task::Read(id) => read_of(drone, id, -1),
            Task::Set(param) => set_of(drone, param),
            Task::List => {
                if self.values.asks_all() {
                    list_of(drone)
                } else {
                    read_of(drone, NO_ID, self.values.known() as i16)
                }
            }
        }
    }

    /// One tick. The fifth in a row ends the operation; in a list they count anew at each value for an index of which
    /// none was taken before.
    pub fn tick(&mut self) -> ParamTick
        ensures client { self.new ≡ (client_tick self.old).client }
        ensures told { result ≡ tick_told (client_tick self.old).end (client_tick self.old).answer }
    {
        let Some(open) = self.operation else {
            return ParamTick::Quiet;
        };
        let idle = open.idle + 1;
        if idle >= IDLE_LIMIT {
            self.operation = None;
            return ParamTick::NoAnswer(IDLE_LIMIT);
        }
        self.operation = Some(OpenOperation { idle, ..open });
        ParamTick::Again(self.request(open.drone, open.task))
    }
}
