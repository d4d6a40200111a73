// The drone's side of the parameter protocol.
ghost use Rattle.std.specs.Prelude.{◌≡◌, ◌<◌, [], length, map, position, Some, None, IfOk, IfErr, OnOk};
ghost use Rattle.mav_names.specs.Addresses.{is_for_node};
ghost use Rattle.param_proto.specs.Params.{normal};
ghost use Rattle.param_proto.specs.Server.{untyped, new_server, server_step, taken_from, next_answer, word_in};
ghost use Rattle.param_proto.specs.Server.{place_of, params_set, value_at, values_from, asked_for, value_set, serves};
ghost use Rattle.param_proto.specs.Server.{with_word};
ghost use Rattle.param_proto.specs.Faults.{shape_fault, fault_of, IsFault};
ghost use Rattle.param_proto.specs.Places.{IsIndex};

use crate::messages::value_of;
use crate::places::{Places, index_ids};
use crate::types::{clean, is_type, narrow, normalise};
use crate::{Param, ParamFault};
use mav_messages::{Message, ParamRequestRead, ParamSet};
use mav_names::{Name, is_for};
use std::alloc::Global;
use std::marker::Model;

// The most parameters of a server.
const MOST_PARAMS: usize = 1_000;

/// A list of parameters with distinct ids, and the answers to the latest message that weren't taken yet. Its types are
/// the integers of at most 32 bits, 1 to 6, and REAL32, 9 (MAVLink common messages, MAV_PARAM_TYPE). The answers are
/// the values from one index up to another.
#[derive(Drop)]
pub struct ParamServer {
    params: Vec<Param>,
    places: Places,
    next: usize,
    end: usize,
}

impl Model for ParamServer {
    ghost use Rattle.param_proto.specs.Server.{ServerState};

    ghost Value = { ServerState };

    ghost use Rattle.param_proto.specs.ServerView.{server_view, IsServer};

    ghost view = { server_view };

    ghost invariant = { IsServer };
}

fn first_untyped(params: &[Param]) -> Option<usize>
    ensures { result ≡ position untyped params.now }
{
    params.iter().position(|param| !is_type(param.ty))
}

// Whether a message with these target fields is for this node.
fn is_for_me(me: Name, sys: u8, comp: u8) -> bool
    ensures { result ≡ is_for_node me (record { sys = sys; comp = comp }) }
{
    is_for(me, Name { sys, comp })
}

// Too many, or the first whose type is none.
fn check_shape(params: &[Param]) -> Result<(), ParamFault>
    ensures none { OnOk result (shape_fault params.now ≡ None) }
    ensures fault { IfErr result (λ fault. shape_fault params.now ≡ Some fault) }
{
    if params.len() > MOST_PARAMS {
        return Err(ParamFault::TooMany {
            count: params.len(),
        });
    }
    match first_untyped(params) {
        Some(at) => Err(ParamFault::BadType { at }),
        None => Ok(()),
    }
}

// The indices of the ids, if there is no fault.
fn check_list(alloc: Global, params: &[Param]) -> Result<Places, ParamFault>
    ensures places { IfOk result (λ places. IsIndex places.entries params.now) }
    ensures none { OnOk result (fault_of params.now ≡ None) }
    ensures fault { IfErr result (λ fault. IsFault params.now fault) }
{
    check_shape(params)?;
    index_ids(alloc, params)
}

// The value after a request, which a parameter takes if it has its own type.
fn word_after(param: &Param, request: &ParamSet) -> u32
    ensures { record param.now { word = result } ≡ with_word param.now request.now }
{
    if param.ty == request.param_type {
        narrow(param.ty, request.param_value)
    } else {
        param.word
    }
}

fn normalise_all(params: &mut [Param])
    ensures { params.new ≡ map normal params.old }
{
    for param in params.iter_mut() {
        *param = normalise(*param);
    }
}

impl ParamServer {
    /// A server of these parameters, whose ids and words it normalises: bytes after an id's first zero byte, and those
    /// past the width of a type, are taken as zeros. Takes the memory for the ids.
    pub fn new(alloc: Global, list: Vec<Param>) -> Result<ParamServer, ParamFault>
        ensures server { IfOk result (λ s. s ≡ new_server list.items) }

        // It is refused exactly if there is a fault, with the first.
        ensures accepted { OnOk result (fault_of list.items ≡ None) }
        ensures fault { IfErr result (λ fault. IsFault list.items fault) }
    {
        let places = check_list(alloc, &list)?;
        let mut params = list;
        normalise_all(&mut params);
        Ok(ParamServer {
            params,
            places,
            next: 0,
            end: 0,
        })
    }

    // The index of an id.
    fn place(&self, id: &[u8; 16]) -> Option<usize>
        ensures { result ≡ place_of self.now.params id.now }
    {
        let at = self.places.get(&clean(id))?;
        Some(usize::from(*at))
    }

    /// The value that an id has now; None if there is no such id.
    pub fn word(&self, id: &[u8; 16]) -> Option<u32>
        ensures { result ≡ word_in self.now.params (place_of self.now.params id.now) }
    {
        let at = self.place(id)?;
        let param = self.params.get(at)?;
        Some(param.word)
    }

    // What waits are the values from one index up to another.
    fn answer_all(&mut self)
        ensures { self.new ≡ serves self.old.params (values_from (length self.old.params) 0 self.old.params) }
    {
        self.next = 0;
        self.end = self.params.len();
    }

    fn answer_none(&mut self)
        ensures { self.new ≡ serves self.old.params [] }
    {
        self.next = 0;
        self.end = 0;
    }

    fn answer(&mut self, at: usize)
        ensures { self.new ≡ serves self.old.params (value_at self.old.params (Some at)) }
    {
        if at < self.params.len() {
            self.next = at;
            self.end = at + 1;
        } else {
            self.answer_none();
        }
    }

    fn read(&mut self, request: &ParamRequestRead)
        ensures { self.new ≡ serves self.old.params (asked_for self.old.params request.now request.now.param_index) }
    {
        let index = request.param_index;
        if index >= 0 {
            return self.answer(index as usize);
        }
        if index < -1 {
            return self.answer_none();
        }
        match self.place(&request.param_id) {
            Some(at) => self.answer(at),
            None => self.answer_none(),
        }
    }

    fn write(&mut self, at: usize, request: &ParamSet)
        requires { at < length self.old.params }
        ensures { self.new.params ≡ params_set self.old.params request.now (Some at) }
    {
        let word = word_after(&self.params[at], request);
        self.params[at].word = word;
    }

    fn set(&mut self, request: &ParamSet)
        ensures { self.new ≡ value_set self.old request.now (place_of self.old.params request.now.param_id) }
    {
        match self.place(&request.param_id) {
            Some(at) => {
                self.write(at, request);
                self.answer(at);
            }
            None => self.answer_none(),
        }
    }

    /// One message, for the node that the server is part of. Answers that still wait are dropped.
    pub fn step(&mut self, me: Name, msg: &Message)
        ensures { self.new ≡ server_step self.old me msg.now }
    {
        match msg {
            Message::ParamRequestRead(m) if is_for_me(me, m.target_system, m.target_component) => {
                self.read(m)
            }
            Message::ParamRequestList(m) if is_for_me(me, m.target_system, m.target_component) => {
                self.answer_all()
            }
            Message::ParamSet(m) if is_for_me(me, m.target_system, m.target_component) => self.set(
                m,
            ),
            _ => self.answer_none(),
        }
    }

    /// The next answer that waits.
    pub fn take(&mut self) -> Option<Message>
        ensures message { result ≡ next_answer self.old.waiting }
        ensures server { self.new ≡ taken_from self.old }
    {
        if self.next == self.end {
            return None;
        }
        let at = self.next;
        self.next = at + 1;
        Some(value_of(self.params.len() as u16, at as u16, self.params[at]))
    }
}
