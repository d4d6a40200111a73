// What a word of a line has to be, and the reason against one that isn't.
ghost use Rattle.std.specs.Prelude.{◌≤◌, IfOk};

use crate::name_words::{kind, kind_or_all, name};
use crate::numbers::{integer, number, wire_word};
use crate::words::Words;
use crate::{Names, Reason, Role};
use mav_names::Name;
use plan_items::{Item, PlanKind};

impl Words<'_> {
    ghost use Rattle.std.specs.Prelude.{◌≡◌, ◌<◌};
    ghost use Rattle.scenario_lines.specs.Readings.{whole, signed, signed_or_zero, wire, wire_or_zero, named};
    ghost use Rattle.scenario_lines.specs.Readings.{plan_kind, plan_kind_or_all, read_item};
    ghost use Rattle.scenario_lines.specs.LineContext.{has_name, has_drone, has_station};

    /// A whole number from `low` to `high`, in decimal without leading zeros; else the reason is `number`.
    pub fn whole(&self, index: usize, low: u64, high: u64) -> Result<u64, Reason>
        ensures exact { result ≡ whole self.now index low high }
        ensures least { IfOk result (λ n. low ≤ n) }
        ensures most { IfOk result (λ n. n ≤ high) }
    {
        number(self.at(index), low, high).ok_or(Reason::Number)
    }

    /// A whole number of 32 bits; else the reason is `number`.
    pub fn signed(&self, index: usize) -> Result<i32, Reason>
        ensures { result ≡ signed self.now index }
    {
        integer(self.at(index)).ok_or(Reason::Number)
    }

    pub(crate) fn signed_or_zero(&self, index: usize) -> Result<i32, Reason>
        ensures { result ≡ signed_or_zero self.now index }
    {
        if index < self.len() {
            self.signed(index)
        } else {
            Ok(0)
        }
    }

    /// Eight hexadecimal digits.
    pub(crate) fn wire(&self, index: usize) -> Result<u32, Reason>
        ensures { result ≡ wire self.now index }
    {
        wire_word(self.at(index)).ok_or(Reason::Hex)
    }

    pub(crate) fn wire_or_zero(&self, index: usize) -> Result<u32, Reason>
        ensures { result ≡ wire_or_zero self.now index }
    {
        if index < self.len() {
            self.wire(index)
        } else {
            Ok(0)
        }
    }

    pub(crate) fn kind(&self, index: usize) -> Result<PlanKind, Reason>
        ensures { result ≡ plan_kind self.now index }
    {
        kind(self.at(index)).ok_or(Reason::Kind)
    }

    pub(crate) fn kind_or_all(&self, index: usize) -> Result<Option<PlanKind>, Reason>
        ensures { result ≡ plan_kind_or_all self.now index }
    {
        kind_or_all(self.at(index)).ok_or(Reason::Kind)
    }

    /// The node that the word at `index` names, in any role.
    pub(crate) fn node<N: Names>(&self, index: usize, nodes: &N) -> Result<Name, Reason>
        ensures { result ≡ named (has_name (N.known nodes.now)) self.now index }
    {
        match name(self.at(index)) {
            Some(name) if nodes.has_name(name) => Ok(name),
            _ => Err(Reason::Node),
        }
    }

    pub(crate) fn drone<N: Names>(&self, index: usize, nodes: &N) -> Result<Name, Reason>
        ensures { result ≡ named (has_drone (N.known nodes.now)) self.now index }
    {
        match name(self.at(index)) {
            Some(name) if nodes.has_in_role(Role::Drone, name) => Ok(name),
            _ => Err(Reason::Node),
        }
    }

    pub(crate) fn station<N: Names>(&self, index: usize, nodes: &N) -> Result<Name, Reason>
        ensures { result ≡ named (has_station (N.known nodes.now)) self.now index }
    {
        match name(self.at(index)) {
            Some(name) if nodes.has_in_role(Role::Station, name) => Ok(name),
            _ => Err(Reason::Node),
        }
    }

    /// The item whose frame is the word at `index`.
    pub(crate) fn item(&self, index: usize) -> Result<Item, Reason>
        requires { index < 100 }
        ensures { result ≡ read_item self.now index }
    {
        let frame = self.whole(index, 0, 255)? as u8;
        let command = self.whole(index + 1, 0, 65535)? as u16;
        let x = self.signed(index + 2)?;
        let y = self.signed(index + 3)?;
        let z = self.wire_or_zero(index + 4)?;
        let p1 = self.wire_or_zero(index + 5)?;
        let p2 = self.wire_or_zero(index + 6)?;
        let p3 = self.wire_or_zero(index + 7)?;
        let p4 = self.wire_or_zero(index + 8)?;
        Ok(Item {
            frame,
            command,
            current: 0,
            autocontinue: 1,
            p: [p1, p2, p3, p4],
            x,
            y,
            z,
        })
    }
}
