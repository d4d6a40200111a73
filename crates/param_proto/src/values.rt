// The values of a client's latest list.
ghost use Rattle.std.specs.Prelude.{◌≡◌, ◌-◌, ◌<◌, ◌≤◌, ◌++◌, ◌∷◌, [], length, take, replicate, slice_set, Some, None};
ghost use Rattle.std.specs.Prelude.{IfOk};
ghost use Rattle.param_proto.specs.Client.{known_values, with_value, was_taken, asks_all};
ghost use Rattle.param_proto.specs.Views.{leading};

use crate::{NoMemory, Param};
use std::alloc::Global;
use std::marker::Model;

// The most values: a PARAM_VALUE of index 65,535 isn't below its own count.
const MOST_VALUES: usize = 65_535;

// The greatest index that a request can name.
const GREATEST_INDEX: usize = 32_767;

// At an index of which no value was taken.
const BLANK: Param = Param {
    id: [0; 16],
    ty: 0,
    word: 0,
};

/// The values by their index, and at each index whether one was taken. `known` is the first index of which none was.
#[derive(Drop)]
pub struct Values {
    params: Vec<Param>,
    taken: Vec<bool>,
    known: usize,
}

impl Model for Values {
    ghost use Rattle.std.specs.Prelude.{◌≡◌, ◌≤◌, List, Option, length, vec_capacity};
    ghost use Rattle.param_proto.specs.declared.params.Param.{Param};

    ghost Value = { List (Option Param) };

    ghost use Rattle.param_proto.specs.Views.{values_view, leading};

    ghost view = { λ v. values_view v.taken.items v.params.items };

    ghost invariant = { λ v. (length v.taken.items ≡ length v.params.items) × (v.known ≡ leading v.taken.items)
        × (65535 ≤ vec_capacity v.params) × (65535 ≤ vec_capacity v.taken) };
}

// How many are true, one after another from the first on. So many as `from` are.
fn count_leading(taken: &[bool], from: usize) -> usize
    requires { from ≤ leading taken.now }
    ensures { result ≡ leading taken.now }
{
    let mut known = from;
    while known < taken.len() && taken[known] {
        known += 1;
    }
    known
}

impl Values {
    pub fn new(alloc: Global) -> Result<Values, NoMemory>
        ensures { IfOk result (λ v. v ≡ []) }
    {
        let params = Vec::with_capacity(alloc, MOST_VALUES)?;
        let taken = Vec::with_capacity(alloc, MOST_VALUES)?;
        Ok(Values {
            params,
            taken,
            known: 0,
        })
    }

    /// The values from index 0 up to the first that wasn't taken.
    pub fn got(&self) -> &[Param]
        ensures { result.now ≡ known_values self.now }
    {
        &self.params[..self.known]
    }

    /// How many these are.
    pub fn known(&self) -> usize
        ensures { result ≡ length (known_values self.now) }
    {
        self.known
    }

    /// Whether all are asked for, and not the first that wasn't taken.
    pub fn asks_all(&self) -> bool
        ensures { result ≡ asks_all self.now }
    {
        self.params.is_empty() || self.known > GREATEST_INDEX
    }

    pub fn was_taken(&self, index: u16) -> bool
        ensures { result ≡ was_taken self.now index }
    {
        let index = usize::from(index);
        index < self.taken.len() && self.taken[index]
    }

    pub fn clear(&mut self)
        ensures { self.new ≡ [] }
    {
        self.params.clear();
        self.taken.clear();
        self.known = 0;
    }

    /// Keeps the first of them, which were all taken.
    pub fn cut(&mut self, count: u16)
        requires { count ≤ length (known_values self.old) }
        ensures { self.new ≡ take count self.old }
    {
        let count = usize::from(count);
        self.params.truncate(count);
        self.taken.truncate(count);
        self.known = count;
    }

    // None is taken up to an index.
    fn pad(&mut self, index: usize)
        requires within { index < 65535 }
        requires past { length self.old ≤ index }
        ensures { self.new ≡ self.old ++ replicate (index - length self.old) None }
    {
        self.params.resize(index, BLANK).unwrap();
        self.taken.resize(index, false).unwrap();
    }

    fn push(&mut self, param: Param)
        requires { length self.old < 65535 }
        ensures { self.new ≡ self.old ++ Some param ∷ [] }
    {
        self.params.push_reserved(param);
        self.taken.push_reserved(true);
        self.known = count_leading(&self.taken, self.known);
    }

    fn replace(&mut self, index: usize, param: Param)
        requires { index < length self.old }
        ensures { self.new ≡ slice_set self.old index (Some param) }
    {
        self.params[index] = param;
        self.taken[index] = true;
        self.known = count_leading(&self.taken, self.known);
    }

    /// Takes a value. Indices that are skipped are padded, once each.
    pub fn put(&mut self, index: u16, param: Param)
        requires { index < 65535 }
        ensures { self.new ≡ with_value self.old index param }
    {
        let index = usize::from(index);
        if index < self.params.len() {
            self.replace(index, param);
        } else {
            self.pad(index);
            self.push(param);
        }
    }
}
