// How names, kinds and causes are written.
ghost use Rattle.std.specs.Prelude.{◌≡◌, Some};
ghost use Rattle.fleet_report.specs.Texts.{name_text, kind_text, location_text, refusal_text, code_of, result_text};

use mav_names::Name;
use mav_sign::Admit;
use plan_items::PlanKind;
use plan_upload::OpFault;
use std::fmt;

/// A node, as `1.190`.
#[derive(Drop)]
pub(crate) struct NameText(pub(crate) Name);

impl fmt::Display for NameText {
    ghost output = { λ text. Some (name_text text.0) };

    fn fmt<W: fmt::Write>(&self, f: &mut fmt::Formatter<W>) -> fmt::Result {
        write!(f, "{}.{}", self.0.sys, self.0.comp)
    }
}

/// A location, in units of 1e-7 degrees.
#[derive(Drop)]
pub(crate) struct LocationText(pub(crate) i32, pub(crate) i32);

impl fmt::Display for LocationText {
    ghost output = { λ text. Some (location_text text.0 text.1) };

    fn fmt<W: fmt::Write>(&self, f: &mut fmt::Formatter<W>) -> fmt::Result {
        write!(f, "{} {}", self.0, self.1)
    }
}

/// The number of a kind, by its word if it has one.
#[derive(Drop)]
pub(crate) struct KindText(pub(crate) u8);

impl fmt::Display for KindText {
    ghost output = { λ text. Some (kind_text text.0) };

    fn fmt<W: fmt::Write>(&self, f: &mut fmt::Formatter<W>) -> fmt::Result {
        match PlanKind::of(self.0) {
            Some(PlanKind::Mission) => f.write_str("mission"),
            Some(PlanKind::Fence) => f.write_str("fence"),
            Some(PlanKind::Rally) => f.write_str("rally"),
            None if self.0 == PlanKind::ALL => f.write_str("all"),
            None => write!(f, "{}", self.0),
        }
    }
}

/// Why a station refuses an operation.
#[derive(Drop)]
pub(crate) struct RefusalText(pub(crate) OpFault);

impl fmt::Display for RefusalText {
    ghost output = { λ text. Some (refusal_text text.0) };

    fn fmt<W: fmt::Write>(&self, f: &mut fmt::Formatter<W>) -> fmt::Result {
        match self.0 {
            OpFault::Busy { phase } => write!(f, "busy {phase}"),
            OpFault::EmptyPlan => f.write_str("empty"),
            OpFault::PingsSpent => f.write_str("pings spent"),
            OpFault::NotFit { limit } => write!(f, "not fit {limit}"),
            OpFault::NoMemory => Ok(()),
        }
    }
}

/// How a command ended.
#[derive(Drop)]
pub(crate) struct ResultText(pub(crate) Option<u8>);

impl fmt::Display for ResultText {
    ghost output = { λ text. Some (result_text text.0) };

    fn fmt<W: fmt::Write>(&self, f: &mut fmt::Formatter<W>) -> fmt::Result {
        match self.0 {
            Some(result) => write!(f, "result {result}"),
            None => f.write_str("no answer"),
        }
    }
}

/// The code of an answer to a frame.
pub(crate) fn code(answer: Admit) -> u8
    ensures { result ≡ code_of answer }
{
    match answer {
        Admit::Admitted => 0,
        Admit::Unsigned => 1,
        Admit::BadSignature => 2,
        Admit::BelowFloor { .. } => 6,
        Admit::NotLater { .. } => 3,
        Admit::TooOld { .. } => 4,
        Admit::TooManyStreams => 5,
    }
}
