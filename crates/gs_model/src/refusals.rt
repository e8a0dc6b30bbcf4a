//! Why a call or an event is refused.
ghost use Rattle.std.specs.Prelude.{◌≡◌, ◌≢◌, IfOk, OnErr};

use std::alloc::{AllocError, AllocFailed};
use std::error::Error;
use std::fmt;

/// Why a call or an event is refused. A refused event changes nothing.
#[derive(Clone, Copy, Debug, PartialEq, Eq, Drop)]
pub enum Refusal {
    /// Memory was wanted and not given.
    NoMemory,
    /// The seat's phase does not allow the action.
    WrongPhase,
    /// The store has no such seat.
    BadSeat,
    /// The last request number or the last commit number is given out.
    LastNumber,
    /// The text breaks its grammar: the number of bytes up to the end of the last complete
    /// statement before the fault, which stops at the greatest `u64`.
    Syntax(u64),
    /// A term's canonical text, or a graph's name, is too long.
    TermTooLong,
    /// The result would have more triples or more names than a store holds.
    StoreFull,
    /// The update is outside the part of SPARQL Update that is served.
    NotInProfile,
    /// An earlier call was refused or ended the text, and with that every later one is refused.
    Closed,
}

impl Refusal {
    ghost use Rattle.gs_model.specs.Refusals.{name_of, phrase_of};

    /// The name of the refusal, as a schedule's answers print it.
    pub fn name(self) -> &'static str
        ensures { result.now ≡ name_of self }
    {
        match self {
            Refusal::NoMemory => "NoMemory",
            Refusal::WrongPhase => "WrongPhase",
            Refusal::BadSeat => "BadSeat",
            Refusal::LastNumber => "LastNumber",
            Refusal::Syntax(_) => "Syntax",
            Refusal::TermTooLong => "TermTooLong",
            Refusal::StoreFull => "StoreFull",
            Refusal::NotInProfile => "NotInProfile",
            Refusal::Closed => "Closed",
        }
    }

    /// What the refusal says to a person.
    pub fn phrase(self) -> &'static str
        ensures { result.now ≡ phrase_of self }
    {
        match self {
            Refusal::NoMemory => "no memory",
            Refusal::WrongPhase => "the seat's phase does not allow this action",
            Refusal::BadSeat => "there is no such seat",
            Refusal::LastNumber => "the last number is given out",
            Refusal::Syntax(_) => "the text breaks its grammar",
            Refusal::TermTooLong => "a term or a name is too long",
            Refusal::StoreFull => "the store would hold too much",
            Refusal::NotInProfile => "the update is outside what is served",
            Refusal::Closed => "an earlier call was refused or ended the text",
        }
    }
}

/// Sets want of memory apart from every other outcome, which stays as it is.
pub fn memory_apart<T>(outcome: Result<T, Refusal>) -> Result<Result<T, Refusal>, AllocError>
    ensures value { IfOk result (λ other. other ≡ outcome) }
    ensures apart { IfOk result (λ other. other ≢ Err Refusal.NoMemory) }
    ensures memory { OnErr result (outcome ≡ Err Refusal.NoMemory) }
{
    match outcome {
        Err(Refusal::NoMemory) => Err(AllocError),
        other => Ok(other),
    }
}

impl fmt::Display for Refusal {
    ghost use Rattle.std.specs.Prelude.{Some};
    ghost use Rattle.gs_model.specs.Refusals.{phrase_of};

    ghost output = { λ r. Some (phrase_of r) };

    fn fmt<W: fmt::Write>(&self, f: &mut fmt::Formatter<W>) -> fmt::Result {
        f.write_str(self.phrase())
    }
}

impl Error for Refusal {}

impl From<AllocError> for Refusal {
    ghost use Rattle.gs_model.specs.declared.refusals.Refusal.TheVariants.{NoMemory};

    ghost from_gives = { λ _ e. e ≡ NoMemory };

    fn from(_error: AllocError) -> Refusal {
        Refusal::NoMemory
    }
}

impl<T: Drop> From<AllocFailed<T>> for Refusal {
    ghost use Rattle.gs_model.specs.declared.refusals.Refusal.TheVariants.{NoMemory};

    ghost from_gives = { λ _ e. e ≡ NoMemory };

    fn from(_error: AllocFailed<T>) -> Refusal {
        Refusal::NoMemory
    }
}
