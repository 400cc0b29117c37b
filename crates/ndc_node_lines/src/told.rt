use crate::answer::Answer;
use crate::reply::Code;
use ndc_command::Refusal;
use ndc_domain::{DomainError, FailoverError, JoinError, RetainError};
use ndc_event::OutOfMemory;
use ndc_graceful::{BeginError, ReadyError};
use ndc_model_cells::{Outcome, Written};
use ndc_node::{CallError, HandError, ReportError};
use ndc_shard::TryError;
use std::alloc::AllocError;

/// What a call of a node gives, as the line that answers it.
pub(crate) trait Given {
    fn tell(self, answer: &mut Answer) -> Result<(), OutOfMemory>;
}

/// Why a call of a node is refused, as the line that answers it.
pub(crate) trait Cause {
    fn tell(self, answer: &mut Answer) -> Result<(), OutOfMemory>;
}

/// Answers a call that changes the node where it is done.
pub(crate) fn tell_call<T: Given, E: Cause>(
    answer: &mut Answer,
    called: Result<T, CallError<E>>,
) -> Result<(), OutOfMemory> {
    match called {
        Ok(given) => {
            answer.note(true);
            given.tell(answer)
        }
        Err(error) => tell_error(answer, error),
    }
}

/// Answers a call that is not done.
pub(crate) fn tell_error<E: Cause>(
    answer: &mut Answer,
    error: CallError<E>,
) -> Result<(), OutOfMemory> {
    match error {
        CallError::Spent => answer.refuse(Code::Spent, b"Spent"),
        CallError::BehindItsPast => answer.refuse(Code::BehindItsPast, b"BehindItsPast"),
        CallError::Awaiting => answer.refuse(Code::Awaiting, b"Awaiting"),
        CallError::NeedsFailover => answer.refuse(Code::NeedsFailover, b"NeedsFailover"),
        CallError::Full => answer.refuse(Code::Full, b"Full"),
        CallError::Refused(cause) => cause.tell(answer),
        CallError::Memory => Err(AllocError),
    }
}

impl Given for () {
    fn tell(self, answer: &mut Answer) -> Result<(), OutOfMemory> {
        answer.tell(ndc_world_answers::done(answer.alloc())?)
    }
}

/// A version, or how often a configuration was changed.
impl Given for u64 {
    fn tell(self, answer: &mut Answer) -> Result<(), OutOfMemory> {
        answer.tell(ndc_world_answers::counted(answer.alloc(), self)?)
    }
}

/// The version and the number of a report.
impl Given for (u64, u64) {
    fn tell(self, answer: &mut Answer) -> Result<(), OutOfMemory> {
        let (version, beat) = self;
        answer.tell(ndc_world_answers::beaten(answer.alloc(), version, beat)?)
    }
}

impl Given for Written {
    fn tell(self, answer: &mut Answer) -> Result<(), OutOfMemory> {
        answer.tell(ndc_world_answers::outcome(answer.alloc(), &Outcome::Written(self))?)
    }
}

/// Of a call that has no refusal of its own.
impl Cause for () {
    fn tell(self, answer: &mut Answer) -> Result<(), OutOfMemory> {
        answer.refuse(Code::Refused, b"Refused")
    }
}

impl Cause for Refusal {
    fn tell(self, answer: &mut Answer) -> Result<(), OutOfMemory> {
        answer.tell(ndc_world_answers::refusal(answer.alloc(), self)?)
    }
}

impl Cause for TryError {
    fn tell(self, answer: &mut Answer) -> Result<(), OutOfMemory> {
        match self {
            TryError::Refused(refusal) => refusal.tell(answer),
            TryError::NotWritten(_) => answer.refuse(Code::Refused, b"NotWritten"),
            TryError::Full => answer.refuse(Code::Full, b"Full"),
        }
    }
}

impl Cause for DomainError {
    fn tell(self, answer: &mut Answer) -> Result<(), OutOfMemory> {
        answer.tell(ndc_world_answers::register_refused(answer.alloc(), self)?)
    }
}

impl Cause for RetainError {
    fn tell(self, answer: &mut Answer) -> Result<(), OutOfMemory> {
        answer.tell(ndc_world_answers::retain_refused(answer.alloc(), self)?)
    }
}

impl Cause for JoinError {
    fn tell(self, answer: &mut Answer) -> Result<(), OutOfMemory> {
        answer.tell(ndc_world_answers::join_refused(answer.alloc(), self)?)
    }
}

impl Cause for FailoverError {
    fn tell(self, answer: &mut Answer) -> Result<(), OutOfMemory> {
        answer.tell(ndc_world_answers::failover_refused(answer.alloc(), self)?)
    }
}

impl Cause for BeginError {
    fn tell(self, answer: &mut Answer) -> Result<(), OutOfMemory> {
        answer.tell(ndc_world_answers::begin_refused(answer.alloc(), self)?)
    }
}

impl Cause for ReadyError {
    fn tell(self, answer: &mut Answer) -> Result<(), OutOfMemory> {
        answer.tell(ndc_world_answers::ready_refused(answer.alloc(), self)?)
    }
}

impl Cause for HandError {
    fn tell(self, answer: &mut Answer) -> Result<(), OutOfMemory> {
        match self {
            HandError::StillOpen => answer.tell(ndc_world_answers::still_open(answer.alloc())?),
            HandError::NoHandover => answer.tell(ndc_world_answers::no_handover(answer.alloc())?),
            HandError::Begin(error) => error.tell(answer),
            HandError::Ready(error) => error.tell(answer),
        }
    }
}

impl Cause for ReportError {
    fn tell(self, answer: &mut Answer) -> Result<(), OutOfMemory> {
        match self {
            ReportError::Refused(refusal) => refusal.tell(answer),
            ReportError::Stale { version } => {
                answer.tell(ndc_world_answers::stale(answer.alloc(), version)?)
            }
        }
    }
}
