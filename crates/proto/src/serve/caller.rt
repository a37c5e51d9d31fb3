//! Callers: a session, or the pin that it holds.

ghost use Rattle.std.specs.Prelude.{◌≡◌, Some, is_some};
ghost use Rattle.shelf.specs.Steps.{leaving};
ghost use Rattle.desk.specs.Desks.{outcome_of};
ghost use Rattle.lines.specs.Asked.{asked_by};
ghost use Rattle.proto.specs.Callers.{IsCommanded, IsPinAnswer, IsUnpinAnswer, free, told_as};
ghost use Rattle.lines.specs.declared.answer.Answer.TheVariants as answers;
ghost use Rattle.proto.specs.Exchanges.{IsQueryAnswer, WithPin, with_pin};
ghost use Rattle.proto.specs.Served.{IsDumpSaid};
ghost use Rattle.line_io.specs.Wire.{CanGoOn};

use answering::answer_of;
use events::{Command, Reply};
use line_io::{say, say_dump};
use lines::{Answer, Query, Text};
use metric::{Refusal, Stream, WriteFault};
use session::{Pinned, Session, Store};
use shelf::StoreName;
use std::alloc::Global;
use std::marker::Model;
use std::sync::Wait;

/// A session, with or without a pin.
enum Seat<Id: StoreName> {
    Free(Session<Id>),
    Holding(Pinned<Id>),
}

/// A session of a store, with its pin if it holds one. Contracts see its seat as it is after
/// unpinning, and the version pinned.
///
/// It can't be dropped: `into_session` returns its session.
pub struct Caller<Id: StoreName> {
    seat: Seat<Id>,
}

impl<Id: StoreName> Model for Caller<Id> {
    ghost use Rattle.std.specs.Prelude.{Some};
    ghost use Rattle.shelf.specs.Steps.{leaving};
    ghost use Rattle.proto.specs.Callers.{CallerValue, free};
    ghost use Rattle.proto.specs.declared.serve.caller.Seat.TheVariants.{Free, Holding};

    ghost Value = { CallerValue };

    ghost view = { λ c. elim c.seat as (λ _. CallerValue) [
      | Free session ↦ free session
      | Holding pinned ↦ record { seat = leaving pinned.seat; pin = Some pinned.version }
    ] };
}

impl<Id: StoreName> Caller<Id> {
    /// A caller without a pin.
    pub fn new(session: Session<Id>) -> Self
        ensures { result ≡ free session }
    {
        Caller {
            seat: Seat::Free(session),
        }
    }

    /// A caller that holds a pin.
    fn holding(pinned: Pinned<Id>) -> Self
        ensures seat { result.seat ≡ leaving pinned.seat }
        ensures pin { result.pin ≡ Some pinned.version }
    {
        Caller {
            seat: Seat::Holding(pinned),
        }
    }

    /// The answer to a line that is refused. Without a pin, that is `NotPinned` in place of a fault
    /// in the points of a path, or of out of memory for them.
    pub fn refuse(&self, refusal: Refusal) -> Answer
        ensures { result ≡ answers.Refused (with_pin (is_some self.now.pin) refusal) }
    {
        Answer::Refused(match (&self.seat, refusal) {
            (Seat::Free(_), Refusal::BadPath | Refusal::Memory) => Refusal::NotPinned,
            (_, other) => other,
        })
    }

    /// Answers a query of the pinned version.
    pub fn query(&mut self, alloc: Global, query: &Query) -> Answer
        ensures caller { self.new ≡ self.old }
        ensures answer { WithPin (λ _. IsQueryAnswer Id.store
            (asked_by query.now) self.old result self.old) self.old result self.old }
    {
        match &mut self.seat {
            Seat::Free(_) => Answer::Refused(Refusal::NotPinned),
            Seat::Holding(pinned) => answer_of(alloc, pinned, query),
        }
    }

    /// Answers DUMP: the number of bytes of the pinned bitmap's plain image, then the image.
    pub fn dump<S: Stream>(
        &mut self,
        alloc: Global,
        stream: &mut S,
        text: &mut Text,
    ) -> Result<(), WriteFault>
        requires { CanGoOn (S.wire stream.old) }
        ensures caller { self.new ≡ self.old }
        ensures said { IsDumpSaid Id.store result (S.wire stream.old) self.old (S.wire stream.new) }
    {
        match &mut self.seat {
            Seat::Free(_) => say(stream, text, &Answer::Refused(Refusal::NotPinned)),
            Seat::Holding(pinned) => say_dump(alloc, pinned.bitmap(), stream, text),
        }
    }

    /// Runs a command under the store's lock, which it waits for.
    pub fn command<R: Wait>(&mut self, rt: &R, store: &Store<Id>, command: Command) -> Answer
        ensures { IsCommanded Id.store command self.old result self.new }
    {
        let mut desk = store.lock(rt);
        match &mut self.seat {
            Seat::Free(session) => told(session.apply(&mut desk, command)),
            Seat::Holding(pinned) => told(pinned.apply(&mut desk, command)),
        }
    }

    /// Pins the newest version, unless it holds a pin.
    pub fn pin(self, alloc: Global) -> (Self, Answer)
        ensures { IsPinAnswer Id.store self result.1 result.0 }
    {
        let Caller { seat } = self;
        match seat {
            Seat::Free(session) => match session.pin(alloc) {
                Ok(pinned) => {
                    let version = pinned.version();
                    (Caller::holding(pinned), Answer::Version(version))
                }
                Err((session, refused)) => {
                    (
                        Caller::new(session),
                        Answer::Refused(Refusal::from(refused)),
                    )
                }
            },
            Seat::Holding(pinned) => (
                Caller::holding(pinned),
                Answer::Refused(Refusal::AlreadyPinned),
            ),
        }
    }

    /// Unpins, if it holds a pin.
    pub fn unpin(self) -> (Self, Answer)
        ensures { IsUnpinAnswer self result.1 result.0 }
    {
        let Caller { seat } = self;
        match seat {
            Seat::Free(session) => (Caller::new(session), Answer::Refused(Refusal::NotPinned)),
            Seat::Holding(pinned) => {
                let version = pinned.version();
                let session = pinned.unpin();
                (Caller::new(session), Answer::Version(version))
            }
        }
    }

    /// Returns its session, unpinned.
    pub fn into_session(self) -> Session<Id>
        ensures { result ≡ self.seat }
    {
        let Caller { seat } = self;
        match seat {
            Seat::Free(session) => session,
            Seat::Holding(pinned) => pinned.unpin(),
        }
    }
}

/// The answer to a command.
fn told(applied: Result<Reply, (Command, Refusal)>) -> Answer
    ensures { result ≡ told_as (outcome_of applied) }
{
    match applied {
        Ok(reply) => Answer::Done(reply),
        Err((_, refusal)) => Answer::Refused(refusal),
    }
}
