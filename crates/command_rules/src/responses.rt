//! Replies, before they are written.

ghost use Rattle.command_rules.specs.Messages.{answered, message, stated};
ghost use Rattle.command_rules.specs.Responses.{reply_of, text_bytes};
ghost use Rattle.command_rules.specs.Refusals.{IsRefusal};
ghost use Rattle.std.specs.Prelude.{IfOk, length, ◌<◌, ◌^◌, ◌≡◌};

use crate::Fault;
use crate::statuses::{answers_status, fault_status};
use spelled_files::{SourceStop, source_fault_line};
use std::alloc::{AllocError, Global};
use verdict_report::Answer;

/// A text to write: a constant one, or one that was made.
#[derive(Drop)]
pub enum Text {
    Fixed(&'static [u8]),
    Made(Vec<u8>),
}

impl Text {
    /// Returns the bytes of the text.
    pub fn as_bytes(&self) -> &[u8]
        ensures { result.now ≡ text_bytes self.now }
    {
        match self {
            Text::Fixed(bytes) => bytes,
            Text::Made(bytes) => bytes,
        }
    }
}

/// The reply to a call, before it is written.
#[derive(Drop)]
pub struct Response {
    pub fault: Fault,
    pub answers: Vec<Answer>,
    pub text: Text,
    /// The exit status.
    pub status: u8,
}

/// Returns a reply with a text in place of answers, and with the status of `fault`.
pub fn message(alloc: Global, fault: Fault, text: Text) -> Response
    ensures { reply_of result ≡ message fault (text_bytes text) }
{
    Response {
        status: fault_status(&fault),
        fault,
        answers: Vec::new(alloc),
        text,
    }
}

/// Returns a reply with a text and answers, and with the status of the answers.
pub fn answered(answers: Vec<Answer>, text: Vec<u8>) -> Response
    ensures { reply_of result ≡ answered answers.items text.items }
{
    Response {
        status: answers_status(&answers),
        fault: Fault::Nothing,
        answers,
        text: Text::Made(text),
    }
}

/// Returns a reply with a text and a status, without answers.
pub fn stated(alloc: Global, status: u8, text: Vec<u8>) -> Response
    ensures { reply_of result ≡ stated status text.items }
{
    Response {
        status,
        fault: Fault::Nothing,
        answers: Vec::new(alloc),
        text: Text::Made(text),
    }
}

/// Returns the reply to bytes that are refused as a file.
pub fn refused(alloc: Global, bytes: &[u8], stop: SourceStop) -> Result<Response, AllocError>
    requires { length bytes.now < 2 ^ 31 }
    ensures { IfOk result (λ response. IsRefusal bytes.now stop (reply_of response)) }
{
    match stop {
        SourceStop::Fault(number, place) => {
            let text = source_fault_line(alloc, bytes, number, place)?;
            Ok(message(alloc, Fault::Source(number, place), Text::Made(text)))
        }
        SourceStop::Memory(error) => Err(error),
    }
}
