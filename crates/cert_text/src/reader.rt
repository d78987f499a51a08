//! The reader of certificates.

ghost use Rattle.std.specs.Prelude.{◌≡◌, ◌<◌, ◌^◌, ℕ, List, IfErr, IfOk, MatchOption, MatchResult};
ghost use Rattle.std.specs.Prelude.{length};
ghost use Rattle.cert_text.specs.Certificates.{Certificate, certificates_of};
ghost use Rattle.cert_text.specs.Texts.{IsFirstFault, Spells};
ghost use Rattle.cert_text.specs.Stops.{IsMemory, IsCertStop, IsFaultOrMemory};
ghost use Rattle.cert_text.specs.internal.ReadStates.{state_of};
ghost use Rattle.cert_text.specs.internal.Ends.{IsWhole};
ghost use Rattle.cert_text.specs.internal.Steps.{IsStep, IsStuck};

use crate::fronts::front_split;
use crate::lines::read_line;
use crate::states::{Place, Reading, next, next_plain, next_split, next_whole, unread};
use crate::stops::CertStop;
use crate::words::cut;
use goal_answers::GoalCert;
use std::alloc::{AllocError, Global};

/// Returns the list of certificates that `bytes` spell, in either version. The goals of such a list
/// are in strictly growing order, and its trees are at most 1,000 deep.
///
/// # Errors
///
/// - `Fault`: no list has this text. The number is that of the first invalid line.
/// - `Memory`: memory ran out.
pub fn read_cert(alloc: Global, bytes: &[u8]) -> Result<Vec<GoalCert>, CertStop>
    requires { length bytes.now < 2 ^ 31 }
    ensures found { IfOk result (λ certs. Spells (certificates_of certs.items) bytes.now) }
    ensures fault { IfErr result (λ stop. IsCertStop bytes.now stop) }
    ensures only { (cs : List Certificate) → Spells cs bytes.now
        → MatchResult result (λ certs. certificates_of certs.items ≡ cs) (λ stop. IsMemory stop) }
    ensures only_fault { (line : ℕ) → IsFirstFault bytes.now line
        → MatchResult result (λ _. ⊥) (λ stop. IsFaultOrMemory line stop) }
{
    let mut reading = unread(alloc);
    let mut rest = bytes;
    let mut number: u32 = 1;
    'lines: loop {
        match first_line(alloc, &mut reading, rest)? {
            Some(behind) => rest = behind,
            None => return whole(reading, rest, number),
        }
        number += 1;
    }
}

/// Reads the first line of `rest`. Returns the text after it, or `None` if no line feed ends it or
/// it is not allowed here. Lines of the kinds `s`, `t` and `i` are tried first.
fn first_line<'a>(
    alloc: Global,
    reading: &mut Reading,
    rest: &'a [u8],
) -> Result<Option<&'a [u8]>, AllocError>
    ensures { IfOk result (λ found.
        MatchOption found (IsStuck (state_of reading.old) (state_of reading.new) rest.now)
        (λ behind. IsStep (state_of reading.old) (state_of reading.new) rest.now behind.now)) }
{
    if let Some(behind) = rest.strip_prefix(b"s\n".as_slice()) {
        if next_split(reading)? {
            Ok(Some(behind))
        } else {
            Ok(None)
        }
    } else if let Some(behind) = rest.strip_prefix(b"t\n".as_slice()) {
        if next_plain(alloc, reading)? {
            Ok(Some(behind))
        } else {
            Ok(None)
        }
    } else if let Some((variable, bound, behind)) = front_split(rest) {
        if next_whole(reading, variable, bound)? {
            Ok(Some(behind))
        } else {
            Ok(None)
        }
    } else {
        longer_line(alloc, reading, rest)
    }
}

/// Reads the first line of `rest`, of any kind. Returns the text after it, or `None` if no line
/// feed ends it or it is not allowed here.
fn longer_line<'a>(
    alloc: Global,
    reading: &mut Reading,
    rest: &'a [u8],
) -> Result<Option<&'a [u8]>, AllocError>
    ensures { IfOk result (λ found.
        MatchOption found (IsStuck (state_of reading.old) (state_of reading.new) rest.now)
        (λ behind. IsStep (state_of reading.old) (state_of reading.new) rest.now behind.now)) }
{
    let (line, behind) = cut(rest, b'\n');
    let Some((_, behind)) = behind.split_first() else {
        return Ok(None);
    };
    let Some(line) = read_line(alloc, line)? else {
        return Ok(None);
    };
    if next(alloc, reading, line)? {
        Ok(Some(behind))
    } else {
        Ok(None)
    }
}

/// Returns the certificates, if the end has been read and nothing follows it.
fn whole(reading: Reading, rest: &[u8], number: u32) -> Result<Vec<GoalCert>, CertStop>
    ensures { IsWhole (state_of reading) rest.now number result }
{
    match reading.place {
        Place::Done if rest.is_empty() => Ok(reading.certs),
        _ => Err(CertStop::Fault(number)),
    }
}
