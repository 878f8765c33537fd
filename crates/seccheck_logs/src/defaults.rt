//! The decision on calls that were not seen.
use action::errno_number;
use command_line::number_of;
use oci_profile::{Decision, given_errno, named_action};
use seccheck_stops::WordFault;
use std::alloc::{AllocError, Global};

/// The decision that a word names, as `explain` prints it or by its name of OCI: `ERRNO 38`, `KILL_PROCESS`,
/// `SCMP_ACT_ERRNO 38`. An errno may have its name, as `ERRNO ENOSYS`. Without a number an errno is 1.
pub(crate) fn default_of(
    alloc: Global,
    word: &str,
) -> Result<Result<Decision, WordFault>, AllocError> {
    let (name, number) = match word.split_once(' ') {
        Some((name, number)) => (name, Some(number)),
        None => (word, None),
    };
    let name = match name.strip_prefix("SCMP_ACT_") {
        Some(name) => name,
        None => name,
    };
    let full_name = format!(in alloc; "SCMP_ACT_{name}")?;
    let Ok(decision) = named_action(full_name.as_str()) else {
        return Ok(Err(WordFault::BadAction));
    };
    Ok(match number {
        Some(number) => with_number(decision, number),
        None => Ok(decision),
    })
}

/// With the errno, or a tracer's message. Other decisions have 0 there.
fn with_number(decision: Decision, word: &str) -> Result<Decision, WordFault> {
    let is_errno = matches!(&decision, Decision::Errno(_));
    let number = number_for(is_errno, word).ok_or(WordFault::BadAction)?;
    match decision {
        Decision::Errno(_) | Decision::Trace(_) => {
            given_errno(decision, number).map_err(|_| WordFault::BadAction)
        }
        _ if number == 0 => Ok(decision),
        _ => Err(WordFault::BadAction),
    }
}

/// The number that a word writes. Only errnos have names.
fn number_for(is_errno: bool, word: &str) -> Option<u64> {
    match number_of(word) {
        None if is_errno => errno_number(word),
        number => number,
    }
}
