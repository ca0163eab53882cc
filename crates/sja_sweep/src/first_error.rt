//! [`FirstError`]: the first error that a run has, and the run without the strike hasn't.

ghost use Rattle.std.specs.Prelude.{◌≡◌, length, map};
ghost use Rattle.sja_sweep.specs.FirstErrors.{error_at, is_new, first_bit, error_by, earlier, first_error};

use can_node_rules::Cause;

/// An error that a node found (Bosch CAN 2.0 part A, section 6.1).
#[derive(Clone, Copy)]
pub(crate) struct FirstError {
    /// The node that found it, counted from 0.
    pub(crate) node: usize,
    /// The bit in which it did, counted from 0.
    pub(crate) bit: usize,
    /// What kind of error it is.
    pub(crate) cause: Cause,
}

/// The first error that a run has in a bit in which the same node has none without the strike, by the errors of each
/// bit of each node; of several in one bit that of the first node.
pub(crate) fn first_error(
    without: &[Vec<Option<Cause>>],
    now: &[Vec<Option<Cause>>],
) -> Option<FirstError>
    requires { length without.now ≡ length now.now }
    ensures { result ≡ first_error (map (λ v. v.items) without.now) (map (λ v. v.items) now.now) }
{
    let mut earliest = None;
    for node in 0..now.len() {
        let errors = now[node].as_slice();
        let bit = first_bit(without[node].as_slice(), errors);
        earliest = earlier(earliest, error_by(node, errors, bit));
    }
    earliest
}

/// The error of a node in this bit.
fn error_by(node: usize, errors: &[Option<Cause>], bit: Option<usize>) -> Option<FirstError>
    ensures { result ≡ error_by node errors.now bit }
{
    let bit = bit?;
    let cause = error_at(errors, bit)?;
    Some(FirstError { node, bit, cause })
}

/// The first bit that has an error, where it has none without the strike.
fn first_bit(without: &[Option<Cause>], now: &[Option<Cause>]) -> Option<usize>
    ensures { result ≡ first_bit without.now now.now }
{
    for bit in 0..now.len() {
        if is_new(error_at(without, bit), error_at(now, bit)) {
            return Some(bit);
        }
    }
    None
}

/// The error of a bit; past the end there is none.
fn error_at(errors: &[Option<Cause>], bit: usize) -> Option<Cause>
    ensures { result ≡ error_at errors.now bit }
{
    match errors.get(bit) {
        Some(error) => *error,
        None => None,
    }
}

/// Whether there is an error, and none without the strike.
fn is_new(without: Option<Cause>, now: Option<Cause>) -> bool
    ensures { result ≡ is_new without now }
{
    without.is_none() && now.is_some()
}

/// The earlier one of two, and the first one where they are in one bit.
fn earlier(first: Option<FirstError>, second: Option<FirstError>) -> Option<FirstError>
    ensures { result ≡ earlier first second }
{
    match (first, second) {
        (None, second) => second,
        (Some(p), None) => Some(p),
        (Some(p), Some(q)) => Some(if q.bit < p.bit { q } else { p }),
    }
}
