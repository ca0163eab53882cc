//! [`Span`]: the bits that a picture shows.

/// The bits that a picture shows: those from the first one on, before the end.
#[derive(Clone, Copy, Debug)]
pub struct Span {
    /// The first one.
    pub first: u32,
    /// The bit behind the last one.
    pub end: u32,
}

impl Span {
    ghost use Rattle.std.specs.Prelude.{◌≡◌};
    ghost use Rattle.text_picture.specs.PictureText.{end_after};

    /// The bits from a first to a last one, in a run that has so many; without a last one up to the last of the run.
    pub fn of(first: u32, last: Option<u32>, bits: u32) -> Span
        ensures { result ≡ record { first = first; end = end_after last bits } }
    {
        Span {
            first,
            end: end_after(last, bits),
        }
    }
}

ghost use Rattle.std.specs.Prelude.{◌≡◌};
ghost use Rattle.text_picture.specs.PictureText.{end_after};

/// The bit behind the last one that is shown.
fn end_after(last: Option<u32>, bits: u32) -> u32
    ensures { result ≡ end_after last bits }
{
    match last {
        Some(last) => if last < bits { last + 1 } else { bits },
        None => bits,
    }
}
