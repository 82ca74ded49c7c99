// The alternatives of a draft in one list, and the greatest label.
ghost use Rattle.std.specs.Prelude.{◌≡◌, ◌++◌, IfOk, OnOk, length, max};
ghost use Rattle.guard_prog.specs.Drafts.{plain_alternatives};
ghost use Rattle.turn_law.specs.Unrolled.{offers_from, offers_here};
ghost use Rattle.turn_unroll.specs.Offers.{greatest_of};
ghost use Rattle.turn_unroll.specs.Ways.{input_bits, offers_of};

use chk_base::word::Width;
use guard_prog::draft::{Alternative, Draft};
use std::alloc::{AllocError, Global};

/// An alternative with its point.
#[derive(Clone, Copy)]
pub(crate) struct Offered<'a> {
    pub(crate) point: usize,
    pub(crate) alternative: &'a Alternative,
}

// Puts the alternatives of a point to the list.
fn push_point<'a>(
    all: &mut Vec<Offered<'a>>,
    point: usize,
    alternatives: &'a [Alternative],
) -> Result<(), AllocError>
    ensures { OnOk result (offers_of all.new.items ≡ offers_of all.old.items ++ offers_here point (plain_alternatives alternatives.now)) }
{
    for i in 0..alternatives.len() {
        all.push(Offered {
            point,
            alternative: &alternatives[i],
        })?;
    }
    Ok(())
}

// The alternatives of all points, in order.
pub(crate) fn all_offers<'a>(
    alloc: Global,
    draft: &'a Draft,
) -> Result<Vec<Offered<'a>>, AllocError>
    ensures { IfOk result (λ all. offers_of all.items ≡ offers_from 0 draft.now.points) }
{
    let points = draft.points.items();
    let mut all = Vec::new(alloc);
    for i in 0..points.len() {
        push_point(&mut all, i, points[i].items())?;
    }
    Ok(all)
}

fn max(a: u32, b: u32) -> u32
    ensures { result ≡ max a b }
{
    if a < b { b } else { a }
}

// The greatest label, and 0 without an alternative.
pub(crate) fn greatest_label(offers: &[Offered]) -> u32
    ensures { result ≡ greatest_of (offers_of offers.now) }
{
    let mut most = 0;
    for i in 0..offers.len() {
        most = max(most, offers[i].alternative.label);
    }
    most
}

// The number of bits of an input.
pub(crate) fn input_bits(input: Option<Width>) -> u32
    ensures { result ≡ input_bits input }
{
    match input {
        Some(width) => width.bits(),
        None => 0,
    }
}
