// Whether streams represent a value: the outermost flags are one segment, each other flags one for each F outside, and the data one
// element of the base for each F.
ghost use Rattle.std.specs.Prelude.{◌≡◌, length};
ghost use Rattle.rendering.specs.Fitting.{fit_of, data_fits, bools_fit, fitting_of, InRow};

use flags::segments;
use snesl::code::Base;

// How many items flags have that are n segments, each some F's and a T, and nothing else. Each flag that ends no segment is an item.
fn fit_flags(flags: &[i32], n: usize) -> Option<usize>
    ensures { result ≡ fit_of n flags.now }
{
    let ends = segments(flags)?;
    if ends == n {
        Some(flags.len() - ends)
    } else {
        None
    }
}

// Whether each element is a bool's: 0 or 1.
fn are_bools(elements: &[i32]) -> bool
    ensures { result ≡ bools_fit elements.now }
{
    elements.iter().all(|&z| z == 0 || z == 1)
}

// Whether these are n elements of a base. Any number is an int.
fn fit_data(elements: &[i32], base: Base, n: usize) -> bool
    ensures { result ≡ data_fits base n elements.now }
{
    if elements.len() != n {
        return false;
    }
    match base {
        Base::Int => true,
        Base::Bool => are_bools(elements),
    }
}

// Streams one after another, tried level by level from the outermost flags on: whether they fit, or the level that doesn't.
pub fn first_misfit(
    elements: &[i32],
    lengths: &[usize],
    places: &[usize],
    base: Base,
    depth: u8,
) -> Result<(), usize>
    requires { InRow depth (length elements.now) lengths.now places.now }
    ensures { result ≡ fitting_of base depth lengths.now elements.now }
{
    let levels = depth as usize + 1;
    let mut n: usize = 1;
    for level in (1..levels).rev() {
        let start = places[level];
        let end = start + lengths[level];
        n = fit_flags(&elements[start..end], n).ok_or(level)?;
    }
    let end = lengths[0];
    if fit_data(&elements[..end], base, n) {
        Ok(())
    } else {
        Err(0)
    }
}
