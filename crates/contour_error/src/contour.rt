//! The contour among the samples across an edge, and the error that it shows.
ghost use Rattle.std.specs.Prelude.{◌≡◌, ◌*◌, ◌%◌, ◌≤◌, ◌+ℤ◌, ◌-ℤ◌, ◌*ℤ◌, ◌<ℤ◌, ◌≤ℤ◌, length, reverse, pos, unsigned_abs, IfSome};
ghost use Rattle.std.specs.List.{position};
ghost use Rattle.contour_error.specs.Contour.{IsContour, LiesAtContour, contour, crossing, error_of, is_dark, is_printed, side};

/// The edge error in sixteenths of a pixel, positive outward: the place of the contour (Cobb 1998: edge placement error),
/// found between the centres of two samples by exact linear interpolation and rounded down. Where all samples outside are
/// printed, or none inside is, it is the whole side, `16 E` or `-16 E`.
///
/// There are E samples on each side of the edge, and `samples[t + E]` is sample t.
pub fn edge_error(samples: &[i64], threshold: i64) -> i32
    requires even { length samples.now % 2 ≡ 0 }
    requires some { 2 ≤ length samples.now }
    requires most { length samples.now ≤ 32 }
    ensures error { result ≡ error_of threshold samples.now }
    ensures size { unsigned_abs result ≤ 16 * side samples.now }
    ensures near { IfSome (contour threshold samples.now) (LiesAtContour threshold samples.now result) }
{
    let side = samples.len() / 2;
    match contour(samples, threshold) {
        Some(place) => {
            let past_centre = crossing(samples[place - 1], samples[place], threshold);
            centre(place - 1, side) + past_centre
        }
        None if samples[side - 1] >= threshold => 16 * side as i32,
        None => -(16 * side as i32),
    }
}

// The place of the nearest dark sample after a printed one.
fn contour(samples: &[i64], threshold: i64) -> Option<usize>
    requires even { length samples.now % 2 ≡ 0 }
    requires some { 2 ≤ length samples.now }
    ensures place { result ≡ contour threshold samples.now }
    ensures contour { IfSome result (IsContour threshold samples.now) }
{
    let side = samples.len() / 2;
    if samples[side - 1] >= threshold {
        match first_dark(&samples[side..], threshold) {
            Some(outward) => Some(side + outward),
            None => None,
        }
    } else {
        match last_printed(&samples[..side], threshold) {
            Some(inward) => Some(side - inward),
            None => None,
        }
    }
}

fn first_dark(outside: &[i64], threshold: i64) -> Option<usize>
    ensures { result ≡ position (is_dark threshold) outside.now }
{
    outside.iter().position(|intensity| *intensity < threshold)
}

fn last_printed(inside: &[i64], threshold: i64) -> Option<usize>
    ensures { result ≡ position (is_printed threshold) (reverse inside.now) }
{
    inside
        .iter()
        .rev()
        .position(|intensity| *intensity >= threshold)
}

// How far the centre of the sample at a place lies outside the edge, in sixteenths.
fn centre(place: usize, side: usize) -> i32
    requires place { place ≤ 32 }
    requires side { side ≤ 32 }
    ensures { result ≡ pos 16 *ℤ (pos place -ℤ pos side) +ℤ pos 8 }
{
    16 * (place as i32 - side as i32) + 8
}

// How far the threshold lies on the line from one intensity down to the next, in sixteenths.
fn crossing(before: i64, after: i64, threshold: i64) -> i32
    requires above { threshold ≤ℤ before }
    requires below { after <ℤ threshold }
    ensures part { result ≡ pos (crossing threshold before after) }
    ensures low { pos 0 ≤ℤ result }
    ensures high { result <ℤ pos 16 }
{
    let drop = before.abs_diff(after) as u128;
    let part = 16 * before.abs_diff(threshold) as u128;
    (part / drop) as i32
}
