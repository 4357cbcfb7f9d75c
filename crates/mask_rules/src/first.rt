//! The first of pixels, by rows from the bottom.

ghost use Rattle.std.specs.Prelude.{◌≡◌};
ghost use Rattle.mask_rules.specs.First.{comes_before, earlier};
ghost use Rattle.mask_rules.specs.Found.{earlier_each, none_found};

use opc_base::Pix;

/// Whether a pixel comes before another: it is lower, or further left in the same row.
pub fn comes_before(p: Pix, q: Pix) -> bool
    ensures { result ≡ comes_before p q }
{
    p.y < q.y || p.y == q.y && p.x < q.x
}

/// The first of two pixels, where there are any.
pub fn earlier(first: Option<Pix>, second: Option<Pix>) -> Option<Pix>
    ensures { result ≡ earlier first second }
{
    match (first, second) {
        (Some(p), Some(q)) => Some(if comes_before(q, p) { q } else { p }),
        (Some(p), None) => Some(p),
        (None, found) => found,
    }
}

/// The first pixel of each kind of clash.
#[derive(Clone, Copy)]
pub struct Found {
    /// Of those that break M0: outlines meet along a line.
    pub meet: Option<Pix>,
    /// Of those that break M1: too few covered pixels.
    pub narrow: Option<Pix>,
    /// Of those that break M2: too few pixels that are not covered.
    pub close: Option<Pix>,
    /// Of those that break M3: outlines touch at a corner.
    pub touch: Option<Pix>,
}

/// Nothing of any kind.
pub fn none_found() -> Found
    ensures { result ≡ none_found }
{
    Found {
        meet: None,
        narrow: None,
        close: None,
        touch: None,
    }
}

/// The first of two pixels of each kind.
pub fn earlier_each(first: Found, second: Found) -> Found
    ensures { result ≡ earlier_each first second }
{
    Found {
        meet: earlier(first.meet, second.meet),
        narrow: earlier(first.narrow, second.narrow),
        close: earlier(first.close, second.close),
        touch: earlier(first.touch, second.touch),
    }
}
