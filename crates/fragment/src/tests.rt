//! A cut rectangle, from the region to what lies near it.
ghost use Rattle.std.specs.Prelude.{◌≡◌, IfOk, ◌∷◌, []};

use crate::{Near, cut};
use opc_base::{CutRules, NoMemory, Rect, Region, Side};
use std::alloc::Global;
use std::test::Fail;

const RECT: Rect = Rect {
    x0: 0,
    y0: 0,
    x1: 15,
    y1: 10,
};

fn rectangle(alloc: Global) -> Result<Region, NoMemory>
    ensures { IfOk result (λ region. region ≡ RECT ∷ []) }
{
    let mut rects = Vec::new(alloc);
    rects.push(RECT)?;
    Ok(Region::from_rects(rects))
}

#[test]
fn cuts_a_rectangle(rt: HostRuntime) -> Result<(), Fail> {
    let rules = CutRules {
        piece: 4,
        corner_out: 3,
        corner_in: 3,
        line_end: 0,
    };
    let region = rectangle(rt.alloc())?;
    let fragments = cut(rt.alloc(), &region, &rules)?;
    assert_eq!(rt; fragments.count(), 14);

    // An edge of length 10 is cut into 3, 4 and 3, and one of length 15 into 3, 5, 4 and 3.
    let pieces = [
        (Side::Left, 0, 0, 3),
        (Side::Left, 0, 3, 7),
        (Side::Left, 0, 7, 10),
        (Side::Right, 15, 0, 3),
        (Side::Right, 15, 3, 7),
        (Side::Right, 15, 7, 10),
        (Side::Down, 0, 0, 3),
        (Side::Down, 0, 3, 8),
        (Side::Down, 0, 8, 12),
        (Side::Down, 0, 12, 15),
        (Side::Up, 10, 0, 3),
        (Side::Up, 10, 3, 8),
        (Side::Up, 10, 8, 12),
        (Side::Up, 10, 12, 15),
    ];
    for (i, &(side, edge, lo, hi)) in pieces.iter().enumerate() {
        let fragment = fragments.get(i as u32);
        assert_eq!(rt; fragment.side, side);
        assert_eq!(rt; (fragment.edge, fragment.lo, fragment.hi), (edge, lo, hi));
    }
    let near = Near::build(rt.alloc(), &fragments)?;
    let mut met = near.meets(&RECT);
    assert_eq!(rt; met.next(), Some(0));
    assert_eq!(rt; met.next(), Some(1));
    let far = Rect {
        x0: 144,
        y0: 0,
        x1: 145,
        y1: 1,
    };
    assert_eq!(rt; near.meets(&far).next(), None);
    assert_eq!(rt; near.within(&far, 128).next(), None);
    assert!(rt; near.within(&RECT, 0).next().is_some());
    Ok(())
}
