//! Shapes in pixels, and how references place points.

ghost use Rattle.std.specs.Prelude.{◌≤◌, length, IfOk, pos};
ghost use Rattle.opc_base.specs.Ranges.{IsBetween};

use crate::placement::Placement;
use crate::shapes::outline_of;
use crate::walk::PlacedShape;
use gds_model::{PlaceFault, Points, Position, Shape, ShapeKind};
use gds_records::Point;
use opc_base::{Name, Outline, Pick, Rect};
use std::alloc::{AllocError, Global};
use std::process::Abort;

pub(crate) fn top(alloc: Global) -> Result<Name, AllocError>
    ensures some { IfOk result (λ name. 1 ≤ length name) }
    ensures few { IfOk result (λ name. length name ≤ 255) }
{
    let mut bytes = Vec::new(alloc);
    bytes.push(84)?;
    Ok(Name::from_vec(bytes))
}

/// A shape at offset 98, on layer 1, where it stands in the file, in pixels of this grid.
fn draw(
    alloc: Global,
    grid: i32,
    kind: ShapeKind,
    points: &[(i32, i32)],
) -> Result<Outline, PlaceFault>
    requires { IsBetween (pos 1) (pos 1000) grid }
{
    let mut list = Vec::new(alloc);
    for (x, y) in points {
        list.push(Point { x: *x, y: *y })?;
    }
    let shape = Shape {
        offset: 98,
        kind,
        layer: 1,
        datatype: 0,
        points: Points::from_vec(list),
    };
    let pick = Pick {
        top: top(alloc)?,
        layer: 1,
        datatype: 0,
        grid,
    };
    let placed = PlacedShape {
        shape: &shape,
        placement: Placement {
            flip: false,
            turns: 0,
            shift: Position { x: 0, y: 0 },
        },
    };
    outline_of(alloc, &pick, &placed)
}

#[test]
fn draws_paths(rt: HostRuntime) -> Result<(), PlaceFault> {
    let alloc = rt.alloc();
    let corner = [(0, 0), (20, 0), (20, 20)];
    let rects = [
        Rect {
            x0: -2,
            y0: -3,
            x1: 23,
            y1: 3,
        },
        Rect {
            x0: 17,
            y0: -3,
            x1: 23,
            y1: 25,
        },
    ];
    for width in [6, -6] {
        let kind = ShapeKind::Path {
            ends: 4,
            width,
            begin: 2,
            end: 5,
        };
        match draw(alloc, 1, kind, &corner)? {
            Outline::Path(drawn) => assert_eq!(rt; drawn.as_slice(), &rects[..]),
            Outline::Polygon(_) => panic!(rt; "a path is no polygon"),
        }
    }
    let hairline = ShapeKind::Path {
        ends: 1,
        width: 0,
        begin: 0,
        end: 0,
    };
    match draw(alloc, 1, hairline, &[(0, 0), (1, 1)])? {
        Outline::Path(drawn) => assert!(rt; drawn.as_slice().is_empty()),
        Outline::Polygon(_) => panic!(rt; "a path is no polygon"),
    }
    Ok(())
}

#[test]
fn names_what_is_wrong_with_shapes(rt: HostRuntime) {
    let alloc = rt.alloc();
    let offset = 98;
    let odd = ShapeKind::Path {
        ends: 4,
        width: 5,
        begin: 2,
        end: 5,
    };
    let round = ShapeKind::Path {
        ends: 1,
        width: 6,
        begin: 2,
        end: 5,
    };
    let corner = [(0, 0), (20, 0), (20, 20)];
    let cases: [(ShapeKind, &[(i32, i32)], PlaceFault); 6] = [
        (odd, &corner, PlaceFault::OffGrid { offset }),
        (round, &corner, PlaceFault::RoundPath { offset }),
        (
            round,
            &[(0, 0), (1, 1)],
            PlaceFault::NotRectilinear { offset },
        ),
        (
            ShapeKind::Boundary,
            &[(0, 0), (1, 1)],
            PlaceFault::NotClosed { offset },
        ),
        (
            ShapeKind::Box,
            &[(0, 0), (1, 1), (0, 0)],
            PlaceFault::NotRectilinear { offset },
        ),
        (
            ShapeKind::Box,
            &[(0, 0), (1048001, 0), (0, 0)],
            PlaceFault::OutOfRange { offset },
        ),
    ];
    for (kind, points, fault) in cases {
        match draw(alloc, 1, kind, points) {
            Ok(_) => panic!(rt; "not refused"),
            Err(found) => assert_eq!(rt; found, fault),
        }
    }
}

#[test]
fn refuses_a_square_off_the_grid(rt: HostRuntime) {
    let square = [(0, 0), (10, 0), (10, 10), (0, 10), (0, 0)];
    match draw(rt.alloc(), 3, ShapeKind::Boundary, &square) {
        Ok(_) => panic!(rt; "not refused"),
        Err(found) => assert_eq!(rt; found, PlaceFault::OffGrid { offset: 98 }),
    }
}

#[test]
fn places_in_eight_orientations(rt: HostRuntime) {
    let cases = [
        (false, 0, (2, 0), (0, 3)),
        (false, 1, (0, 2), (-3, 0)),
        (false, 2, (-2, 0), (0, -3)),
        (false, 3, (0, -2), (3, 0)),
        (true, 0, (2, 0), (0, -3)),
        (true, 1, (0, 2), (3, 0)),
        (true, 2, (-2, 0), (0, 3)),
        (true, 3, (0, -2), (-3, 0)),
    ];
    for (flip, turns, right, up) in cases {
        let placement = Placement {
            flip,
            turns: turns % 4,
            shift: Position { x: 0, y: 0 },
        };
        let (x, y) = right;
        assert_eq!(rt; placement.place(Position { x: 2, y: 0 }), Position { x, y });
        let (x, y) = up;
        assert_eq!(rt; placement.place(Position { x: 0, y: 3 }), Position { x, y });
    }
}

#[test]
fn places_in_placements(rt: HostRuntime) {
    let outer = Placement {
        flip: true,
        turns: 1,
        shift: Position { x: 10, y: 0 },
    };
    let inner = Placement {
        flip: false,
        turns: 1,
        shift: Position { x: 5, y: 0 },
    };
    let both = outer.after(&inner);
    assert_eq!(rt;
        both.place(Position { x: 1, y: 0 }),
        Position { x: 11, y: 5 }
    );
}
