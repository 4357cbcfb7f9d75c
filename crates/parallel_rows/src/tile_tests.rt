//! Tiles that rectangles reach.

use crate::scene::Scene;
use crate::targets::squares;
use opc_base::Rect;
use std::test::Fail;

const NEAR: Rect = Rect {
    x0: 0,
    y0: 0,
    x1: 10,
    y1: 10,
};

const FAR: Rect = Rect {
    x0: 1000,
    y0: 1000,
    x1: 1010,
    y1: 1010,
};

const NEGATIVE: Rect = Rect {
    x0: -26,
    y0: -26,
    x1: -16,
    y1: -16,
};

fn rect(x0: i32, y0: i32, x1: i32, y1: i32) -> Rect {
    Rect { x0, y0, x1, y1 }
}

/// How many tiles a rectangle reaches.
fn reached(scene: &Scene, rect: &Rect) -> u32 {
    let mut count = 0u32;
    for _tile in scene.index.touched(rect) {
        count = count.saturating_add(1);
    }
    count
}

#[test]
fn a_move_and_a_round_reach_so_many_tiles(rt: HostRuntime) -> Result<(), Fail> {
    let scene = Scene::new(rt.alloc(), &[NEAR, FAR]).expect(&rt, "a scene");
    assert_eq!(rt; scene.index.count(), 4);
    let rows = [
        (rect(-1, 0, 0, 10), 1),
        (rect(10, 0, 11, 10), 1),
        (rect(-1, -1, 11, 0), 1),
        (rect(-1, 10, 11, 11), 1),
        (rect(999, 1000, 1000, 1010), 2),
        (rect(1010, 1000, 1011, 1010), 3),
        (rect(999, 999, 1011, 1000), 2),
        (rect(999, 1010, 1011, 1011), 3),
    ];
    for (swept, want) in rows {
        assert_eq!(rt; reached(&scene, &swept), want);
    }
    Ok(())
}

#[test]
fn tiles_of_negative_numbers(rt: HostRuntime) -> Result<(), Fail> {
    let scene = Scene::new(rt.alloc(), &[NEGATIVE]).expect(&rt, "a scene");
    assert_eq!(rt; scene.index.count(), 1);
    if scene.index.count() == 1 {
        assert_eq!(rt; scene.index.square(0), rect(-35, -35, -13, -13));
    }
    assert_eq!(rt; reached(&scene, &rect(-14, -20, -13, -19)), 1);
    assert_eq!(rt; reached(&scene, &rect(-13, -20, -12, -19)), 0);
    Ok(())
}

#[test]
fn tiles_of_most_fragments(rt: HostRuntime) -> Result<(), Fail> {
    let target = squares(rt.alloc(), 8192, 30)?;
    let scene = Scene::new(rt.alloc(), &target).expect(&rt, "a scene");
    assert_eq!(rt; scene.fragments.count(), 32768);

    // Half of the columns lie across two tiles, and half of the rows: a square's fragments are in 1, 2 or 3 tiles, 2 on average.
    assert_eq!(rt; scene.index.count(), 16384);
    assert_eq!(rt; reached(&scene, &rect(0, 0, 4000, 2000)), 16384);
    Ok(())
}
