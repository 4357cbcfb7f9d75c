//! Fragments, tables and tiles of a target.

ghost use Rattle.std.specs.Prelude.{◌≡◌, true, All, IfOk, IfSome, OnOk, length};
ghost use Rattle.opc_base.specs.Canonical.{IsSolid};
ghost use Rattle.opc_base.specs.Cover.{IsPlaced};
ghost use Rattle.opc_base.specs.Optics.{KeepsTwoTransmissions};
ghost use Rattle.opc_base.specs.Plane.{IsRectWithin, cover};
ghost use Rattle.parallel_rows.specs.Scenes.{HasNoTouch, IsScene};

use fragment::{Fragments, cut};
use mask_rules::check_target;
use opc_base::{
    CutRules, Entries, Entry, Kernel, KernelSet, Kernels, MaskRules, NoMemory, Outline, Placed,
    Rect, Rects, Region,
};
use prefix_tables::Tables;
use rect_union::union;
use std::alloc::Global;
use tiles::TileIndex;

/// So many samples of a fragment lie to each side.
pub const SAMPLES: i32 = 2;

/// Fragments in tiles, and a kernel of reach 1 with its tables.
#[derive(Drop)]
pub struct Scene {
    pub fragments: Fragments,
    pub set: KernelSet,
    pub tables: Tables,
    pub index: TileIndex,
}

impl Scene {
    /// The scene of these rectangles in tiles of 16 pixels, or `None` where they touch at a corner or memory is wanting.
    /// The nine entries of the kernel are 1.
    pub fn new(alloc: Global, rects: &[Rect]) -> Option<Scene>
        requires solid { All IsSolid rects.now }
        requires within { All (IsRectWithin 1048000) rects.now }
        ensures { IfSome result IsScene }
    {
        Self::with_kernel(alloc, rects, &[1; 9], 0)
    }

    /// The same, of a kernel whose entries have these real parts, up to 127, each beside the same imaginary part.
    pub fn with_kernel(alloc: Global, rects: &[Rect], reals: &[u8], im: u8) -> Option<Scene>
        requires solid { All IsSolid rects.now }
        requires within { All (IsRectWithin 1048000) rects.now }
        requires nine { length reals.now ≡ 9 }
        ensures { IfSome result IsScene }
    {
        let fragments = fragments_of(alloc, rects)?;
        let Ok(set) = kernel_set(alloc, reals, im) else {
            return None;
        };
        let tables = tables_of(alloc, &set)?;
        let halo = tables.reach() + SAMPLES;
        let Ok(index) = TileIndex::build(alloc, &fragments, 16, halo) else {
            return None;
        };
        Some(Scene {
            fragments,
            set,
            tables,
            index,
        })
    }
}

/// The fragments of the rectangles, each edge whole.
fn fragments_of(alloc: Global, rects: &[Rect]) -> Option<Fragments>
    requires solid { All IsSolid rects.now }
    requires within { All (IsRectWithin 1048000) rects.now }
{
    let outlines = outlines_of(alloc, rects).ok()?;
    let Ok(region) = union(alloc, &Placed::from_outlines(outlines)) else {
        return None;
    };
    let Ok(true) = keeps_corners(alloc, &region) else {
        return None;
    };
    let whole = CutRules {
        piece: 100,
        corner_out: 50,
        corner_in: 50,
        line_end: 10,
    };
    cut(alloc, &region, &whole).ok()
}

/// Whether no two pixels touch at a corner only. Where it is not known, that is false.
fn keeps_corners(alloc: Global, region: &Region) -> Result<bool, NoMemory>
    requires { All (IsRectWithin 1048576) region.now }
    ensures { IfOk result (λ keeps. keeps ≡ true → HasNoTouch (cover region.now)) }
{
    let loose = MaskRules {
        width: 1,
        space: 1,
        max_in: 0,
        max_out: 0,
    };
    let found = check_target(alloc, region, &loose)?;
    Ok(found.is_none())
}

/// The rectangles as shapes.
fn outlines_of(alloc: Global, rects: &[Rect]) -> Result<Vec<Outline>, NoMemory>
    requires solid { All IsSolid rects.now }
    requires within { All (IsRectWithin 1048000) rects.now }
    ensures { IfOk result (λ outlines. All IsPlaced outlines.items) }
{
    let mut outlines = Vec::new(alloc);
    for rect in rects {
        add(alloc, &mut outlines, *rect)?;
    }
    Ok(outlines)
}

/// Adds a rectangle to the shapes.
fn add(alloc: Global, outlines: &mut Vec<Outline>, rect: Rect) -> Result<(), NoMemory>
    requires placed { All IsPlaced outlines.old.items }
    requires solid { IsSolid rect }
    requires within { IsRectWithin 1048000 rect }
    ensures { OnOk result (All IsPlaced outlines.new.items) }
{
    let mut rects = Vec::new(alloc);
    rects.push(rect)?;
    let outline = Outline::Path(Rects::from_vec(rects));
    outlines.push(outline)?;
    Ok(())
}

/// A kernel of reach 1 and weight 1 with these real parts, up to 127, each beside the same imaginary part.
fn kernel_set(alloc: Global, reals: &[u8], im: u8) -> Result<KernelSet, NoMemory>
    requires nine { length reals.now ≡ 9 }
    ensures bounds { IfOk result KeepsTwoTransmissions }
    ensures reach { IfOk result (λ set. set.reach ≡ 1) }
    ensures one { IfOk result (λ set. length set.kernels ≡ 1) }
{
    let mut entries = Vec::new(alloc);
    for re in reals {
        entries.push(Entry {
            re: i16::from(*re % 128),
            im: i16::from(im % 128),
        })?;
    }
    let mut kernels = Vec::new(alloc);
    kernels.push(Kernel {
        weight: 1,
        entries: Entries::from_vec(entries),
    })?;
    Ok(KernelSet {
        reach: 1,
        covered: Entry { re: 1, im: 0 },
        uncovered: Entry { re: 0, im: 0 },
        kernels: Kernels::from_vec(kernels),
    })
}

/// The tables of that kernel.
fn tables_of(alloc: Global, set: &KernelSet) -> Option<Tables>
    requires bounds { KeepsTwoTransmissions set.now }
    requires reach { set.now.reach ≡ 1 }
    ensures set { IfSome result (λ tables. tables ≡ set.now) }
    ensures reach { IfSome result (λ tables. tables.reach ≡ 1) }
{
    let Ok(tables) = Tables::build(alloc, set) else {
        return None;
    };
    Some(tables)
}
