//! Whether scatter bars print.
ghost use Rattle.std.specs.Prelude.{◌≡◌, ◌↔◌, All, IfOk, IsTrue};
ghost use Rattle.opc_base.specs.Plane.{IsRectWithin};
ghost use Rattle.opc_engine.specs.BarImages.{AreFlags, HasPrinted, IsLight, IsInBand, IsSmallWindow, band_of, window_of};

use opc_base::{NoMemory, Rect, Region, Rules, Watch};
use prefix_tables::Tables;
use print_check::print_all;
use std::alloc::Global;
use std::thread::Threads;

/// The greatest side of a window that is looked at in one go: its pixels are at most 4,194,304.
const SIDE: i32 = 2048;

/// A mask, and what prints it: tables and weights of one set of kernels, and the rules.
#[derive(Clone, Copy)]
pub struct Light<'a> {
    pub mask: &'a Region,
    pub tables: &'a Tables,
    pub weights: &'a [i64],
    pub rules: &'a Rules,
}

/// Whether each bar prints.
pub fn printed_bars<R: Threads + Sync, W: Watch + Sync>(
    rt: &R,
    alloc: Global,
    light: &Light<'_>,
    bars: &[Rect],
    watch: &W,
) -> Result<Vec<bool>, NoMemory>
    requires light { IsLight light.now }
    requires bars { All (IsRectWithin 1048000) bars.now }
    ensures { IfOk result (λ flags. AreFlags light.now bars.now flags.items) }
{
    let mut flags = Vec::new(alloc);
    for bar in bars {
        let prints = rect_prints(rt, alloc, light, *bar, watch)?;
        flags.push(prints)?;
    }
    Ok(flags)
}

/// Whether a pixel of the rectangle prints. It looks at one band of rows after the other, up to the first that prints.
fn rect_prints<R: Threads + Sync, W: Watch + Sync>(
    rt: &R,
    alloc: Global,
    light: &Light<'_>,
    rect: Rect,
    watch: &W,
) -> Result<bool, NoMemory>
    requires light { IsLight light.now }
    requires rect { IsRectWithin 1048000 rect }
    ensures { IfOk result (λ prints. IsTrue prints ↔ HasPrinted light.now rect) }
{
    let mut y0 = rect.y0;
    while y0 < rect.y1 {
        let y1 = rect.y1.min(y0 + SIDE);
        let band = rows_of(rect, y0, y1);
        let prints = band_prints(rt, alloc, light, band, watch)?;
        if prints {
            return Ok(true);
        }
        y0 = y1;
    }
    Ok(false)
}

/// Whether a pixel of the band of rows prints. It looks at one window after the other, up to the first that prints.
fn band_prints<R: Threads + Sync, W: Watch + Sync>(
    rt: &R,
    alloc: Global,
    light: &Light<'_>,
    band: Rect,
    watch: &W,
) -> Result<bool, NoMemory>
    requires light { IsLight light.now }
    requires band { IsInBand band }
    ensures { IfOk result (λ prints. IsTrue prints ↔ HasPrinted light.now band) }
{
    let mut x0 = band.x0;
    while x0 < band.x1 {
        let x1 = band.x1.min(x0 + SIDE);
        let window = columns_of(band, x0, x1);
        let prints = window_prints(rt, alloc, light, window, watch)?;
        if prints {
            return Ok(true);
        }
        x0 = x1;
    }
    Ok(false)
}

/// The rows of a rectangle from one to below another.
fn rows_of(rect: Rect, y0: i32, y1: i32) -> Rect
    ensures { result ≡ band_of rect y0 y1 }
{
    Rect {
        x0: rect.x0,
        y0,
        x1: rect.x1,
        y1,
    }
}

/// The columns of a rectangle from one to left of another.
fn columns_of(rect: Rect, x0: i32, x1: i32) -> Rect
    ensures { result ≡ window_of rect x0 x1 }
{
    Rect {
        x0,
        y0: rect.y0,
        x1,
        y1: rect.y1,
    }
}

/// Whether a pixel of the window prints.
fn window_prints<R: Threads + Sync, W: Watch + Sync>(
    rt: &R,
    alloc: Global,
    light: &Light<'_>,
    window: Rect,
    watch: &W,
) -> Result<bool, NoMemory>
    requires light { IsLight light.now }
    requires window { IsSmallWindow window }
    ensures { IfOk result (λ prints. IsTrue prints ↔ HasPrinted light.now window) }
{
    let rules = light.rules;
    let printed = print_all(
        rt,
        alloc,
        rules.run.workers,
        light.mask,
        light.tables,
        light.weights,
        rules.site.threshold,
        rules.run.tile,
        window,
        watch,
    )?;
    let count = printed.rects().len();
    Ok(count > 0)
}
