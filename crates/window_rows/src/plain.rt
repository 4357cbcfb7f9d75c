//! Errors of a mask under several conditions, by the plain pixel sum.

ghost use Rattle.std.specs.Prelude.{◌<◌, All, length};
ghost use Rattle.process_window.specs.Conditions.{IsCondition};

use crate::scene::Scene;
use contour_error::edge_error;
use geometry_rows::fault::RowFault;
use opc_base::Rect;
use plain_optics::plain_intensity;
use process_window::{Condition, Outcome};
use std::alloc::Global;

/// Whether the line of each fragment ends with its errors under these conditions for the mask of an outcome.
pub fn is_plain(
    alloc: Global,
    scene: &Scene,
    conditions: &[Condition],
    outcome: &Outcome,
) -> Result<bool, RowFault>
    requires { All IsCondition conditions.now }
{
    let mut i = 0u32;
    for line in outcome.table.as_slice().split(|byte| *byte == b'\n') {
        if !line.starts_with(b"fragment ") {
            continue;
        }
        if i >= scene.fragments.count() {
            return Ok(false);
        }
        let errors = errors_text(alloc, scene, conditions, outcome.mask.rects(), i)?;
        if !line.ends_with(errors.as_bytes()) {
            return Ok(false);
        }
        i += 1;
    }
    Ok(i == scene.fragments.count())
}

/// How the line of a fragment ends.
fn errors_text(
    alloc: Global,
    scene: &Scene,
    conditions: &[Condition],
    mask: &[Rect],
    i: u32,
) -> Result<String, RowFault>
    requires fragment { i < length scene.now.fragments }
    requires conditions { All IsCondition conditions.now }
{
    let mut text = String::from_str(alloc, " errors")?;
    for condition in conditions {
        let error = plain_error(alloc, scene, condition, mask, i)?;
        text.push_str(&format!(in alloc; " {error}")?)?;
    }
    Ok(text)
}

/// The edge error of a fragment under a condition, for the mask of these rectangles.
fn plain_error(
    alloc: Global,
    scene: &Scene,
    condition: &Condition,
    mask: &[Rect],
    i: u32,
) -> Result<i32, RowFault>
    requires fragment { i < length scene.now.fragments }
    requires condition { IsCondition condition.now }
{
    let samples = scene.rules.site.samples;
    let mut seen = Vec::new(alloc);
    for t in -samples..samples {
        let at = scene.fragments.site(i, t);
        seen.push(plain_intensity(&condition.kernels, mask, at))?;
    }
    if seen.len() < 2 || seen.len() > 32 || seen.len() % 2 != 0 {
        return Err(RowFault::NoShape);
    }
    Ok(edge_error(&seen, condition.threshold))
}
