//! What the walk of each loop writes.

ghost use Rattle.std.specs.Prelude.{◌≡◌, ◌<◌, ◌++◌, [], ◌∷◌, ℕ, if◌then◌else◌, length, map, All, IfOk, OnOk};
ghost use Rattle.mask_polygons.specs.Border.{finish_pix};
ghost use Rattle.mask_polygons.specs.Loops.{lists};
ghost use Rattle.mask_polygons.specs.Scripts.{HaveStarts, edge_stops, is_chosen, loop_stops, seam_stop, seams_where};
ghost use Rattle.mask_polygons.specs.Walks.{scripts_of};

use crate::loops::finish_of;
use opc_base::Pix;
use outline_model::Fragment;
use std::alloc::{AllocError, Global};

/// What a walk writes where it comes: a corner, or a seam's end with the whole walk of a hole.
#[derive(Clone, Copy, Debug)]
pub enum Stop {
    Corner(Pix),
    Seam { end: Pix, hole: usize },
}

/// Adds the seams of those holes whose seam corners lie as high as the corner, or of the others.
fn push_seams(
    stops: &mut Vec<Stop>,
    corner: Pix,
    holes: &[usize],
    starts: &[Pix],
    level: bool,
) -> Result<(), AllocError>
    requires starts { HaveStarts starts.now holes.now }
    ensures { OnOk result (stops.new.items ≡ stops.old.items ++ seams_where level corner starts.now holes.now) }
{
    for hole in holes {
        let test = is_chosen(level, starts, corner, *hole);
        push_if(stops, test, seam_stop(starts, corner, *hole))?;
    }
    Ok(())
}

/// Whether the hole's seam corner lies as high as the corner, or whether it does not.
fn is_chosen(level: bool, starts: &[Pix], corner: Pix, hole: usize) -> bool
    requires { hole < length starts.now }
    ensures { result ≡ is_chosen level starts.now corner hole }
{
    let same = starts[hole].y == corner.y;
    if level { same } else { !same }
}

/// The seam of a hole to an upright edge with this corner.
fn seam_stop(starts: &[Pix], corner: Pix, hole: usize) -> Stop
    requires { hole < length starts.now }
    ensures { result ≡ seam_stop starts.now corner hole }
{
    Stop::Seam {
        end: Pix {
            x: corner.x,
            y: starts[hole].y,
        },
        hole,
    }
}

/// Adds a stop, if the test holds.
fn push_if(stops: &mut Vec<Stop>, test: bool, stop: Stop) -> Result<(), AllocError>
    ensures { OnOk result (stops.new.items ≡ stops.old.items ++ (if test then stop ∷ [] else [])) }
{
    if test {
        stops.push(stop)?;
    }
    Ok(())
}

/// Adds the stops along an edge: the seams that end on it, its last corner, and the seam that ends there.
fn push_stops(
    stops: &mut Vec<Stop>,
    edge: &Fragment,
    holes: &[usize],
    starts: &[Pix],
) -> Result<(), AllocError>
    requires starts { HaveStarts starts.now holes.now }
    ensures { OnOk result (stops.new.items ≡ stops.old.items ++ edge_stops starts.now (finish_pix edge.now) holes.now) }
{
    let corner = finish_of(edge);
    push_seams(stops, corner, holes, starts, false)?;
    stops.push(Stop::Corner(corner))?;
    push_seams(stops, corner, holes, starts, true)?;
    Ok(())
}

/// The stops of a loop.
fn stops_of(
    alloc: Global,
    border: &[Fragment],
    chain: &[usize],
    hung: &[Vec<usize>],
    starts: &[Pix],
) -> Result<Vec<Stop>, AllocError>
    requires chain { All (λ k. k < length border.now) chain.now }
    requires rows { length hung.now ≡ length border.now }
    requires starts { All (HaveStarts starts.now) (lists hung.now) }
    ensures { IfOk result (λ stops. stops.items ≡ loop_stops border.now (lists hung.now) starts.now chain.now) }
{
    let mut stops = Vec::new(alloc);
    for number in chain {
        push_stops(&mut stops, &border[*number], &hung[*number], starts)?;
    }
    Ok(stops)
}

/// The stops of each loop.
pub fn write_scripts(
    alloc: Global,
    border: &[Fragment],
    loops: &[Vec<usize>],
    hung: &[Vec<usize>],
    starts: &[Pix],
) -> Result<Vec<Vec<Stop>>, AllocError>
    requires loops { All (All (λ k. k < length border.now)) (lists loops.now) }
    requires rows { length hung.now ≡ length border.now }
    requires starts { All (HaveStarts starts.now) (lists hung.now) }
    ensures { IfOk result (λ scripts. scripts_of scripts.items ≡ map (loop_stops border.now (lists hung.now) starts.now) (lists loops.now)) }
{
    let mut scripts = Vec::new(alloc);
    for chain in loops {
        scripts.push(stops_of(alloc, border, chain, hung, starts)?)?;
    }
    Ok(scripts)
}
