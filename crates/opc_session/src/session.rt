//! A correction as it stands.

ghost use Rattle.std.specs.Prelude.{◌≡◌, ◌≢◌, ℕ, ◌+◌, ◌*◌, ◌<◌, ◌≤◌, ℤ, pos, neg_ℤ, ◌+ℤ◌, ◌-ℤ◌, ◌≤ℤ◌, ◌<ℤ◌, All, IfOk, Some, length, replicate, slice_get, slice_index_or, unsigned_abs};
ghost use Rattle.opc_base.specs.Lanes.{amplitude_of_lane, lane_count, rect_change, weights_of};
ghost use Rattle.opc_base.specs.Optics.{amplitude_im, amplitude_re, intensity};
ghost use Rattle.mask_rules.specs.TargetRules.{KeepsTarget};
ghost use Rattle.opc_base.specs.Canonical.{IsCanonical};
ghost use Rattle.opc_base.specs.Plane.{IsRectWithin, IsSweep, cover};
ghost use Rattle.outline_model.specs.Fragmentation.{AreFragments};
ghost use Rattle.opc_base.specs.declared.kernels.Kernel.{Kernel};
ghost use Rattle.outline_model.specs.Limits.{IsOffsets};
ghost use Rattle.outline_model.specs.Outline.{fragment_at, site_of};
ghost use Rattle.outline_model.specs.Rules.{KeepsRules};
ghost use Rattle.opc_session.specs.Errors.{greatest_size, sample_pixel, sum_of_sizes};
ghost use Rattle.opc_session.specs.Moves.{offset_at, sweep_of};
ghost use Rattle.opc_session.specs.Scenes.{IsAllowed};
ghost use Rattle.opc_session.specs.Sessions.{MakesMove, MakesMoves, MakesRound, MakesSteps, error_at, mask_of, samples_of};
ghost use Rattle.opc_session.specs.Stores.{AreAmplitudes};

use crate::lists::make_list;
use crate::moving::move_fragment;
use crate::opening::{first_sums, scene_of};
use crate::outline::mask_at;
use crate::readings::{error_in, intensity_in, own};
use crate::rounds::{make_round, make_steps};
use crate::scene::Scene;
use crate::stores::know_tiles;
use fragment::Fragments;
use opc_base::{
    Move, Moved, NoMemory, Rect, Region, RoundSummary, Rules, Steps, Swept, Totals, Watch,
};
use prefix_tables::Tables;
use std::alloc::Global;
use std::marker::Model;
use std::sync::ledger::Ledger;
use std::thread::Threads;

/// A target's fragments under a set of kernels and rules, and how far each has moved. What each sample sees of the mask is
/// stored, and changed with each move.
#[derive(Drop)]
pub struct Session<'a> {
    scene: Scene<'a>,
    offsets: Vec<i32>,
    sums: Vec<i64>,
    errors: Vec<i32>,
    swept: Vec<Swept>,
}

impl<'a> Model for Session<'a> {
    ghost use Rattle.opc_session.specs.Sessions.{SessionValue};
    ghost use Rattle.opc_session.specs.Kept.{AreKept};

    ghost Value = { SessionValue };

    ghost view = { λ s. record { fragments = s.scene.fragments; set = s.scene.set; rules = s.scene.rules; offsets = s.offsets.items } };

    ghost invariant = { λ s. AreKept s.scene s.offsets.items s.sums.items s.errors.items s.swept.items };
}

/// Room for a sweep.
const NOTHING: Swept = Swept {
    rect: Rect {
        x0: 0,
        y0: 0,
        x1: 0,
        y1: 0,
    },
    sign: 0,
};

impl<'a> Session<'a> {
    /// The session of a region's fragments, of which none has moved. It takes all memory that later moves and rounds need.
    ///
    /// The fragments are cut from the region by these rules, which it keeps.
    pub fn open<R: Threads + Sync>(
        rt: &R,
        alloc: Global,
        fragments: &'a Fragments,
        region: &Region,
        tables: &'a Tables,
        weights: &'a [i64],
        rules: &'a Rules,
    ) -> Result<Session<'a>, NoMemory>
        requires cut { AreFragments (cover region.now) rules.now.cut fragments.now }
        requires placed { All (IsRectWithin 1048000) region.now }
        requires keeps { KeepsTarget rules.now.mask (cover region.now) }
        requires few { length region.now ≤ 262144 }
        requires weights { weights.now ≡ weights_of tables.now }
        ensures session { IfOk result (λ s. s ≡ record { fragments = fragments.now; set = tables.now; rules = rules.now; offsets = replicate (length fragments.now) (pos 0) }) }

        // Its mask is the region.
        ensures unmoved { IfOk result (λ s. (x y : ℤ) → mask_of s x y ≡ cover region.now x y) }
    {
        let scene = scene_of(alloc, fragments, tables, weights, rules)?;
        know_tiles(&scene);
        let sums = first_sums(rt, alloc, &scene, region)?;
        let _ = region.rects();
        let count = fragments.count() as usize;
        let offsets = vec![in alloc; 0; count]?;
        let errors = vec![in alloc; 0; count]?;
        let swept = vec![in alloc; NOTHING; count]?;
        Ok(Session {
            scene,
            offsets,
            sums,
            errors,
            swept,
        })
    }

    /// The number of fragments.
    pub fn count(&self) -> u32
        ensures count { result ≡ length self.now.fragments }
        ensures few { result ≤ 32768 }
    {
        self.scene.fragments.count()
    }

    /// How far fragment `i` has moved outward.
    pub fn offset(&self, i: u32) -> i32
        requires { i < length self.now.fragments }
        ensures { result ≡ offset_at self.now.offsets i }
    {
        self.offsets[i as usize]
    }

    /// How far each fragment has moved outward. The mask at these offsets keeps all rules.
    pub fn offsets(&self) -> &[i32]
        ensures offsets { result.now ≡ self.now.offsets }
        ensures keeps { KeepsRules self.now.rules.mask self.now.fragments self.now.offsets }
        ensures within { IsOffsets self.now.fragments self.now.offsets }
    {
        &self.offsets
    }

    /// The edge error of fragment `i`, in sixteenths of a pixel.
    pub fn error(&self, i: u32) -> i32
        requires { i < length self.now.fragments }
        ensures error { result ≡ error_at self.now i }
        ensures small { unsigned_abs result ≤ 256 }
    {
        error_in(&self.scene, &self.sums, i)
    }

    /// The intensity at sample `t` of fragment `i`.
    pub fn intensity(&self, i: u32, t: i32) -> i64
        requires fragment { i < length self.now.fragments }
        requires low { neg_ℤ self.now.rules.site.samples ≤ℤ t }
        requires high { t <ℤ self.now.rules.site.samples }
        ensures { result ≡ intensity self.now.set (mask_of self.now) (site_of (fragment_at self.now.fragments i) t).x (site_of (fragment_at self.now.fragments i) t).y }
    {
        intensity_in(&self.scene, &self.sums, i, t)
    }

    /// The amplitudes that are stored for fragment `i`: lane l of sample t stands at (t + samples) lanes + l.
    pub fn sums(&self, i: u32) -> &[i64]
        requires { i < length self.now.fragments }
        ensures count { length result.now ≡ 2 * samples_of self.now * lane_count self.now.set }

        // Each is the amplitude of its kernel under the mask as it stands, the real part and then the imaginary one.
        ensures lanes { AreAmplitudes self.now.set (samples_of self.now) (fragment_at self.now.fragments i) (mask_of self.now) result.now }
        ensures real { (k j : ℕ) (kernel : Kernel) → k < 2 * samples_of self.now → slice_get self.now.set.kernels j ≡ Some kernel
            → slice_index_or result.now (k * lane_count self.now.set + 2 * j) (pos 0)
            ≡ amplitude_re self.now.set kernel (mask_of self.now) (sample_pixel (samples_of self.now) (fragment_at self.now.fragments i) k).x (sample_pixel (samples_of self.now) (fragment_at self.now.fragments i) k).y }
        ensures imaginary { (k j : ℕ) (kernel : Kernel) → k < 2 * samples_of self.now → slice_get self.now.set.kernels j ≡ Some kernel
            → slice_index_or result.now (k * lane_count self.now.set + (2 * j + 1)) (pos 0)
            ≡ amplitude_im self.now.set kernel (mask_of self.now) (sample_pixel (samples_of self.now) (fragment_at self.now.fragments i) k).x (sample_pixel (samples_of self.now) (fragment_at self.now.fragments i) k).y }
    {
        own(&self.scene, &self.sums, i)
    }

    /// The canonical rectangles of the mask as it stands.
    pub fn mask(&self) -> Result<Region, NoMemory>
        ensures canonical { IfOk result (IsCanonical (mask_of self.now)) }
        ensures pixels { IfOk result (λ region. (x y : ℤ) → cover region x y ≡ mask_of self.now x y) }
        ensures few { IfOk result (λ region. length region ≤ 65536) }
        ensures within { IfOk result (All (IsRectWithin 1048128)) }
    {
        mask_at(*self.offsets.allocator(), &self.scene, &self.offsets)
    }

    /// The greatest size and the sum of the sizes of all errors.
    pub fn totals(&self) -> Totals
        ensures worst { result.worst ≡ pos (greatest_size (error_at self.now) (length self.now.fragments)) }
        ensures total { result.total ≡ pos (sum_of_sizes (error_at self.now) (length self.now.fragments)) }
    {
        let mut worst = 0;
        let mut total = 0;
        for i in 0..self.count() {
            let size = self.error(i).unsigned_abs();
            worst = size.max(worst);
            total += u64::from(size);
        }
        Totals {
            worst: worst as i32,
            total: total as i64,
        }
    }

    /// Moves fragment `i` outward by `delta` pixels where all rules are kept then; else nothing changes, and the answer is
    /// the first that is broken. It takes no memory.
    pub fn move_one<L: Ledger>(&mut self, i: u32, delta: i32, steps: &mut Steps<L>) -> Moved
        requires fragment { i < length self.old.fragments }
        requires delta { unsigned_abs delta ≤ 999999999 }

        // It takes at most 8 steps for each sample to a side of each fragment in a tile that the sweep reaches.
        ensures moved { MakesMove self.old self.new (record { fragment = i; delta = delta }) result steps.old steps.new }

        // Where it is done, the mask gains or loses just what the move sweeps, and each amplitude what that adds to it.
        ensures sweep { result ≡ Moved.Done → delta ≢ pos 0
            → IsSweep (sweep_of self.old.fragments self.old.offsets i (offset_at self.old.offsets i +ℤ delta)) (mask_of self.old) (mask_of self.new) }
        ensures amplitudes { result ≡ Moved.Done → delta ≢ pos 0 → (x y : ℤ) (lane : ℕ)
            → amplitude_of_lane self.old.set (mask_of self.new) x y lane
            ≡ amplitude_of_lane self.old.set (mask_of self.old) x y lane
            +ℤ rect_change self.old.set (sweep_of self.old.fragments self.old.offsets i (offset_at self.old.offsets i +ℤ delta)).rect (sweep_of self.old.fragments self.old.offsets i (offset_at self.old.offsets i +ℤ delta)).sign x y lane }
    {
        know_tiles(&self.scene);
        move_fragment(
            &self.scene,
            &mut self.offsets,
            &mut self.sums,
            i,
            delta,
            steps,
        )
    }

    /// Makes a round: takes all errors of the mask as it stands, and then each fragment in turn takes the greatest step in
    /// the direction of its wish, and no greater than it, after which all rules are kept. It takes no memory.
    pub fn round<R: Threads + Sync, W: Watch + Sync, L: Ledger>(
        &mut self,
        rt: &R,
        watch: &W,
        steps: &mut Steps<L>,
    ) -> RoundSummary
        // It takes at most a step for each pair of what a move sweeps and a tile that this reaches.
        ensures { MakesRound self.old self.new result steps.old steps.new }
    {
        know_tiles(&self.scene);
        make_round(
            rt,
            &self.scene,
            &mut self.offsets,
            &mut self.sums,
            &mut self.errors,
            &mut self.swept,
            watch,
            steps,
        )
    }

    /// Makes the steps of a round for errors that are given: each fragment in turn takes the greatest step in the direction
    /// of its wish for its error, and no greater than it, after which all rules are kept. The answer is how many moved. It
    /// takes no memory.
    pub fn take_steps<R: Threads + Sync, W: Watch + Sync, L: Ledger>(
        &mut self,
        rt: &R,
        errors: &[i32],
        watch: &W,
        steps: &mut Steps<L>,
    ) -> u32
        requires errors { length errors.now ≡ length self.old.fragments }
        requires small { (i : ℕ) → i < length errors.now → unsigned_abs (slice_index_or errors.now i (pos 0)) ≤ 256 }

        // It takes at most a step for each pair of what a move sweeps and a tile that this reaches.
        ensures { MakesSteps self.old self.new (λ i. slice_index_or errors.now i (pos 0)) result steps.old steps.new }
    {
        know_tiles(&self.scene);
        make_steps(
            rt,
            &self.scene,
            errors,
            &mut self.offsets,
            &mut self.sums,
            &mut self.swept,
            watch,
            steps,
        )
    }

    /// Makes each move of a list in turn, as `move_one` does, and writes each answer at its place. It takes no memory.
    pub fn move_list<R: Threads + Sync, W: Watch + Sync, L: Ledger>(
        &mut self,
        rt: &R,
        moves: &[Move],
        out: &mut [Moved],
        watch: &W,
        steps: &mut Steps<L>,
    )
        requires moves { All (IsAllowed (length self.old.fragments)) moves.now }
        requires answers { length out.old ≡ length moves.now }

        // It takes at most a step for each pair of what a move sweeps and a tile that this reaches.
        ensures { MakesMoves self.old self.new moves.now out.new steps.old steps.new }
    {
        know_tiles(&self.scene);
        make_list(
            rt,
            &self.scene,
            moves,
            out,
            &mut self.offsets,
            &mut self.sums,
            &mut self.swept,
            watch,
            steps,
        );
    }
}
