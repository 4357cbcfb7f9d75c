//! The input of `trial`.
ghost use Rattle.std.specs.Prelude.{◌≡◌, ◌≤◌, IfOk};
ghost use Rattle.opc_engine.specs.TrialInput.{trial_kernels, trial_layout, trial_rules};

use crate::trial_cells::trial_layout;
use crate::trial_shapes::trial_kernels;
use opc_base::{Bytes, NoMemory};
use std::alloc::Global;

/// A layout, a kernel file and a rule file.
#[derive(Debug, Drop)]
pub struct TrialFiles {
    pub layout: Bytes,
    pub kernels: Bytes,
    pub rules: Bytes,
}

/// The rule file, which doesn't depend on the number.
const RULES: &str =
    "top = \"TRIAL\"\nlayer = 1\ndatatype = 0\ngrid = 1\nthreshold = 40000000\nsamples = 6\npiece = 20\ncorner_out = 10\ncorner_in = 10\nline_end = 20\ngain_num = 1\ngain_den = 1\nmax_step = 2\nmax_in = 4\nmax_out = 6\nsettle = 0\nrounds = 4\nwidth = 8\nspace = 8\ntile = 64\nworkers = 4\nout_layer = 1\nout_datatype = 0\nout_name = \"MASK\"\n";

/// The files of `trial n`, for n from 1 to 64: a layout of n cells, each with four rectangles, whose sizes come from a
/// sequence of numbers; two kernels of reach 8; and rules.
pub fn trial_files(alloc: Global, n: u32) -> Result<TrialFiles, NoMemory>
    requires some { 1 ≤ n }
    requires few { n ≤ 64 }
    ensures layout { IfOk result (λ files. files.layout ≡ trial_layout n) }
    ensures kernels { IfOk result (λ files. files.kernels ≡ trial_kernels) }
    ensures rules { IfOk result (λ files. files.rules ≡ trial_rules) }
{
    Ok(TrialFiles {
        layout: trial_layout(alloc, n)?,
        kernels: trial_kernels(alloc)?,
        rules: trial_rules(alloc)?,
    })
}

/// The rule file.
#[tactic(auto, unfolding(crate::specs::TrialInput::trial_rules))]
fn trial_rules(alloc: Global) -> Result<Bytes, NoMemory>
    ensures { IfOk result (λ file. file ≡ trial_rules) }
{
    Ok(Bytes::from_vec(RULES.as_bytes().to_vec(alloc)?))
}
