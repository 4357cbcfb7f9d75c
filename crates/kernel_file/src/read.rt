//! Kernel files as a whole.
ghost use Rattle.std.specs.Prelude.{◌≡◌, IfOk, IfErr, None};
ghost use Rattle.opc_base.specs.Optics.{KeepsBounds};
ghost use Rattle.kernel_file.specs.Faults.{IsFound, kernel_fault};
ghost use Rattle.kernel_file.specs.KernelFile.{kernel_set};

use crate::KernelFault;
use crate::head::read_head;
use crate::kernels::{read_each, weight_sum};
use opc_base::{KernelSet, Kernels};
use std::alloc::Global;

const MAX_WEIGHT_SUM: u32 = 2048;

/// Reads a kernel file of either format: the set that its bytes spell, or its first fault.
///
/// The order is: the four bytes of the magic; the file ends within its head; the count; the reach; the length of the
/// whole; in the second format the transmissions; in the order of the file the weights and entries; the sum of the
/// weights. Only a lack of memory may come instead of any other answer.
pub fn read_kernels(alloc: Global, bytes: &[u8]) -> Result<KernelSet, KernelFault>
    // The set, where nothing is wrong.
    ensures set { IfOk result (λ set. (kernel_fault bytes.now ≡ None) × (set ≡ kernel_set bytes.now)) }
    // The first fault, where something is.
    ensures fault { IfErr result (IsFound (kernel_fault bytes.now)) }
    // 1 to 16 kernels of reach 0 to 64, weights of at least 1 that sum to at most 2048, parts in range.
    ensures bounds { IfOk result KeepsBounds }
{
    let head = read_head(bytes)?;
    let kernels = read_each(alloc, bytes, &head)?;
    if weight_sum(&kernels) > MAX_WEIGHT_SUM {
        return Err(KernelFault::WeightSum);
    }
    Ok(KernelSet {
        reach: head.reach,
        covered: head.covered,
        uncovered: head.uncovered,
        kernels: Kernels::from_vec(kernels),
    })
}
