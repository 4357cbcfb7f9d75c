//! The files of `trial`, against checksums that another program made from the same numbers.
use opc_base::Bytes;
use opc_engine::trial_files;
use std::test::Fail;

/// How many bytes there are, and a sum of them in which each place counts.
fn summed(bytes: &Bytes) -> (usize, u64) {
    let mut sum = 1_u64;
    for byte in bytes.as_slice() {
        sum = sum.wrapping_mul(257).wrapping_add(u64::from(*byte)) % 4_294_967_291;
    }
    (bytes.as_slice().len(), sum)
}

#[test]
fn files_of_a_number(rt: HostRuntime) -> Result<(), Fail> {
    let one = trial_files(rt.alloc(), 1)?;
    assert_eq!(rt; summed(&one.layout), (366, 2_002_902_888));
    assert_eq!(rt; summed(&one.kernels), (2324, 2_364_475_933));
    assert_eq!(rt; summed(&one.rules), (310, 2_771_612_358));
    let most = trial_files(rt.alloc(), 64)?;
    assert_eq!(rt; summed(&most.layout), (16_494, 623_829_866));
    assert_eq!(rt; summed(&most.kernels), (2324, 2_364_475_933));
    Ok(())
}
