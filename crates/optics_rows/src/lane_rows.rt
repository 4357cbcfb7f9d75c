//! What a square adds to lanes of copies of one kernel.

ghost use Rattle.std.specs.Prelude.{◌≡◌, ◌<◌, ◌≤◌};

use crate::regions::rect;
use crate::sets::{ALL, NOTHING, entries_of, set_of};
use lane_intensity::add_rect;
use opc_base::{NoMemory, Pix, Steps};
use prefix_tables::Tables;
use std::alloc::Global;
use std::marker::Brand;
use std::sync::ledger::{Blank, Ledger};
use std::test::Fail;

/// The lanes of so many kernels with the entries 1 to 9 after the square from (0, 0) to (10, 10) was added to zeros, as
/// the pixel (0, 0) sees it.
fn square_lanes<L: Ledger>(alloc: Global, count: u8, blank: Blank) -> Result<Vec<i64>, NoMemory>
    requires some { 1 ≤ count }
    requires few { count ≤ 16 }
    requires name { blank.name ≡ L.name }
    requires parts { blank.parts ≡ L.parts }
    requires open { 0 < blank.parts }
{
    let entries = entries_of(alloc, &[1, 2, 3, 4, 5, 6, 7, 8, 9], 0)?;
    let tables = Tables::build(alloc, &set_of(alloc, count, &entries, ALL, NOTHING)?)?;
    let mut lanes = vec![in alloc; 0; tables.lanes()]?;
    let mut steps: Steps<L> = Steps::new(blank);
    let at = Pix { x: 0, y: 0 };
    add_rect(&mut lanes, &tables, at, rect(0, 0, 10, 10), 1, &mut steps);
    Ok(lanes)
}

#[test]
fn lanes_of_one_and_more_kernels(rt: HostRuntime) -> Result<(), Fail> {
    for count in [1, 4, 5, 16] {
        let lanes = square_lanes::<Brand>(rt.alloc(), count, Blank::new(1))?;
        assert_eq!(rt; lanes.len(), 2 * usize::from(count));
        for (lane, value) in lanes.iter().enumerate() {
            let wanted = if lane % 2 == 0 { 12 } else { 0 };
            assert_eq!(rt; *value, wanted, "in lane {lane} of {count} kernels");
        }
    }
    Ok(())
}
