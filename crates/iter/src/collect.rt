ghost use Rattle.iter.specs.Ranges.{Course};
ghost use Rattle.iter.specs.Collects.{Collected};

use crate::slice::ItemSlice;
use crate::slices::Slices;
use block::fault::Fault;

// Writes the slices that come into `out`, from its start on, until it is full or they end, and says
// how many came.
pub fn collect_into<I: Slices>(
    iter: &mut I,
    out: &mut [Option<ItemSlice<I::Place>>],
) -> Result<usize, Fault>
    ensures { (c : Course I.Place) → I.Slices.coming iter.old c → Collected I.Slices.coming c out.old out.new result iter.new }
{
    for (used, slot) in out.iter_mut().enumerate() {
        let Some(slice) = iter.next()? else {
            return Ok(used);
        };
        *slot = Some(slice);
    }
    Ok(out.len())
}
