ghost use Rattle.std.specs.Prelude.{◌≡◌, ℕ, ◌^◌, ◌<◌, ◌≤◌, length, true, Ok, Err, Some, MatchOption, MatchResult};
ghost use Rattle.store.specs.Limits.{counts_fit};
ghost use Rattle.store.specs.Records.{held};
ghost use Rattle.store.specs.Refusals.{fault_at};
ghost use Rattle.document.specs.Examined.{crowded, out_of_range, overlapping, disagreeing, misfilled, examined, unless_fault};

use block::fault::{Code, Fault, Spot};
use content::{fill, serve};
use links::agree;
use store::records::View;
use store::refusal::fault_at;
use store::tables::counts_fit;
use store::{clocks, ranges};

// A fault at the record that was found to fail, if there is one.
fn report<F: Fn(u32) -> Spot>(found: Option<usize>, code: Code, spot: F) -> Result<(), Fault>
    requires callable { F.IsAlwaysCallable spot }
    requires small { (i : ℕ) → found ≡ Some i → i < 2 ^ 32 }
    ensures { MatchOption found (result ≡ Ok tt) (λ i. (s : _) × F.post spot i s × (result ≡ Err (fault_at code s))) }
{
    match found {
        None => Ok(()),
        Some(i) => Err(fault_at(code, spot(i as u32))),
    }
}

// Tables with no more records in use than a document may have.
#[derive(Clone, Copy)]
struct Counted<'b, 'a> {
    view: &'b View<'a>,
    ghost counts: { counts_fit (held view.now) ≡ true },
}

impl<'b, 'a> Counted<'b, 'a> {
    fn new(view: &'b View<'a>) -> Result<Counted<'b, 'a>, Fault>
        ensures { MatchResult result (λ c. (counts_fit (held view.now) ≡ true) × (c.view.now ≡ view.now)) (λ f. crowded (held view.now) ≡ Some f) }
    {
        if counts_fit(view) {
            Ok(Counted { view })
        } else {
            Err(fault_at(Code::OutOfRange, Spot::Nowhere))
        }
    }

    // Fault 1: a field is out of range.
    fn out_of_range(&self) -> Result<(), Fault>
        ensures { result ≡ unless_fault (out_of_range (held self.now.view.now)) }
    {
        let view = self.view;
        report(ranges::first_run(view), Code::OutOfRange, Spot::RunRecord)?;
        report(ranges::first_list(view), Code::OutOfRange, Spot::ListRecord)?;
        report(
            ranges::first_client(view),
            Code::OutOfRange,
            Spot::ClientRecord,
        )?;
        report(
            ranges::first_entry(view),
            Code::OutOfRange,
            Spot::EntryRecord,
        )
    }

    // Fault 2: runs of one client overlap or leave a gap.
    fn overlapping(&self) -> Result<(), Fault>
        ensures { result ≡ unless_fault (overlapping (held self.now.view.now)) }
    {
        report(
            clocks::first_overlap(self.view),
            Code::Overlap,
            Spot::RunRecord,
        )
    }

    // Fault 3: records disagree.
    fn disagreeing(&self) -> Result<(), Fault>
        ensures { result ≡ unless_fault (disagreeing (held self.now.view.now)) }
    {
        let view = self.view;
        report(agree::first_run(view), Code::Disagreement, Spot::RunRecord)?;
        report(
            agree::first_list(view),
            Code::Disagreement,
            Spot::ListRecord,
        )?;
        report(
            agree::first_client(view),
            Code::Disagreement,
            Spot::ClientRecord,
        )
    }

    // Fault 4: content does not match.
    fn misfilled(&self) -> Result<(), Fault>
        ensures { result ≡ unless_fault (misfilled (held self.now.view.now)) }
    {
        let view = self.view;
        report(fill::first_run(view), Code::Content, Spot::RunRecord)?;
        report(serve::first_entry(view), Code::Content, Spot::EntryRecord)?;
        report(serve::first_byte(view), Code::Content, Spot::Byte)
    }
}

// Refuses tables by the first fault that they have, pass by pass and record by record.
pub fn verdict(view: &View<'_>) -> Result<(), Fault>
    ensures { result ≡ unless_fault (examined (held view.now)) }
{
    let counted = Counted::new(view)?;
    counted.out_of_range()?;
    counted.overlapping()?;
    counted.disagreeing()?;
    counted.misfilled()
}
