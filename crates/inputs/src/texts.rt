// Refusal 7 over all inputs, in order, and how many elements their streams have.
ghost use Rattle.std.specs.Prelude.{◌≡◌, ◌+◌, ◌*◌, ◌≤◌, length};
ghost use Rattle.snesl.specs.Limits.{most_inputs};
ghost use Rattle.snesl.specs.Records.{span_at};
ghost use Rattle.snesl.specs.Inputs.{input_values};
ghost use Rattle.inputs.specs.Supply.{Read, texts_of, per_input, tallied};

use formula::inputs::declared;
use levels::counts::LEVELS;
use snesl::limits::Formula;
use snesl::refusal::Refusal;
use valuetext::storing::{Unmeasured, measure_text};

// Places for the counts of the most inputs.
pub const COUNTS: usize = LEVELS * Formula::INPUTS;

// The position behind the VA record at k.
pub fn text_end(job: &[u8], k: usize) -> usize
    requires { k + 4 ≤ length job.now }
    ensures { result ≡ k + 4 + (span_at job.now k).bytes }
{
    k + 4 + usize::from(u16::from_le_bytes([job[k + 2], job[k + 3]]))
}

// The counts of each text, `LEVELS` places for each input, up to the first that is no value of its input's type: its VA record is told.
pub fn measure_texts(job: &[u8], formula: Formula, counts: &mut [usize]) -> Result<(), Refusal>
    requires read { Read job.now formula }
    requires most_inputs_in_bounds { per_input * most_inputs ≤ length counts.old }
    ensures value { (g : Read job.now formula) → result ≡ texts_of (input_values job.now g.inputs g.spans) }
    ensures counts_after { (g : Read job.now formula) → counts.new ≡ tallied job.now g.inputs g.spans counts.old }
{
    let inputs = formula.inputs;
    let mut k = formula.end;
    for i in 0..inputs {
        let next = text_end(job, k);
        let input = declared(job, i);
        let from = LEVELS * i;
        let measured = measure_text(
            &job[k + 4..next],
            input.base,
            input.depth,
            &mut counts[from..],
        );
        // Text with more elements than any room has is a value's, and is refused when it is loaded.
        if measured == Err(Unmeasured::NoValue) {
            return Err(Refusal::NoValueText(k));
        }
        k = next;
    }
    Ok(())
}
