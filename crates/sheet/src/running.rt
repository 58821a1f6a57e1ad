// The public entry.
ghost use Rattle.snesl.specs.Demands.{Demands};
ghost use Rattle.sheet.specs.Runs.{told, Exact};

use crate::Counts;
use crate::admission::admit;
use crate::execution::execute;
use inputs::texts::COUNTS;
use snesl::limits::Buffer;
use snesl::refusal::Refusal;

// Runs a job. The stream buffer takes its streams and the answer buffer its text.
pub fn run(job: &[u8], streams: &mut [i32], answer: &mut [u8]) -> Result<Counts, Refusal>
    ensures exact { Exact job.now streams.old streams.new answer.old answer.new result }
    ensures demands { Demands job.now streams.old streams.new answer.old answer.new (told result) }
{
    let mut counts = [0usize; COUNTS];
    let task = admit(job, &mut counts)?;
    let used = streams.len().min(Buffer::ELEMENTS);
    execute(job, task, &counts, &mut streams[..used], answer)
}
