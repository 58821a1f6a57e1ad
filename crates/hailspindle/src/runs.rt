// Running a job.
ghost use Rattle.hailspindle.specs.Runs.{Exact, Keeps};

use crate::figures::{note, refuse};
use sheet::{Counts, run};

// Four figures: the answer's bytes, work, steps and room, or the refusal's place and three times 0.
pub fn hailspindle_run(
    job: &[u8],
    streams: &mut [i32],
    answer: &mut [u8],
    figures: &mut [u64],
) -> u64
    ensures exact { Exact job.now streams.old streams.new answer.old answer.new figures.old figures.new result }
    ensures demands { Keeps job.now streams.old streams.new answer.old answer.new figures.old figures.new result }
{
    match run(job, streams, answer) {
        Ok(counts) => {
            let Counts {
                text,
                work,
                steps,
                room,
            } = counts;
            note(
                figures,
                &[text as u64, work as u64, steps as u64, room as u64],
            );
            0
        }
        Err(refusal) => refuse(figures, refusal, 3),
    }
}
