// How a job comes out.

ghost use Rattle.std.specs.Prelude.{◌≡◌};
ghost use Rattle.fm_load.specs.declared.refusal.JobRefusal.TheVariants as job_refusal;
ghost use Rattle.fm_cli.specs.declared.command_refusal.CommandRefusal.TheVariants as refusal;
ghost use Rattle.fmrun.specs.declared.outcome.JobFail.TheVariants as fail;
ghost use Rattle.fmrun.specs.inner.Fails.{IsOfStep};

use fm_base::NoMemory;
use fm_frames::StepFail;
use fm_load::JobRefusal;

/// Why there is no report of a run.
#[derive(Debug, Drop)]
pub enum JobFail<'a> {
    /// The job is refused.
    Refused(JobRefusal<'a>),
    /// What the run prints couldn't be written.
    Output,
}

impl<'a> From<JobRefusal<'a>> for JobFail<'a> {
    ghost from_gives = { λ refusal e. e ≡ fail.Refused refusal };

    fn from(refusal: JobRefusal<'a>) -> Self {
        JobFail::Refused(refusal)
    }
}

impl From<NoMemory> for JobFail<'_> {
    ghost from_gives = { λ _ e. e ≡ fail.Refused (job_refusal.Shared refusal.OutOfMemory) };

    fn from(error: NoMemory) -> Self {
        JobFail::Refused(JobRefusal::from(error))
    }
}

impl From<StepFail> for JobFail<'_> {
    ghost from_gives = { IsOfStep };

    fn from(error: StepFail) -> Self {
        match error {
            StepFail::SinkFailed => JobFail::Output,
            StepFail::NoMemory => JobFail::from(NoMemory),
        }
    }
}
