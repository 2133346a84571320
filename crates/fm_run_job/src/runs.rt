// The run of a program from its opening on.

ghost use Rattle.std.specs.Prelude.{◌≤◌, length};
ghost use Rattle.fm_base.specs.declared.limits.TheConstants.{MAX_ARGUMENTS};
ghost use Rattle.fm_law_can_step.specs.Ready.{CanRun};
ghost use Rattle.fm_run_job.specs.Runs.{AreWithin, ComesOfRun};
ghost use Rattle.fm_law_sound.specs.Making.{ArgumentsFit};
ghost use Rattle.fm_check_program.specs.Untyped.{AreTyped};

use crate::lines::{end_status, report_line};
use fm_base::Units;
use fm_cells::WordCells;
use fm_files::Sink;
use fm_frames::{Machine, StepFail};
use fm_run::run;
use fm_world::Program;
use std::alloc::Global;

/// The budgets of a run.
#[derive(Clone, Copy, Debug)]
pub struct Budgets {
    /// How many steps may be done.
    pub steps: u64,
    /// How many words may live at once.
    pub words: u64,
    /// How many words all cells together may have.
    pub store: u64,
    /// How many frames there may be.
    pub frames: u32,
}

/// The report of a run.
#[derive(Debug, Drop)]
pub struct RunReport {
    /// The line of the report, with its line end.
    pub line: String,
    /// The exit status.
    pub status: u8,
}

/// Runs a linked and typed program with these arguments and this input, as far as the budgets
/// allow, in cells that serve again once they are freed, and returns its report. SinkFailed comes
/// only where the sink's faults rose.
pub fn run_program<O: Sink>(
    alloc: Global,
    program: &Program,
    budgets: Budgets,
    arguments: &[Units],
    input: &[u8],
    out: &mut O,
) -> Result<RunReport, StepFail>
    requires can { CanRun program.now }
    requires typed { AreTyped program.now }
    requires within { AreWithin budgets }
    requires few { length arguments.now ≤ MAX_ARGUMENTS }
    requires given { ArgumentsFit arguments.now }
    ensures { ComesOfRun program.now budgets arguments.now input.now
        (O.output out.old) (O.output out.new) result }
{
    let memory = WordCells::new(alloc, budgets.words, budgets.store);
    let mut machine = Machine::open(alloc, program, arguments, input, budgets.frames, memory)?;
    // For its clauses: the store is sound, and the memory's choices are lawful.
    let _births = machine.births();
    let report = run(alloc, &mut machine, program, budgets.steps, out)?;
    let line = report_line(alloc, program, &report)?;
    Ok(RunReport {
        line,
        status: end_status(report.end),
    })
}
