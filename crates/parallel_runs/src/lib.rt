//! The runs of accepted texts with parallel variables are those of their meaning, and leave in the memory what the
//! meaning leaves in the variables. Readers find the laws here by name.
#![tactic(auto)]

ghost use Rattle.parallel_runs.specs.Laws.{ParallelRunsMeanTheirText};
ghost use Rattle.parallel_runs.specs.Reports.{ParallelReportsMeanTheirText};

/// A run of the machine on the image of an accepted text, from a new memory to an end of its code, ends as the text's
/// meaning does on the same input, leaves the same turns and has printed the same bytes, and the machine then has the
/// numbers of all parallel variables at each of their positions: so far for the programs of which
/// `parallel_code_means_source` speaks.
pub fn parallel_run_means_its_text()
    ensures { ParallelRunsMeanTheirText }
{}

/// What the contract of the command tells of such a run, its answer and the bytes of its report, is what the text's
/// meaning says on the input that the source held, or on as much of it as came before the source failed: the listing,
/// what the run prints, and the final values of the parallel variables at each of their positions, where they are asked
/// for. But the number of instructions is the run's own.
pub fn parallel_report_means_its_text()
    ensures { ParallelReportsMeanTheirText }
{}
