//! The runs of accepted texts are those of their meaning, so far for texts that declare no shape. Readers find
//! the laws here by name.
#![tactic(auto)]

ghost use Rattle.scalar_runs.specs.Laws.{ScalarRunsMeanTheirText};
ghost use Rattle.scalar_runs.specs.Reports.{ScalarReportsMeanTheirText};

/// A run of the machine on the image of an accepted text, to an end of its code, ends as the text's meaning
/// does on the same input, leaves the same turns and has printed the same bytes: so far where the text declares
/// no shape.
pub fn scalar_run_means_its_text()
    ensures { ScalarRunsMeanTheirText }
{}

/// What the contract of the command tells of such a run, its answer and the bytes of its report, is what the text's
/// meaning says on the input that the source held, or on as much of it as came before the source failed.
pub fn scalar_report_means_its_text()
    ensures { ScalarReportsMeanTheirText }
{}
