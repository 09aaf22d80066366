//! Further classes, one after the other.

use crate::chosen::Chosen;
use crate::fault::ReportFault;
use crate::page::Page;
use jl_class::ClassFile;
use jl_report::{Refused, Report, Rounds};
use std::alloc::Global;
use std::io::Write;

/// Defines the classes of the files after the others, each once its parents are there, and adds what each drops. Gives the files whose
/// classes can't be defined in the end.
pub(crate) fn add_further<W: Write>(
    alloc: Global,
    report: &mut Report,
    chosen: &Chosen,
    files: Vec<ClassFile>,
    page: &mut Page,
    out: &mut W,
) -> Result<Vec<Refused>, ReportFault> {
    let mut rounds = Rounds::of(alloc, files)?;
    while let Some(file) = rounds.next(report.classes())? {
        page.add_further(alloc, report, chosen, file)?;
        page.write_if_full(out)?;
    }
    Ok(rounds.refusals(alloc, report.classes())?)
}
