//! The report of a run that has ended.

ghost use Rattle.std.specs.Prelude.{◌≡◌, [], ◌∷◌, IfOk, option_to_list};
ghost use Rattle.bz_passes.specs.Exchange.{Fits};
ghost use Rattle.bz_engine.specs.Messages.{fault_text};
ghost use Rattle.bz_engine.specs.Outcome.{told_by};
ghost use Rattle.bz_engine.specs.SessionValue.{told_of_progress, told_alone};

use crate::message;
use crate::progress::Progress;
use crate::report::{End, Report, SyntaxFault};
use crate::rules::Rules;
use bz_memory::NoMemory;
use bz_passes::kept::{is_some_not_found, tell};
use bz_passes::pass::Pass;
use bz_passes::texts::Texts;
use bz_rule::{Command, Target, Text};
use std::alloc::Global;

/// What is told of a file without fault: all that was kept, which is then of no use.
pub(crate) fn report_of_all(
    rules: Rules<'_>,
    passes: &[Pass<Target, Command>],
    progress: &mut Progress,
) -> Result<Report, NoMemory>
    requires { Fits progress.old.kept passes.now }
    ensures { IfOk result (λ report. told_by report
        ≡ told_of_progress rules.entry.home.now passes.now progress.old) }
{
    let kept = progress.kept.as_mut_slice();
    let failed = progress.failed || is_some_not_found(&rules, passes, kept);
    let log = tell(rules.alloc, &rules, passes, kept)?;
    let (lines, messages) = log.into_texts();
    Ok(Report {
        lines,
        messages,
        changed: progress.changed,
        failed,
        end: End::Whole,
    })
}

/// What is told of a run that ended before the end of its file: one message, and no lines.
pub(crate) fn report_of_one(
    alloc: Global,
    message: Option<Text>,
    changed: bool,
    end: End,
) -> Result<Report, NoMemory>
    ensures { IfOk result (λ report. told_by report ≡ told_alone (option_to_list message) changed end) }
{
    let mut messages = Texts::new(alloc);
    if let Some(message) = message {
        messages.push(message.as_str())?;
    }
    Ok(Report {
        lines: Texts::new(alloc),
        messages,
        changed,
        failed: true,
        end,
    })
}

/// What is told of a file with a fault.
pub(crate) fn report_of_fault(
    alloc: Global,
    fault: SyntaxFault,
    changed: bool,
) -> Result<Report, NoMemory>
    ensures { IfOk result (λ report. told_by report
        ≡ told_alone (fault_text fault ∷ []) changed (End.Syntax fault)) }
{
    let message = message::fault_text(alloc, fault)?;
    report_of_one(alloc, Some(message), changed, End::Syntax(fault))
}
