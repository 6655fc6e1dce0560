//! A run that writes the new text of a file.

ghost use Rattle.std.specs.Prelude.{◌≡◌, Some};
ghost use Rattle.bz_program.specs.FileRuns as spec;

use crate::run::{Job, is_kept};
use bz_engine::{Failed, Report, RunFault, Sink, Source};
use bz_folder::Author;

/// How a run ended.
#[derive(Drop)]
pub enum Ended {
    /// It has not.
    NotYet,
    Told(Report),
    Failed(RunFault),
}

/// A run that writes the new text of a file: it is asked for once, and then tells how it ended.
#[derive(Drop)]
pub struct FileRun<S> {
    source: S,
    /// What is to be done, until the run begins.
    job: Option<Job>,
    ended: Ended,
}

impl<S> FileRun<S> {
    /// A run over this source, which has not begun.
    pub fn new(source: S, job: Job) -> FileRun<S>
        ensures { (result.job ≡ Some job) × (result.ended ≡ Ended.NotYet) × (result.source ≡ source) }
    {
        FileRun {
            source,
            job: Some(job),
            ended: Ended::NotYet,
        }
    }

    /// How the run ended.
    pub fn ended(self) -> Ended
    where
        S: Drop,
        ensures { result ≡ self.ended }
    {
        self.ended
    }
}

impl<S: Source> Author for FileRun<S> {
    ghost use Rattle.bz_program.specs.FileRuns as spec;

    ghost gives = { λ old text answer new. spec.GaveAnswer S.gave S.failures old.job old.source text answer new.source new.ended };

    fn write_to<W: Sink>(&mut self, sink: &mut W) -> Result<bool, Failed> {
        let Some(job) = self.job.take() else {
            return Err(Failed);
        };
        let keep_going = job.keep_going;
        match job.run(&mut self.source, sink) {
            Ok(report) => {
                let kept = is_kept(&report, keep_going);
                self.ended = Ended::Told(report);
                Ok(kept)
            }
            Err(fault) => {
                self.ended = Ended::Failed(fault);
                Err(Failed)
            }
        }
    }
}
