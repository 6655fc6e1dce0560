//! Law on the steps of a session: so many of them take so many chunks.

ghost use Rattle.std.specs.Prelude.{◌≡◌, ℕ, List, IfErr, OnErr};
ghost use Rattle.bz_devices.specs.Device.{IsCounted};
ghost use Rattle.bz_engine.specs.SessionValue.{IsSameRun, HasDone};
ghost use Rattle.bz_engine.specs.declared.session.SessionState.TheVariants.{Going, Ended, Stopped};
ghost use Rattle.bz_laws.specs.Steps.{HasManyMore, HasComeTo, HasMetFault};

use bz_engine::{RunFault, Session, Sink, Source, Step};

/// Takes so many steps, or fewer where the run ends before. After `More` one chunk more is done for each step, and what
/// was written since is their text. At the end what was written in all is the text of the run, and what the session
/// tells is its outcome. At a fault it is the text of the chunks that are done, and a front of what the next one adds.
/// A new session has done nothing, so this says what any number of its steps has done.
pub fn take_steps<S: Source, W: Sink>(
    session: &mut Session,
    source: &mut S,
    sink: &mut W,
    count: u64,
) -> Result<Step, RunFault>
    ensures same { IsSameRun session.old session.new }
    ensures more { result ≡ Ok Step.More → (ps cs : List (List ℕ)) (text : List ℕ) → HasDone session.old ps cs text
        → HasManyMore count (λ r. S.gave source.old r source.new) (λ t. W.took sink.old t sink.new) session.new ps cs text }
    ensures end { result ≡ Ok Step.End → session.old.state ≡ Going → (end : _) × (session.new.state ≡ Ended end)
        × ((ps cs : List (List ℕ)) (text : List ℕ) → HasDone session.old ps cs text
        → HasComeTo count end (λ r. S.gave source.old r source.new) (λ t. W.took sink.old t sink.new) session.new ps cs text) }
    ensures fault { IfErr result (λ fault. session.old.state ≡ Going
        → (ps cs : List (List ℕ)) (text : List ℕ) → HasDone session.old ps cs text
        → HasMetFault count fault (λ r. S.gave source.old r source.new) (λ t. W.took sink.old t sink.new) session.new ps cs text) }
    ensures stops { OnErr result (session.new.state ≡ Stopped) }
    ensures reads_counted { session.old.state ≡ Going
        → IsCounted (result ≡ Err RunFault.ReadFailed) (S.failures source.old) (S.failures source.new) }
    ensures writes_counted { session.old.state ≡ Going
        → IsCounted (result ≡ Err RunFault.WriteFailed) (W.failures sink.old) (W.failures sink.new) }
{
    let mut taken = 0;
    while taken < count {
        match session.step(source, sink)? {
            Step::More => taken += 1,
            Step::End => return Ok(Step::End),
        }
    }
    Ok(Step::More)
}
