// The top call.
ghost use Rattle.std.specs.Prelude.{◌≡◌, ◌≢◌, ◌⊎◌, ◌^◌, ◌≤◌, ◌<◌, ℕ, List, map, string_bytes, None, Some};
ghost use Rattle.std.specs.Io.KnownBytes.{IsAtEnd};
ghost use Rattle.cdl_source.specs.Causes.{Rose};
ghost use Rattle.cdl_source.specs.Outside.{Contents, DueBeginsWith, written_after};
ghost use Rattle.cdl_job.specs.Job.{Task, task_of, task_of_job};
ghost use Rattle.cdl_job.specs.Outcome.{files_of, HasFewModels, HasSomeModels};
ghost use Rattle.cdl_command.specs.Answer.{Answers, DueOf, Result};
ghost use Rattle.cdl_command.specs.Top.{Works, OutAfterWords, ErrAfterWords, BegunFor};

use crate::laws::one_answer;
use crate::stop::{Ended, finished, refused_root};
use crate::work::{check, cxf, run};
use cdl_job::{Job, Outcome, report, usage, words as job_of};
use cdl_source::rules::NOT_BUILT;
use cdl_source::{Files, Sink};
use std::alloc::Global;

/// Does what the words ask for, which are those after the program's name: reads files, writes what is due on `out`, and
/// then the text of the outcome on `err`. docs/COMMAND.md has the verbs, the outcomes and their texts.
///
/// `files` may have a list of the names that are due. Then it begins with the files of the job, in the order of work: the
/// models or the document, and then the table.
pub fn command<F: Files, O: Sink, E: Sink>(
    alloc: Global,
    words: &[String],
    files: &mut F,
    out: &mut O,
    err: &mut E,
) -> Outcome
    requires room { F.begun files.old ≤ 2 ^ 32 }
    requires due { DueOf (F.due files.old) (task_of (map string_bytes words.now)) }

    // Memory and device faults aside, this is the answer to the words and to the contents of the files.
    ensures headline { ¬ Rose (F.faults files.old) (F.faults files.new) → ¬ Rose (O.faults out.old) (O.faults out.new)
        → ¬ Rose (E.faults err.old) (E.faults err.new) → result ≢ Outcome.OutOfMemory
        → Result (task_of (map string_bytes words.now)) (F.contents files.old) result (O.written out.old) (O.written out.new) }

    // So it is Done with the text of a job that can be done: where no rule is broken, and no tick of the table has a fault.
    ensures complete { (task : Task) (held : Contents) (text : List ℕ) → task_of (map string_bytes words.now) ≡ Some task → F.contents files.old ≡ Some held
        → Answers task (Some held) Outcome.Done text → ¬ Rose (F.faults files.old) (F.faults files.new) → ¬ Rose (O.faults out.old) (O.faults out.new)
        → ¬ Rose (E.faults err.old) (E.faults err.new) → result ≢ Outcome.OutOfMemory
        → (result ≡ Outcome.Done) × (O.written out.new ≡ written_after (O.written out.old) text) }

    // Each answer has its cause.
    ensures usage { result ≡ Outcome.Usage → task_of (map string_bytes words.now) ≡ None }
    ensures no_job { task_of (map string_bytes words.now) ≡ None
        → (result ≡ Outcome.Usage) ⊎ ((result ≡ Outcome.WriteFault) × Rose (E.faults err.old) (E.faults err.new)) }
    ensures read { result ≡ Outcome.ReadFault → Rose (F.faults files.old) (F.faults files.new) }
    ensures write { result ≡ Outcome.WriteFault → Rose (O.faults out.old) (O.faults out.new) ⊎ Rose (E.faults err.old) (E.faults err.new) }

    // A fault is answered as one: none is passed over, and none is told as want of memory.
    ensures read_fault { F.faults files.old < F.faults files.new
        → (result ≡ Outcome.ReadFault) ⊎ ((result ≡ Outcome.WriteFault) × Rose (E.faults err.old) (E.faults err.new)) }
    ensures write_fault { O.faults out.old < O.faults out.new → result ≡ Outcome.WriteFault }

    // Done comes only where the files were read to their ends.
    ensures ends { result ≡ Outcome.Done → IsAtEnd (F.rest files.new) }

    // Files of the job alone are begun, each in its turn, and none for a job that isn't built.
    ensures begun { BegunFor (task_of (map string_bytes words.now)) (F.contents files.old) (F.begun files.old) (F.begun files.new) }
    ensures contents { F.contents files.new ≡ F.contents files.old }

    // What stands after it: on `out` all that was due to Done, a front of it behind a fault of a sink or want of memory, and
    // else what stood there before; on `err` the outcome's text. Where the outcome is WriteFault and `out` has not failed,
    // `err` has.
    ensures out { OutAfterWords (task_of (map string_bytes words.now)) (F.contents files.old) result (O.written out.old) (O.written out.new)
        (Rose (O.faults out.old) (O.faults out.new)) (Rose (E.faults err.old) (E.faults err.new)) }
    ensures err { ErrAfterWords (task_of (map string_bytes words.now)) (F.contents files.old) result (O.written out.old) (O.written out.new)
        (E.written err.old) (E.written err.new) (Rose (E.faults err.old) (E.faults err.new)) }
{
    match job_of(words) {
        None => usage(err),
        Some(job) => {
            one_answer();
            let Ended {
                outcome,
                line,
                column,
            } = work(alloc, job, files, out);
            report(alloc, job, line, column, outcome, err)
        }
    }
}

// All but the text on `err`.
fn work<F: Files, O: Sink>(alloc: Global, job: Job<'_>, files: &mut F, out: &mut O) -> Ended
    requires few { HasFewModels job }
    requires some { HasSomeModels job }
    requires room { F.begun files.old ≤ 2 ^ 32 }
    requires due { DueBeginsWith (F.due files.old) (files_of (task_of_job job)) }
    ensures works { Works (task_of_job job.entry) (F.contents files.old) (F.begun files.old) (F.begun files.new)
        (Rose (F.faults files.old) (F.faults files.new)) (Rose (O.faults out.old) (O.faults out.new))
        result (O.written out.old) (O.written out.new) }
    ensures ends { result.outcome ≡ Outcome.Done → IsAtEnd (F.rest files.new) }
    ensures contents { F.contents files.new ≡ F.contents files.old }
    ensures files_later { F.faults files.old ≤ F.faults files.new }
    ensures out_later { O.faults out.old ≤ O.faults out.new }
    ensures read_fault { F.faults files.old < F.faults files.new → result.outcome ≡ Outcome.ReadFault }
    ensures write_fault { O.faults out.old < O.faults out.new → result.outcome ≡ Outcome.WriteFault }
{
    match job {
        Job::Check { class, models } => finished(check(alloc, class, models, files, out)),
        Job::Run {
            class,
            table,
            models,
        } => finished(run(alloc, class, table, models, files, out)),
        Job::Cxf { class, models } => finished(cxf(alloc, class, models, files, out)),
        Job::CheckCxf { .. } | Job::RunCxf { .. } | Job::Sample { .. } => {
            finished(Err(refused_root(alloc, NOT_BUILT)))
        }
    }
}
