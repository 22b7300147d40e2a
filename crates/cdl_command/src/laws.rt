// Laws of the answer to a job.
ghost use Rattle.std.specs.Prelude.{◌≡◌, List, Option, Some, ℕ, ℤ};
ghost use Rattle.cdl_source.specs.Outside.{Contents};
ghost use Rattle.cdl_job.specs.Job.{Task};
ghost use Rattle.cdl_job.specs.declared.outcome.Outcome.{Outcome as Answer};
ghost use Rattle.cdl_network.specs.FirstBroken.{Accepted};
ghost use Rattle.cdl_params.specs.Kept.{Model};
ghost use Rattle.cdl_model.specs.Apart.{IsUnfolded};
ghost use Rattle.cdl_model.specs.Networks.{network};
ghost use Rattle.cdl_model.specs.Parts.{Unfolding};
ghost use Rattle.cdl_table.specs.TableRow.{TableRow};
ghost use Rattle.cdl_trace.specs.Ends.{Ends};
ghost use Rattle.cdl_command.specs.Answer.{Answers};
ghost use Rattle.cdl_command.specs.Sequences.{labelled};

use cdl_expand::{one_expansion, one_refusal};
use cdl_lex::one_splitting;
use cdl_model::model_is_a_network;
use cdl_parse::one_verdict;

/// A job has one answer, where it is told what the files hold: one outcome, and one text on standard output.
pub fn one_answer()
    ensures { (task : Task) (held : Contents) (a b : Answer) (s t : List ℕ) → Answers task (Some held) a s → Answers task (Some held) b t → (a ≡ b) × (s ≡ t) }
{
    one_splitting();
    one_verdict();
    one_expansion();
    one_refusal();
}

/// A model whose network breaks no rule has a trace for each list of rows: a solution of its equations, and every other prints the
/// same text and ends with the same fault or none.
pub fn each_table_has_a_trace()
    ensures { (w : Model) (u : Unfolding) (rows : List TableRow) → IsUnfolded w u → Accepted (network u)
        → (fault : Option (ℤ × List ℕ)) × (text : List ℕ) × Ends (labelled u) rows fault text }
{
    model_is_a_network();
}
