// A question asked of a mixture, document 02's mix: one chance out of several.
#![tactic(auto)]

ghost use Rattle.std.specs.Prelude.{◌≡◌, IfOk, length};
ghost use Rattle.model.specs.Refusal.{workspace_needed};
ghost use Rattle.model.specs.Memory.{zero_first};
ghost use Rattle.engine.specs.Answers.{answer_result};
ghost use Rattle.mixture_plans.specs.Rows.{components_of};
ghost use Rattle.mixture_plans.specs.Refusal.{ask_of_one};
ghost use Rattle.mixture.specs.Bounds.{EnclosesMixture};
ghost use Rattle.mixture.specs.Sums.{Askable, lower_sum, upper_sum};
ghost use Rattle.mixture.specs.Answers.{mixture_answer, mixture_workspace_after};

use mixture_plans::{Mixture, check_ask};
use model::{Ask, Bounds, Question, Refusal, Rounding};
use numbers::product;
use plan::lengths::row_length;
use rounding::divide;

// Answers one question about a mixture, whose plans' rows lie end to end in the lent row. The workspace is that of the question on one plan; whatever it
// holds, the part that is needed is 0 after an answer, and nothing else changes.
pub fn ask(
    mixture: Mixture,
    question: Question,
    row: &[u32],
    workspace: &mut [u32],
) -> Result<Bounds, Refusal>
    ensures answered { answer_result result ≡ mixture_answer mixture question row.now (length workspace.old) }
    ensures cleared { workspace.new ≡ mixture_workspace_after mixture question row.now workspace.old }
    ensures encloses { IfOk result (λ b. EnclosesMixture (components_of mixture row.now) question b.lower b.upper) }
{
    check_ask(mixture, question, row, workspace.len())?;
    let sums = weighted_sums(mixture, question, row, workspace);
    Ok(Bounds {
        lower: divide(sums.lower, Rounding::Down),
        upper: divide(sums.upper, Rounding::Up),
    })
}

// The weighted sums of the plans' lower and of their upper bounds.
#[derive(Clone, Copy)]
struct Sums {
    lower: u64,
    upper: u64,
}

// Each plan is asked in the same workspace, of which all need the same part, since they are alike; none refuses.
fn weighted_sums(mixture: Mixture, question: Question, row: &[u32], workspace: &mut [u32]) -> Sums
    requires { Askable mixture question row.now (length workspace.old) }
    ensures lower { result.lower ≡ lower_sum mixture question row.now }
    ensures upper { result.upper ≡ upper_sum mixture question row.now }
    ensures cleared { workspace.new ≡ zero_first (workspace_needed (ask_of_one mixture question)) workspace.old }
{
    let heads = mixture.heads;
    let weights = mixture.weights;
    let count = mixture.count;
    let mut lower: u64 = 0;
    let mut upper: u64 = 0;
    let mut start = 0;
    for i in 0..count {
        let head = heads[i];
        let end = start + row_length(head);
        let bounds = engine::ask(Ask { head, question }, &row[start..end], workspace).unwrap();
        let weight = weights[i];
        lower += product(weight, bounds.lower);
        upper += product(weight, bounds.upper);
        start = end;
    }
    Sums { lower, upper }
}
