// The report of a mixture, document 02's mix: the layer below the call that reads one. What its functions require, an accepted mixture, questions within the
// limits and enough room give.
#![tactic(auto)]

ghost use Rattle.std.specs.Prelude.{◌≤◌, length};
ghost use Rattle.mixture_plans.specs.Rows.{components_of};
ghost use Rattle.mixture_plans.specs.Refusal.{plans_head};
ghost use Rattle.mixture_plans.proofs.CheckLaws.{mixture_facts, head_accepted};
ghost use Rattle.text.specs.Text.{Appended};
ghost use Rattle.report_lines.specs.Asking.{Cleared};
ghost use Rattle.report_lines.proofs.AskingLaws.{room_still};
ghost use Rattle.report_lines.proofs.LineLaws.{bounds_short};
ghost use Rattle.mixture_lines.specs.Lines.{mixture_line, mixture_report, mixture_text_room, MixtureAnswerable, mixture_needs};

use mixture::ask;
use mixture_plans::Mixture;
use model::{Head, Question};
use report_groups::{Asked, put_group};
use report_lines::lines::{put_bounds, put_head};

// All lines of the report, from the start of the text.
pub fn put_mixture(text: &mut [u8], mixture: Mixture, row: &[u32], workspace: &mut [u32]) -> usize
    requires mixture_answerable { MixtureAnswerable mixture row.now workspace.old }
    requires mixture_text_room_in_bounds { mixture_text_room ≤ length text.old }
    ensures written { Appended text.old 0 (mixture_report (plans_head mixture) (components_of mixture row.now)) text.new result }
    ensures cleared { Cleared (mixture_needs mixture) workspace.old workspace.new }
{
    let asked = MixtureAsked { mixture, row };
    let end = put_head(text, 0, asked.head());
    let end = put_group(text, end, &asked, Question::Survive, workspace);
    let end = put_group(text, end, &asked, Question::Both(0), workspace);
    let end = put_group(text, end, &asked, Question::High(0), workspace);
    put_group(text, end, &asked, Question::Low(0), workspace)
}

// A mixture and its plans' rows, to be asked.
#[derive(Clone, Copy)]
struct MixtureAsked<'a> {
    mixture: Mixture,
    row: &'a [u32],
}

impl<'a> Asked for MixtureAsked<'a> {
    ghost asked_head = { λ s. plans_head s.mixture };

    ghost asked_line = { λ s. mixture_line (components_of s.mixture s.row.now) };

    ghost can_answer = { λ s ws. MixtureAnswerable s.mixture s.row.now ws };

    fn head(&self) -> Head {
        self.mixture.heads[0]
    }

    fn put_question(
        &self,
        text: &mut [u8],
        at: usize,
        question: Question,
        workspace: &mut [u32],
    ) -> usize {
        let bounds = ask(self.mixture, question, self.row, workspace).unwrap();
        let (lower, upper) = (u64::from(bounds.lower), u64::from(bounds.upper));
        put_bounds(text, at, question, lower, upper)
    }

    ghost accepted = { λ s ws a. head_accepted _ _ (mixture_facts _ _ a.heads_long a.weights_long a.accepted) };

    ghost short = { λ s q. unfold mixture_line in bounds_short q _ _ };

    ghost room = { λ s ws a. a.room };

    ghost still = { λ s n ws ws' a cleared. record { accepted = a.accepted; heads_long = a.heads_long; weights_long = a.weights_long; room = room_still a.room cleared } };
}
