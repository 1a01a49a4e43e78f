// The nodes of a small plan's tree: which levels are followed, and which nodes are reached from the opening.
#![tactic(auto)]

ghost use Rattle.std.specs.Prelude.{◌≡◌, ◌+◌, ◌*◌, ◌-◌, ◌^◌, ◌<◌, ltb, length};
ghost use Rattle.model.specs.Scale.{S};
ghost use Rattle.tree_nodes.specs.Nodes.{node_allowed};
ghost use Rattle.tree_nodes.specs.Nodes.{leads as Nodes·leads};

use model::{Question, SCALE};
use numbers::product;
use plain_engine::steps::{claims_after, followed, level_allowed};
use questions::needs::opening_allowed;

// A node of a month: its level and, for both, the claims left to place.
#[derive(Clone, Copy, PartialEq)]
pub struct Node {
    pub left: usize,
    pub level: usize,
}

// Whether a question follows a node at this level after so many months: the opening is looked at by high alone.
pub fn node_allowed(question: Question, month: usize, level: usize) -> bool
    ensures { result ≡ node_allowed question month level }
{
    if month == 0 {
        return opening_allowed(question, level);
    }
    level_allowed(question, level)
}

// Whether a month with this chance may pass without a claim.
fn may_pass(chance: u32) -> bool
    ensures { result ≡ ltb 0 ((S - chance) * S) }
{
    chance < SCALE
}

// Whether a claim of this weight may come in a month with this chance.
fn may_come(chance: u32, weight: u32) -> bool
    ensures { result ≡ ltb 0 (chance * weight) }
{
    0 < product(chance, weight)
}

// Whether branches of weight above 0 lead from a node, after so many months, through the months of these chances to the target.
pub fn leads(
    question: Question,
    month: usize,
    chances: &[u32],
    severity: &[u32],
    node: Node,
    target: Node,
) -> bool
    requires { (month + length chances.now < 2 ^ 64) × (node.level + length chances.now < 2 ^ 64) }
    ensures { result ≡ Nodes·leads question severity.now month chances.now target.left target.level node.left node.level }
{
    if chances.is_empty() {
        return node == target;
    }
    let Node { left, level } = node;
    if !node_allowed(question, month, level) {
        return false;
    }
    let later = &chances[1..];
    let next = month + 1;
    let chance = chances[0];
    let quiet = Node {
        left,
        level: level + 1,
    };
    if may_pass(chance) && leads(question, next, later, severity, quiet, target) {
        return true;
    }
    let fewer = claims_after(question, left);
    let most = followed(question, left, level.min(severity.len()));
    for x in 0..most {
        let weight = severity[x];
        let after = Node {
            left: fewer,
            level: level - x,
        };
        if may_come(chance, weight) && leads(question, next, later, severity, after, target) {
            return true;
        }
    }
    false
}
