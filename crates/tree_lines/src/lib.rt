// The lines of a node of a small plan's tree, appended to a text: the node, and below it what its value follows from.
#![tactic(auto)]

ghost use Rattle.std.specs.Prelude.{suc, ◌+◌, ◌^◌, ◌<◌, ◌≤◌, length};
ghost use Rattle.model.specs.Scale.{S};
ghost use Rattle.model.specs.Sums.{total};
ghost use Rattle.text.specs.Text.{Appended};
ghost use Rattle.plain_engine.specs.Steps.{Terms};
ghost use Rattle.tree_values.specs.Lines.{claim_text, claim_texts, branch_texts, node_text};

use model::Question;
use plain_engine::steps::{claims_after, followed};
use ruin_rows::ruin_weight;
use text::{put_entry, put_line};
use tree_nodes::{Node, node_allowed};
use tree_values::put_value;

// The line of a claim whose weight is at a place of the table; there is none of an empty size.
fn put_claim(
    text: &mut [u8],
    at: usize,
    question: Question,
    month: usize,
    later: &[u32],
    severity: &[u32],
    node: Node,
    place: usize,
) -> usize
    requires terms { Terms severity.now later.now node.level }
    requires place_lt_level { (place < node.level) × (place < length severity.now) × (month + 1 < 2 ^ 64) }
    requires place_in_bounds { at + length (claim_text question severity.now month later.now node.left node.level (suc place)) ≤ length text.old }
    ensures { Appended text.old at (claim_text question severity.now month later.now node.left node.level (suc place)) text.new result }
{
    let weight = u64::from(severity[place]);
    if weight == 0 {
        return at;
    }
    // std has no From that makes a usize a u64.
    let end = put_entry(text, at, b"  claim", &[place as u64 + 1]);
    let end = put_entry(text, end, b" weight", &[weight]);
    if followed(question, node.left, 1) == 0 {
        return put_line(text, end, b" none left", &[0, 0]);
    }
    let fewer = claims_after(question, node.left);
    let after = Node {
        left: fewer,
        level: node.level - place,
    };
    put_value(
        text,
        end,
        b" level",
        question,
        month + 1,
        later,
        severity,
        after,
    )
}

// The lines of all sizes that do not ruin.
fn put_claims(
    text: &mut [u8],
    at: usize,
    question: Question,
    month: usize,
    later: &[u32],
    severity: &[u32],
    node: Node,
) -> usize
    requires terms { Terms severity.now later.now node.level }
    requires month_bound { month + 1 < 2 ^ 64 }
    requires level_in_bounds { at + length (claim_texts question severity.now month later.now node.left node.level) ≤ length text.old }
    ensures { Appended text.old at (claim_texts question severity.now month later.now node.left node.level) text.new result }
{
    let mut end = at;
    for i in 0..node.level.min(severity.len()) {
        end = put_claim(text, end, question, month, later, severity, node, i);
    }
    end
}

// What the value of a node follows from, with a month to come.
fn put_branches(
    text: &mut [u8],
    at: usize,
    question: Question,
    month: usize,
    chances: &[u32],
    severity: &[u32],
    tail: u32,
    node: Node,
) -> usize
    requires terms { Terms severity.now chances.now node.level }
    requires chances_nonzero { (0 < length chances.now) × (month + 1 < 2 ^ 64) × (total severity.now + tail ≤ S) }
    requires level_in_bounds { at + length (branch_texts question severity.now tail month chances.now node.left node.level) ≤ length text.old }
    ensures { Appended text.old at (branch_texts question severity.now tail month chances.now node.left node.level) text.new result }
{
    let later = &chances[1..];
    let chance = [u64::from(chances[0])];
    let quiet = Node {
        left: node.left,
        level: node.level + 1,
    };
    let ruins = [ruin_weight(severity, tail, quiet.level)];
    let end = put_line(text, at, b"  chance", &chance);
    let end = put_value(
        text,
        end,
        b"  no claim level",
        question,
        month + 1,
        later,
        severity,
        quiet,
    );
    let end = put_claims(text, end, question, month, later, severity, node);
    put_line(text, end, b"  ruin weight", &ruins)
}

// A node and, where it is followed, the lines below it.
pub fn put_node(
    text: &mut [u8],
    at: usize,
    question: Question,
    month: usize,
    chances: &[u32],
    severity: &[u32],
    tail: u32,
    node: Node,
) -> usize
    requires terms { Terms severity.now chances.now node.level }
    requires month_bound { (month + 1 < 2 ^ 64) × (total severity.now + tail ≤ S) }
    requires level_in_bounds { at + length (node_text question severity.now tail month chances.now node.left node.level) ≤ length text.old }
    ensures { Appended text.old at (node_text question severity.now tail month chances.now node.left node.level) text.new result }
{
    // std has no From that makes a usize a u64.
    let end = put_entry(text, at, b"month", &[month as u64]);
    let end = put_value(
        text, end, b" level", question, month, chances, severity, node,
    );
    if chances.is_empty() {
        return end;
    }
    if !node_allowed(question, month, node.level) {
        return end;
    }
    put_branches(text, end, question, month, chances, severity, tail, node)
}
