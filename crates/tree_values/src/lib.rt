// A node of a small plan's tree after a word: its level, the claims left and its value, appended to a text.
#![tactic(auto)]

ghost use Rattle.std.specs.Prelude.{◌≡◌, ◌+◌, ◌≤◌, length};
ghost use Rattle.text.specs.Text.{Appended};
ghost use Rattle.plain_engine.specs.Steps.{Terms};
ghost use Rattle.tree_values.specs.Lines.{node_bounds, left_text, place_text, value_text};

use model::{Bounds, Question, Rounding};
use plain_engine::steps::taken;
use plain_engine::value::value;
use text::{put_entry, put_line};
use tree_nodes::{Node, node_allowed};

// The claims left to place, where the question counts them.
fn put_left(text: &mut [u8], at: usize, question: Question, left: usize) -> usize
    requires { at + length (left_text question left) ≤ length text.old }
    ensures { Appended text.old at (left_text question left) text.new result }
{
    match question {
        Question::Survive => at,
        // std has no From that makes a usize a u64.
        Question::Both(_) => put_entry(text, at, b" left", &[left as u64]),
        Question::High(_) => at,
        Question::Low(_) => at,
    }
}

// A node after a word: its level, the claims left, and its value.
fn put_place(
    text: &mut [u8],
    at: usize,
    word: &[u8],
    question: Question,
    node: Node,
    allowed: bool,
    bounds: Bounds,
) -> usize
    requires { at + length (place_text word.now question node.left node.level allowed bounds) ≤ length text.old }
    ensures { Appended text.old at (place_text word.now question node.left node.level allowed bounds) text.new result }
{
    let numbers = [u64::from(bounds.lower), u64::from(bounds.upper)];
    // std has no From that makes a usize a u64.
    let end = put_entry(text, at, word, &[node.level as u64]);
    let end = put_left(text, end, question, node.left);
    if allowed {
        return put_line(text, end, b"", &numbers);
    }
    put_line(text, end, b" forbidden", &numbers)
}

// The value of a node either way, 0 where the question forbids its level.
fn bounds_of(
    question: Question,
    month: usize,
    chances: &[u32],
    severity: &[u32],
    node: Node,
) -> Bounds
    requires { Terms severity.now chances.now node.level }
    ensures { result ≡ node_bounds question severity.now month chances.now node.left node.level }
{
    let Node { left, level } = node;
    let allowed = node_allowed(question, month, level);
    let lower = value(question, chances, severity, left, level, Rounding::Down);
    let upper = value(question, chances, severity, left, level, Rounding::Up);
    Bounds {
        lower: taken(allowed, lower),
        upper: taken(allowed, upper),
    }
}

// A node after a word, with its value.
pub fn put_value(
    text: &mut [u8],
    at: usize,
    word: &[u8],
    question: Question,
    month: usize,
    chances: &[u32],
    severity: &[u32],
    node: Node,
) -> usize
    requires terms { Terms severity.now chances.now node.level }
    requires level_in_bounds { at + length (value_text word.now question severity.now month chances.now node.left node.level) ≤ length text.old }
    ensures { Appended text.old at (value_text word.now question severity.now month chances.now node.left node.level) text.new result }
{
    let allowed = node_allowed(question, month, node.level);
    let bounds = bounds_of(question, month, chances, severity, node);
    put_place(text, at, word, question, node, allowed, bounds)
}
