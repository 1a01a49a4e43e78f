// The tree of a small plan as text: from the bytes of a plan and a question to the nodes month by month, or why there are none.
#![tactic(auto)]

ghost use Rattle.std.specs.Prelude.{◌≡◌, ◌++◌, ◌+◌, ◌≤◌, length, take, drop};
ghost use Rattle.model.specs.Refusal.{Accepted, refusal_number};
ghost use Rattle.text.specs.Text.{Appended};
ghost use Rattle.report_lines.specs.Lines.{refused_line};
ghost use Rattle.tree_text.specs.Tree.{small_plan, node_if, level_text, month_text, first_part, accepted_part, tree_part};
ghost use Rattle.tree_text.specs.Rooms.{text_room};
ghost use Rattle.tree_text.specs.Terms.{SmallTerms};

use codec::read_plan;
use model::{Ask, Head, Question, Refusal, limits};
use plain_engine::check;
use plain_engine::value::claims_to_place;
use plan::lengths::row_length;
use report_lines::lines::put_refused;
use tree_lines::put_node;
use tree_nodes::{Node, leads};

// Room for each part of every tree: the proof of `tree` fails where it is less than `text_room`.
pub const TEXT: usize = 65536;

// How many parts a tree has: one for each month that a small plan can have, and one before the first.
pub const PARTS: usize = limits::SMALL_MONTHS + 1;

// Writes a part of a plan's tree to the start of the text, past which nothing changes, and answers how long it is: the nodes after so many months. A refusal is
// the first part, the one of no months, and all others are empty, as those of months that the plan does not have. `within` is for a caller that takes the
// first r bytes.
pub fn tree(bytes: &[u8], question: Question, month: usize, text: &mut [u8; TEXT]) -> usize
    ensures answered { result ≡ length (tree_part question bytes.now month) }
    ensures written { text.new ≡ tree_part question bytes.now month ++ drop result text.old }
    ensures within { (result ≤ length text.new) × (result ≡ length (take result text.new)) }
{
    put_tree(text, bytes, question, month)
}

fn put_tree(text: &mut [u8], bytes: &[u8], question: Question, month: usize) -> usize
    requires { text_room ≤ length text.old }
    ensures { Appended text.old 0 (tree_part question bytes.now month) text.new result }
{
    let plan = match read_plan(bytes) {
        Ok(plan) => plan,
        Err(refusal) => return put_first(text, month, refusal),
    };
    let head = plan.head;
    let used = row_length(head);
    put_plan(text, head, &plan.row[..used], question, month)
}

// A refusal, where it is the part of no months.
fn put_first(text: &mut [u8], month: usize, refusal: Refusal) -> usize
    requires { text_room ≤ length text.old }
    ensures { Appended text.old 0 (first_part month (refused_line (refusal_number refusal))) text.new result }
{
    if month == 0 {
        return put_refused(text, 0, refusal.number());
    }
    0
}

// The part of an accepted plan.
fn put_plan(text: &mut [u8], head: Head, row: &[u32], question: Question, month: usize) -> usize
    requires accepted { Accepted head row.now }
    requires text_room_in_bounds { text_room ≤ length text.old }
    ensures { Appended text.old 0 (accepted_part question head row.now month) text.new result }
{
    if let Err(refusal) = check(Ask { head, question }, row) {
        return put_first(text, month, refusal);
    }
    let months = head.months;
    let end = months + head.sizes;
    if months < month {
        return 0;
    }
    put_month(
        text,
        question,
        month,
        head.opening,
        &row[..months],
        &row[months..end],
        row[end],
    )
}

// The nodes after so many months, from the highest level down.
fn put_month(
    text: &mut [u8],
    question: Question,
    month: usize,
    opening: usize,
    chances: &[u32],
    severity: &[u32],
    tail: u32,
) -> usize
    requires small_terms { SmallTerms question opening chances.now severity.now tail month }
    requires month_in_bounds { length (month_text question (small_plan opening chances.now severity.now tail) month) ≤ length text.old }
    ensures { Appended text.old 0 (month_text question (small_plan opening chances.now severity.now tail) month) text.new result }
{
    let top = opening + month;
    let mut end = 0;
    for level in (0..=top).rev() {
        end = put_level(
            text, end, question, month, opening, chances, severity, tail, level,
        );
    }
    end
}

// The nodes at a level, from the most claims left to none.
fn put_level(
    text: &mut [u8],
    at: usize,
    question: Question,
    month: usize,
    opening: usize,
    chances: &[u32],
    severity: &[u32],
    tail: u32,
    level: usize,
) -> usize
    requires small_terms { SmallTerms question opening chances.now severity.now tail month }
    requires level_bound { level ≤ opening + month }
    requires level_in_bounds { at + length (level_text question (small_plan opening chances.now severity.now tail) month level) ≤ length text.old }
    ensures { Appended text.old at (level_text question (small_plan opening chances.now severity.now tail) month level) text.new result }
{
    let most = claims_to_place(question);
    let least = most.saturating_sub(month);
    let mut end = at;
    for left in (least..=most).rev() {
        end = put_reached(
            text,
            end,
            question,
            month,
            opening,
            chances,
            severity,
            tail,
            Node { left, level },
        );
    }
    end
}

// A node with its lines, if it is reached from the opening.
fn put_reached(
    text: &mut [u8],
    at: usize,
    question: Question,
    month: usize,
    opening: usize,
    chances: &[u32],
    severity: &[u32],
    tail: u32,
    node: Node,
) -> usize
    requires small_terms { SmallTerms question opening chances.now severity.now tail month }
    requires level_bound { node.level ≤ opening + month }
    requires left_in_bounds { at + length (node_if question (small_plan opening chances.now severity.now tail) month node.level node.left) ≤ length text.old }
    ensures { Appended text.old at (node_if question (small_plan opening chances.now severity.now tail) month node.level node.left) text.new result }
{
    let first = Node {
        left: claims_to_place(question),
        level: opening,
    };
    if leads(question, 0, &chances[..month], severity, first, node) {
        return put_node(
            text,
            at,
            question,
            month,
            &chances[month..],
            severity,
            tail,
            node,
        );
    }
    at
}
