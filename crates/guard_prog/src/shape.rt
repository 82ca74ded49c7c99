// The conditions under which a draft is well shaped.
ghost use Rattle.std.specs.Prelude.{◌≡◌, ◌^◌, ◌==◌, ◌&&◌, IfNone, IfSome, nat_le, nat_lt, not, slice_get};
ghost use Rattle.std.specs.List.{list_all, list_any, zip};
ghost use Rattle.chk_base.specs.Term.{term_of};
ghost use Rattle.chk_base.specs.Widths.{limit_of};
ghost use Rattle.guard_prog.specs.Drafts.{point_of};
ghost use Rattle.guard_prog.specs.WellShaped.{starts_fit, sizes_fit, begins_idle, first_fits, is_idle_control, idle_fits, named_points, may_name, controls_fit, are_distinct_by, labels_fit, names_cells, sets_fit, sets_name_cells, cells_fit, is_width, input_fits, inputs_fit, point_fits, IsWellShaped, IsFirstBreak};

use crate::draft::{Alternative, Control, Draft};
use chk_base::expr::Expr;
use chk_base::sets::Set;
use chk_base::word::Width;

// The alternatives of a point; none where there is no such point.
pub(crate) fn alternatives_of(draft: &Draft, i: usize) -> &[Alternative]
    ensures { result.now ≡ point_of draft.now i }
{
    match draft.points.get(i) {
        Some(point) => point.items(),
        None => &[],
    }
}

fn is_start(width: Width, value: u32) -> bool
    ensures { result ≡ nat_lt value (limit_of width) }
{
    match width {
        Width::W1 => value < 2,
        Width::W8 => value < 0x100,
        Width::W16 => value < 0x1_0000,
        Width::W32 => true,
    }
}

fn are_within(widths: &[Width], starts: &[u32]) -> bool
    ensures { result ≡ list_all (λ p. nat_lt p.1 (limit_of p.0)) (zip widths.now starts.now) }
{
    widths
        .iter()
        .zip(starts)
        .all(|(width, start)| is_start(*width, *start))
}

fn are_starts(widths: &[Width], starts: &[u32]) -> bool
    ensures { result ≡ starts_fit widths.now starts.now }
{
    widths.len() == starts.len() && are_within(widths, starts)
}

fn are_sizes_right(draft: &Draft) -> bool
    ensures { result ≡ sizes_fit draft.now }
{
    let points = draft.points.len();
    1 <= points
        && points <= 0x1_0000
        && draft.widths.len() < 0x1_0000
        && are_starts(draft.widths.items(), draft.starts.items())
}

fn are_above_idle(stack: &[u16]) -> bool
    ensures { result ≡ list_all (λ q. not (q == 0)) stack.now }
{
    stack.iter().all(|q| *q != 0)
}

fn begins_with_idle(stack: &[u16]) -> bool
    ensures { result ≡ begins_idle stack.now }
{
    match stack.split_first() {
        Some((bottom, above)) => *bottom == 0 && are_above_idle(above),
        None => false,
    }
}

fn are_points(n: usize, stack: &[u16]) -> bool
    ensures { result ≡ list_all (λ q. nat_lt q n) stack.now }
{
    stack.iter().all(|q| (*q as usize) < n)
}

fn is_first_right(draft: &Draft) -> bool
    ensures { result ≡ first_fits draft.now }
{
    let first = draft.first.items();
    begins_with_idle(first)
        && are_points(draft.points.len(), first)
        && first.len() <= draft.depth as usize + 1
}

fn is_for_idle(control: Control) -> bool
    ensures { result ≡ is_idle_control control }
{
    match control {
        Control::Goto(q) => q == 0,
        Control::Push { below, start } => below == 0 && start != 0,
        Control::Pop | Control::PopPush(_) => false,
        Control::Fail => true,
    }
}

fn is_idle_right(draft: &Draft) -> bool
    ensures { result ≡ idle_fits draft.now }
{
    alternatives_of(draft, 0)
        .iter()
        .all(|a| is_for_idle(a.control))
}

fn is_nameable(n: usize, i: usize, q: u16) -> bool
    ensures { result ≡ may_name n i q }
{
    (q as usize) < n && (i == 0 || q != 0)
}

fn names_points(n: usize, i: usize, control: Control) -> bool
    ensures { result ≡ list_all (may_name n i) (named_points control) }
{
    match control {
        Control::Goto(q) | Control::PopPush(q) => is_nameable(n, i, q),
        Control::Push { below, start } => is_nameable(n, i, below) && is_nameable(n, i, start),
        Control::Pop | Control::Fail => true,
    }
}

fn are_controls_right(draft: &Draft, i: usize) -> bool
    ensures { result ≡ controls_fit draft.now i }
{
    let n = draft.points.len();
    alternatives_of(draft, i)
        .iter()
        .all(|a| names_points(n, i, a.control))
}

fn has_label(alternatives: &[Alternative], label: u32) -> bool
    ensures { result ≡ list_any (λ a. a.label == label) alternatives.now }
{
    alternatives.iter().any(|a| a.label == label)
}

fn are_labels_distinct(alternatives: &[Alternative]) -> bool
    ensures { result ≡ are_distinct_by (λ a. a.label) alternatives.now }
{
    let mut rest = alternatives;
    while let Some((alternative, others)) = rest.split_first() {
        if has_label(others, alternative.label) {
            return false;
        }
        rest = others;
    }
    true
}

fn is_label(label: u32) -> bool
    ensures { result ≡ (nat_le 1 label && nat_lt label (2 ^ 20)) }
{
    1 <= label && label < 0x10_0000
}

fn are_labels(alternatives: &[Alternative]) -> bool
    ensures { result ≡ list_all (λ a. nat_le 1 a.label && nat_lt a.label (2 ^ 20)) alternatives.now }
{
    alternatives.iter().all(|a| is_label(a.label))
}

fn are_labels_right(draft: &Draft, i: usize) -> bool
    ensures { result ≡ labels_fit draft.now i }
{
    let alternatives = alternatives_of(draft, i);
    are_labels_distinct(alternatives) && are_labels(alternatives)
}

fn names_only(n: usize, expr: &Expr) -> bool
    ensures { result ≡ names_cells n (term_of expr.now) }
{
    match expr {
        Expr::Const(_) => true,
        Expr::Cell { at, .. } => (*at as usize) < n,
        Expr::Pick {
            base,
            len,
            index,
            ..
        } => *len >= 1 && *base as usize + *len as usize <= n && names_only(n, index),
        Expr::Un(_, a) => names_only(n, a),
        Expr::Bin(_, a, b) => names_only(n, a) && names_only(n, b),
        Expr::Choose(c, a, b) => names_only(n, c) && names_only(n, a) && names_only(n, b),
    }
}

fn sets_cell(sets: &[Set], cell: u16) -> bool
    ensures { result ≡ list_any (λ s. s.cell == cell) sets.now }
{
    sets.iter().any(|s| s.cell == cell)
}

fn are_set_cells_distinct(sets: &[Set]) -> bool
    ensures { result ≡ are_distinct_by (λ s. s.cell) sets.now }
{
    let mut rest = sets;
    while let Some((set, others)) = rest.split_first() {
        if sets_cell(others, set.cell) {
            return false;
        }
        rest = others;
    }
    true
}

fn is_set_right(n: usize, set: &Set) -> bool
    ensures { result ≡ (nat_lt set.now.cell n && names_cells n (term_of set.now.value)) }
{
    (set.cell as usize) < n && names_only(n, &set.value)
}

fn are_sets_within(n: usize, sets: &[Set]) -> bool
    ensures { result ≡ sets_name_cells n sets.now }
{
    sets.iter().all(|s| is_set_right(n, s))
}

fn are_sets_right(n: usize, sets: &[Set]) -> bool
    ensures { result ≡ sets_fit n sets.now }
{
    are_set_cells_distinct(sets) && are_sets_within(n, sets)
}

fn names_cells_only(n: usize, alternative: &Alternative) -> bool
    ensures { result ≡ (names_cells n (term_of alternative.now.guard) && sets_fit n alternative.now.sets) }
{
    names_only(n, &alternative.guard) && are_sets_right(n, alternative.sets.items())
}

fn are_cells_right(draft: &Draft, i: usize) -> bool
    ensures { result ≡ cells_fit draft.now i }
{
    let n = draft.widths.len();
    alternatives_of(draft, i)
        .iter()
        .all(|a| names_cells_only(n, a))
}

fn has_width(widths: &[Width], cell: u16, width: Width) -> bool
    ensures { result ≡ is_width (slice_get widths.now cell) width }
{
    match widths.get(cell as usize) {
        Some(found) => found.bits() == width.bits(),
        None => false,
    }
}

fn is_input_right(widths: &[Width], sets: &[Set], input: Option<Width>) -> bool
    ensures { result ≡ input_fits widths.now sets.now input }
{
    match (input, sets) {
        (None, _) => true,
        (Some(_), []) => false,
        (Some(width), [first, ..]) => has_width(widths, first.cell, width),
    }
}

fn are_inputs_right(draft: &Draft, i: usize) -> bool
    ensures { result ≡ inputs_fit draft.now i }
{
    let widths = draft.widths.items();
    alternatives_of(draft, i)
        .iter()
        .all(|a| is_input_right(widths, a.sets.items(), a.input))
}

fn is_point_right(draft: &Draft, i: usize) -> bool
    ensures { result ≡ point_fits draft.now i }
{
    (i != 0 || (are_sizes_right(draft) && is_first_right(draft) && is_idle_right(draft)))
        && are_controls_right(draft, i)
        && are_labels_right(draft, i)
        && are_cells_right(draft, i)
        && are_inputs_right(draft, i)
}

// The least point that breaks a condition.
pub(crate) fn first_break(draft: &Draft) -> Option<u16>
    ensures none { IfNone result (IsWellShaped draft.now) }
    ensures some { IfSome result (IsFirstBreak draft.now) }
{
    if !is_point_right(draft, 0) {
        return Some(0);
    }
    for i in 1..draft.points.len() {
        if !is_point_right(draft, i) {
            return Some(i as u16);
        }
    }
    None
}
