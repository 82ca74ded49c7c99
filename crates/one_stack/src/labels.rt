// The labels of a program.
ghost use Rattle.std.specs.Prelude.{◌≡◌, ◌-◌, ◌≤◌, ◌<◌, ◌^◌, IfOk, if◌then◌else◌, length};
ghost use Rattle.one_stack.specs.Labelled.{has_label, label_at, labels_of, most_in, most_of, point_with};

use crate::label::{Label, Labels};
use application::app::Entity;
use guard_prog::draft::{Alternative, Alternatives};
use std::alloc::{AllocError, Global};

// The greatest label of a point.
fn most_in(alternatives: &[Alternative]) -> u32
    ensures { result ≡ most_in alternatives.now }
{
    let mut most = 0;
    for a in alternatives {
        most = most.max(a.label);
    }
    most
}

// The greatest label of all points.
fn most_of(points: &[Alternatives]) -> u32
    ensures { result ≡ most_of points.now }
{
    let mut most = 0;
    for point in points {
        most = most.max(most_in(point.items()));
    }
    most
}

fn has_label(label: u32, alternatives: &[Alternative]) -> bool
    ensures { result ≡ has_label label alternatives.now }
{
    alternatives.iter().any(|a| a.label == label)
}

// The point i, where it has a label, and else the one that was found.
fn nearer(label: u32, alternatives: &[Alternative], i: u16, found: u16) -> u16
    ensures { result ≡ (if has_label label alternatives.now then i else found) }
{
    if has_label(label, alternatives) {
        i
    } else {
        found
    }
}

// The first point that has a label.
fn point_with(label: u32, points: &[Alternatives]) -> u16
    requires { length points.now ≤ 2 ^ 16 }
    ensures { result ≡ point_with label 0 points.now }
{
    let mut found = 0;
    for i in (0..points.len()).rev() {
        found = nearer(label, points[i].items(), i as u16, found);
    }
    found
}

fn label_at(entities: u8, points: &[Alternatives], i: u32) -> Label
    requires few { length points.now ≤ 2 ^ 16 }
    requires label { i < 2 ^ 32 - 1 }
    ensures { result ≡ label_at entities points.now i }
{
    Label {
        entity: Entity((i % entities.max(1) as u32) as u8),
        point: point_with(i + 1, points),
        arrives: false,
        input: None,
    }
}

/// The labels of these points, up to the greatest.
pub fn labels_of(alloc: Global, entities: u8, points: &[Alternatives]) -> Result<Labels, AllocError>
    requires { length points.now ≤ 2 ^ 16 }
    ensures { IfOk result (λ labels. labels ≡ labels_of entities points.now) }
{
    let mut labels = Labels::new(alloc);
    for i in 0..most_of(points) {
        labels.push(label_at(entities, points, i))?;
    }
    Ok(labels)
}
