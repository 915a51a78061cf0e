//! Labels in place of references: which values agree under them, and that their normal forms agree exactly
//! then.

use crate::populations::{ALONE, Sketch, Sketches, Written, population};
use std::alloc::{AllocError, Global};
use std::hash::RandomState;
use step_values::labels::{Label, Labels};
use step_values::normal::{Normal, normal_form, normal_forms, sorted_forms};
use step_values::slot::{Slot, Slots};
use step_values::value_agreement::{same_each, same_value};
use value_equality::plain::Plain;

/// One label for each reference outside bags of more than one member. Inside such bags each
/// reference is its own label.
#[derive(Clone, Copy)]
struct One(Label);

impl Labels for One {
    ghost labelling = { λ s. record { outside = λ _. s.0; inside = λ y. y } };

    fn outside(&self, _: u64) -> Label {
        self.0
    }

    fn inside(&self, name: u64) -> u64 {
        name
    }
}

const NAME: Label = Label::Name(3);

const CLASS: Label = Label::Class(3);

const OTHER: Label = Label::Class(4);

const ONE: Sketches = &[Sketch::Reference(1)];

const TWO: Sketches = &[Sketch::Reference(2)];

const BAG: Sketches = &[Sketch::Reference(1), Sketch::Reference(2), Sketch::Bag(2)];

const TURNED_BAG: Sketches = &[Sketch::Reference(2), Sketch::Reference(1), Sketch::Bag(2)];

const OTHER_BAG: Sketches = &[Sketch::Reference(1), Sketch::Reference(3), Sketch::Bag(2)];

/// What is tested, the labels of two sides with their values, whether the values are members of a
/// bag, and whether they agree.
type Case = (
    &'static str,
    (Label, Sketches),
    (Label, Sketches),
    bool,
    bool,
);

const CASES: &'static [Case] = &[
    ("one class", (CLASS, ONE), (CLASS, TWO), false, true),
    ("two classes", (CLASS, ONE), (OTHER, ONE), false, false),
    (
        "a class and a name",
        (CLASS, ONE),
        (NAME, ONE),
        false,
        false,
    ),
    (
        "a name and a class",
        (NAME, ONE),
        (CLASS, ONE),
        false,
        false,
    ),
    ("one name as a label", (NAME, ONE), (NAME, TWO), false, true),
    (
        "names in a bag",
        (CLASS, BAG),
        (CLASS, TURNED_BAG),
        false,
        true,
    ),
    (
        "of other classes",
        (CLASS, BAG),
        (OTHER, TURNED_BAG),
        false,
        true,
    ),
    (
        "of a class and a name",
        (CLASS, BAG),
        (NAME, BAG),
        false,
        true,
    ),
    (
        "other names in a bag",
        (CLASS, BAG),
        (CLASS, OTHER_BAG),
        false,
        false,
    ),
    (
        "one member, a class and a name",
        (CLASS, ONE),
        (NAME, ONE),
        true,
        false,
    ),
    (
        "one member of one class",
        (CLASS, ONE),
        (CLASS, TWO),
        true,
        true,
    ),
];

/// The label of references, and values.
#[derive(Drop)]
struct Side<'p> {
    label: One,
    values: Slots<'p, 'static>,
}

/// Returns the side whose values are those of a population's fourth row, if it has one.
fn side_of<'p>(label: Label, plain: &'p Plain<'static>) -> Option<Side<'p>> {
    match plain.find(4) {
        Some(place) => Some(Side {
            label: One(label),
            values: plain.row(place).values,
        }),
        None => None,
    }
}

/// Whether the normal form of a value equals `form` exactly if `agree`.
fn is_told_form(
    alloc: Global,
    form: &Normal<'static>,
    label: &One,
    value: &Slot<'_, 'static>,
    agree: bool,
) -> bool {
    match normal_form(alloc, label, value) {
        Ok(other) => (*form == other) == agree,
        Err(_) => false,
    }
}

/// Whether the normal forms of the first values are equal exactly if `agree`.
fn is_told_by_form(
    alloc: Global,
    side: &Side<'_>,
    value: &Slot<'_, 'static>,
    other: &Side<'_>,
    second: &Slot<'_, 'static>,
    agree: bool,
) -> bool {
    match normal_form(alloc, &side.label, value) {
        Ok(form) => is_told_form(alloc, &form, &other.label, second, agree),
        Err(_) => false,
    }
}

/// Returns the normal forms of the values, sorted if they are members of a bag.
fn forms(alloc: Global, side: &Side<'_>, in_bag: bool) -> Result<Vec<Normal<'static>>, AllocError> {
    if in_bag {
        sorted_forms(alloc, &side.label, &side.values)
    } else {
        normal_forms(alloc, &side.label, &side.values)
    }
}

/// Whether the normal forms of the other values equal `known` exactly if `agree`.
fn are_told_forms(
    alloc: Global,
    known: &Vec<Normal<'static>>,
    other: &Side<'_>,
    in_bag: bool,
    agree: bool,
) -> bool {
    match forms(alloc, other, in_bag) {
        Ok(others) => (*known == others) == agree,
        Err(_) => false,
    }
}

/// Whether the normal forms of two lists, or of the members of two bags, are equal exactly if
/// `agree`.
fn is_told_by_forms(
    alloc: Global,
    side: &Side<'_>,
    other: &Side<'_>,
    in_bag: bool,
    agree: bool,
) -> bool {
    match forms(alloc, side, in_bag) {
        Ok(known) => are_told_forms(alloc, &known, other, in_bag, agree),
        Err(_) => false,
    }
}

/// Whether the first values of both sides, and the lists of all values, agree exactly if expected.
fn is_told_in_order(alloc: Global, side: &Side<'_>, other: &Side<'_>, agree: bool) -> bool {
    if side.values.len() == 0 || other.values.len() == 0 {
        return false;
    }
    let value = side.values.at(0);
    let second = other.values.at(0);
    same_value(alloc, &side.label, &other.label, &value, &second) == Ok(agree)
        && is_told_by_form(alloc, side, &value, other, &second, agree)
        && same_each(
            alloc,
            &side.label,
            &other.label,
            &side.values,
            &other.values,
        ) == Ok(agree)
        && is_told_by_forms(alloc, side, other, false, agree)
}

fn is_told(alloc: Global, side: &Side<'_>, other: &Side<'_>, in_bag: bool, agree: bool) -> bool {
    if in_bag {
        is_told_by_forms(alloc, side, other, true, agree)
    } else {
        is_told_in_order(alloc, side, other, agree)
    }
}

/// Whether a case is right for one side and the population of the other.
fn is_right_beside(alloc: Global, left: &Side<'_>, right: &Plain<'static>, case: &Case) -> bool {
    let (_, _, (label, _), in_bag, agree) = *case;
    match side_of(label, right) {
        Some(right) => is_told(alloc, left, &right, in_bag, agree),
        None => false,
    }
}

fn is_right_between(
    alloc: Global,
    left: &Plain<'static>,
    right: &Plain<'static>,
    case: &Case,
) -> bool {
    let (_, (label, _), ..) = *case;
    match side_of(label, left) {
        Some(left) => is_right_beside(alloc, &left, right, case),
        None => false,
    }
}

fn is_right_from(alloc: Global, keys: RandomState, left: &Plain<'static>, case: &Case) -> bool {
    let (_, _, (_, value), ..) = *case;
    match population(alloc, keys, Written::Holder(value, ALONE)) {
        Ok(right) => is_right_between(alloc, left, &right, case),
        Err(_) => false,
    }
}

fn is_right(alloc: Global, keys: RandomState, case: &Case) -> bool {
    let (_, (_, value), ..) = *case;
    match population(alloc, keys, Written::Holder(value, ALONE)) {
        Ok(left) => is_right_from(alloc, keys, &left, case),
        Err(_) => false,
    }
}

/// Returns what is tested by the first wrong case, if any.
pub(crate) fn wrong_case(alloc: Global, keys: RandomState) -> Option<&'static str> {
    for case in CASES {
        if !is_right(alloc, keys, case) {
            return Some(case.0);
        }
    }
    None
}
