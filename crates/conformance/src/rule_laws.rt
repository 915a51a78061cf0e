//! Laws of inverse attributes, of uniqueness rules and of pins.

ghost use Rattle.conformance.specs.RuleLaws.{RulesAreOne, ReferencesAreCounted, ReferrersAreCounted};
ghost use Rattle.conformance.specs.RuleLaws.{CheckedNamesMeanOne, InverseSidesAreHeld, RepeatsComeLater};
ghost use Rattle.conformance.specs.RuleLaws.{NoFindingExactlyWhereKeysAreUnique};
ghost use Rattle.conformance.specs.RuleLaws.{NoFindingExactlyWhereBoundsHold};
ghost use Rattle.conformance.specs.RuleLaws.{WeakPinsAreGentle, GentlePinsArePlain, PinsHaveTests};
ghost use Rattle.conformance.specs.RuleLaws.{PinnedAreThere, BagReferencesArePinned, ElementsAreToldApart};
ghost use Rattle.conformance.specs.RuleLaws.{PinsPartClasses, ImagesStayInClasses};
ghost use Rattle.conformance.specs.RuleLaws.{ElementsAreNotMerged, GentlePinsKeepApart};

/// A schema whose names are resolved determines what breaks its rules and what is pinned.
pub fn rules_are_one()
    ensures { RulesAreOne }
{}

/// Each name in a uniqueness rule that is checked means exactly one attribute, which is explicit.
pub fn checked_names_mean_one()
    ensures { CheckedNamesMeanOne }
{}

/// A value refers to an instance exactly if the number of its references to the instance is
/// positive.
pub fn references_are_counted()
    ensures { ReferencesAreCounted }
{}

/// An inverse attribute holds each instance that refers once, except that a BAG holds it once for
/// each of its references.
pub fn referrers_are_counted()
    ensures { ReferrersAreCounted }
{}

/// The instances on a side of an inverse attribute are those that it holds, and those at which it
/// holds one.
pub fn inverse_sides_are_held()
    ensures { InverseSidesAreHeld }
{}

/// An instance is reported to break a uniqueness rule exactly if an earlier one has its key.
pub fn repeats_come_later()
    ensures { RepeatsComeLater }
{}

/// There is no finding of uniqueness rules exactly if no two instances share a key of a rule that
/// is checked.
pub fn no_finding_exactly_where_keys_are_unique()
    ensures { NoFindingExactlyWhereKeysAreUnique }
{}

/// There is no finding of inverse attributes exactly if each holds as many instances as it may.
pub fn no_finding_exactly_where_bounds_hold()
    ensures { NoFindingExactlyWhereBoundsHold }
{}

/// An instance that the weak rules pin is pinned by the gentle rules, whatever the classes are.
pub fn weak_pins_are_gentle()
    ensures { WeakPinsAreGentle }
{}

/// An instance that the gentle rules pin, whatever the classes are, is pinned by the plain rules,
/// which pin each instance that occurs in a LIST or ARRAY OF UNIQUE.
pub fn gentle_pins_are_plain()
    ensures { GentlePinsArePlain }
{}

/// There is a test of weak pins, and a test of gentle pins for each relation of classes.
pub fn pins_have_tests()
    ensures { PinsHaveTests }
{}

/// If each reference names an instance, each name that the plain rules pin is that of an instance.
pub fn pinned_are_there()
    ensures { PinnedAreThere }
{}

/// Each reference in a SET or BAG of more than one value names a pinned instance, if at least the
/// weak pins are pinned.
pub fn bag_references_are_pinned()
    ensures { BagReferencesArePinned }
{}

/// A relation that keeps under gentle pins, and that relates only instances of one class, relates
/// no two elements of a LIST or ARRAY OF UNIQUE.
pub fn elements_are_told_apart()
    ensures { ElementsAreToldApart }
{}

/// What value equality relates under many pins, it relates under fewer.
pub fn pins_part_classes()
    ensures { PinsPartClasses }
{}

/// An image under many pins maps two instances to one only if value equality under fewer pins
/// relates them.
pub fn images_stay_in_classes()
    ensures { ImagesStayInClasses }
{}

/// Value equality under the gentle pins of the classes of value equality under weak pins relates no
/// two elements of a LIST or ARRAY OF UNIQUE.
pub fn elements_are_not_merged()
    ensures { ElementsAreNotMerged }
{}

/// A map keeps the elements of SETs, and of what is OF UNIQUE, apart if it maps no other instance
/// to the image of a gently pinned one, and only instances of one class to the same image.
pub fn gentle_pins_keep_apart()
    ensures { GentlePinsKeepApart }
{}
