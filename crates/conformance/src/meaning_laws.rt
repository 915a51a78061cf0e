//! Laws of the meaning of attributes, expressions and domain rules.

ghost use Rattle.conformance.specs.MeaningLaws.{AttributesAreOne, DomainRulesAreOne};
ghost use Rattle.conformance.specs.MeaningLaws.{ConformingAreClosed, FilesHavePlacesOnce};
ghost use Rattle.conformance.specs.MeaningLaws.{InverseValuesAreLed, KeysStayUnique, InverseBoundsStay};
ghost use Rattle.conformance.specs.MeaningLaws.{PinsTellApart};
ghost use Rattle.conformance.specs.MeaningLaws.{ImagesKeepMeanings, ImagesKeepRules, NoBreachInImages};
ghost use Rattle.conformance.specs.MeaningLaws.{ImagesBreakNoRule};
ghost use Rattle.conformance.specs.MeaningLaws.{OutcomesAreLeast, NoFindingExactlyWhereNoRuleIsFalse};
ghost use Rattle.conformance.specs.MeaningLaws.{DerivedAreTheirExpressions, ElementsOfListsAreInOrder};

/// A schema whose names are resolved determines the meaning of its attributes, whatever the
/// population.
pub fn attributes_are_one()
    ensures { AttributesAreOne }
{}

/// A schema has one list of domain rules that are checked.
pub fn domain_rules_are_one()
    ensures { DomainRulesAreOne }
{}

/// Each reference of a population that conforms names an instance.
pub fn conforming_are_closed()
    ensures { ConformingAreClosed }
{}

/// If the keywords of each instance of a file are distinct entities, no instance has two values for
/// one attribute.
pub fn files_have_places_once()
    ensures { FilesHavePlacesOnce }
{}

/// A map that distinguishes the instances on the sides of inverse attributes maps the values of
/// these attributes.
pub fn inverse_values_are_led()
    ensures { InverseValuesAreLed }
{}

/// If a map distinguishes the instances that uniqueness rules concern, and no instance breaks such
/// a rule, then no instance of the image breaks one.
pub fn keys_stay_unique()
    ensures { KeysStayUnique }
{}

/// If a map maps the values of inverse attributes, and no instance breaks their bounds, then no
/// instance of the image breaks them.
pub fn inverse_bounds_stay()
    ensures { InverseBoundsStay }
{}

/// A map that maps no other instance to the image of a pinned one distinguishes the instances on
/// the sides of inverse attributes, and those that uniqueness rules concern.
pub fn pins_tell_apart()
    ensures { PinsTellApart }
{}

/// In an image of a population an expression has its former value, with references mapped.
pub fn images_keep_meanings()
    ensures { ImagesKeepMeanings }
{}

/// A domain rule has the same outcome at an instance and at its image.
pub fn images_keep_rules()
    ensures { ImagesKeepRules }
{}

/// If no instance breaks a domain rule, no instance of an image breaks one.
pub fn no_breach_in_images()
    ensures { NoBreachInImages }
{}

/// If no instance breaks a uniqueness rule, an inverse attribute's bounds or a domain rule, then no
/// instance of an image that respects pins breaks one.
pub fn images_break_no_rule()
    ensures { ImagesBreakNoRule }
{}

/// At an instance a rule (ISO 10303-11, 9.2.2.2) is
/// - FALSE exactly if it is FALSE for one of the values of SELF;
/// - UNKNOWN exactly if it is FALSE for none of them and isn't TRUE for one;
/// - TRUE exactly if it is TRUE for all of them.
pub fn outcomes_are_least()
    ensures { OutcomesAreLeast }
{}

/// There is no finding of domain rules exactly if no rule is FALSE at an instance.
pub fn no_finding_exactly_where_no_rule_is_false()
    ensures { NoFindingExactlyWhereNoRuleIsFalse }
{}

/// At an instance a derived attribute that isn't set aside has the value of its expression, with
/// the instance for SELF (ISO 10303-11, 9.2.1.2). In that expression the derived attributes of
/// lesser rank have their values, and all others are indeterminate.
pub fn derived_are_their_expressions()
    ensures { DerivedAreTheirExpressions }
{}

/// Indexing a LIST gives the element at that position, counted from 1, if any, otherwise
/// indeterminate (ISO 10303-11, 12.6.1).
pub fn elements_of_lists_are_in_order()
    ensures { ElementsOfListsAreInOrder }
{}
