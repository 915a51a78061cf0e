//! Laws of value equality, images and tables.

ghost use Rattle.std.specs.Prelude.{◌≡◌, ◌↔◌, IsTrue};
ghost use Rattle.value_equality.specs.TableViews.{origin_of, table_of, origin_eq, table_eq};
ghost use Rattle.value_equality.specs.declared.table.Origin.{Origin};
ghost use Rattle.value_equality.specs.declared.table.Table.{Table};
ghost use Rattle.value_equality.specs.Laws.{
  CertificatesProve,
  ClassesAreAncestors,
  ImagesCarryValueEquality,
  KernelsAreCongruences,
  NoImageHasFewer,
  QuotientsAreImages,
  QuotientsAreReduced,
  QuotientsStay,
  RoundsAreFew,
  StandardExists,
  StandardIsUnique,
  StandardIsValid,
  TablesDecide,
  ValueEqualityExists,
  ValueEqualityIsCongruence,
  ValueEqualityIsGreatest,
};

/// Value equality is a congruence.
pub fn value_equality_is_a_congruence()
    ensures { ValueEqualityIsCongruence }
{}

/// Value equality is the greatest relation that keeps.
pub fn value_equality_is_the_greatest()
    ensures { ValueEqualityIsGreatest }
{}

/// If each reference in a bag of more than one value names a pinned instance, the kernel of an
/// image is a congruence.
pub fn kernels_are_congruences()
    ensures { KernelsAreCongruences }
{}

/// If each reference in a bag of more than one value names a pinned instance, no image has fewer
/// instances than the quotient by value equality.
pub fn no_image_has_fewer()
    ensures { NoImageHasFewer }
{}

/// Two instances are value-equal exactly if their images are, if each reference in a bag of more
/// than one value names a pinned instance and the image of a name is pinned exactly if the name is.
pub fn images_carry_value_equality()
    ensures { ImagesCarryValueEquality }
{}

/// The last partition of a valid table is value equality.
pub fn tables_decide()
    ensures { TablesDecide }
{}

/// The quotient by a congruence is an image, and a population.
pub fn quotients_are_images()
    ensures { QuotientsAreImages }
{}

/// If each reference in a bag of more than one value names a pinned instance, value equality on the
/// quotient by value equality is the identity. The pins of the quotient may be another set, if it
/// has the same names of the quotient.
pub fn quotients_are_reduced()
    ensures { QuotientsAreReduced }
{}

/// If each reference in a bag of more than one value names a pinned instance, a second quotient by
/// value equality changes nothing. The pins of the first quotient may be another set, if it has the
/// same names of the quotient.
pub fn quotients_stay()
    ensures { QuotientsStay }
{}

/// The table that partition refinement makes is valid.
pub fn the_standard_table_is_valid()
    ensures { StandardIsValid }
{}

/// There is at most one table that partition refinement makes.
pub fn the_standard_table_is_unique()
    ensures { StandardIsUnique }
{}

/// The table that partition refinement makes has at most as many rounds as there are instances.
pub fn rounds_are_few()
    ensures { RoundsAreFew }
{}

/// There is a table that partition refinement makes.
pub fn the_standard_table_exists()
    ensures { StandardExists }
{}

/// There is a test of value equality.
pub fn value_equality_exists()
    ensures { ValueEqualityExists }
{}

/// If a table is valid and an output is the quotient by its last partition, the output is an image.
/// If each reference in a bag of more than one value names a pinned instance, no image has fewer
/// instances than the output.
pub fn certificates_prove()
    ensures { CertificatesProve }
{}

/// The class of a name at a round is the nearest ancestor of its last class that had begun by then.
pub fn classes_are_ancestors()
    ensures { ClassesAreAncestors }
{}

/// `==` of origins, and of tables, is true exactly if they are the same.
pub fn equal_tables_are_the_same()
    ensures origins { (o u : Origin) → IsTrue (origin_eq o u) ↔ (origin_of o ≡ origin_of u) }
    ensures tables { (s t : Table) → IsTrue (table_eq s t) ↔ (table_of s ≡ table_of t) }
{}
