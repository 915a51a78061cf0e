//! Laws about the definitions, apart from any code.

ghost use Rattle.merge_theorems.specs.ImageLaws.{KeywordsStandOnce, FilesAreLaidOut};
ghost use Rattle.merge_theorems.specs.ImageLaws.{ImagesOfRowsAreLed, ImagesOfRowsConform};

use conformance::value_laws::{images_conform, no_findings_exactly_where_it_conforms};

/// In a file that is read, no keyword occurs twice in one instance.
pub fn keywords_stand_once()
    ensures { KeywordsStandOnce }
{}

/// The instances of a file without findings are laid out by the schema, if no keyword occurs twice
/// in one instance.
pub fn files_are_laid_out()
    ensures { FilesAreLaidOut }
{
    no_findings_exactly_where_it_conforms();
}

/// A map of rows maps their instances to instances of the image and reaches each of these. It maps
/// no other instance to the image of a pinned one.
pub fn images_of_rows_are_led()
    ensures { ImagesOfRowsAreLed }
{}

/// If a map of rows respects the gentle pins, the instances of the image conform and break no rule,
/// provided that the original instances conform and break none.
pub fn images_of_rows_conform()
    ensures { ImagesOfRowsConform }
{
    images_conform();
}
