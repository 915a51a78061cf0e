//! Shapes of data types, and the relation of data types that are alike.
ghost use Rattle.std.specs.Prelude.{◌≡◌, ◌<◌, ◌↔◌, length, IsTrue};
ghost use Rattle.schema_data_types.specs.steps.Alike.{IsTable, AreAlikeAt};
ghost use Rattle.schema_data_types.specs.steps.Comparing.{Tells};

/// The outermost level of a data type, names resolved. All numbers are one shape, and so are all
/// logicals, all SELECTs and entities, and all SETs and BAGs.
#[derive(Clone, Copy, Debug, PartialEq, Eq)]
pub enum Shape {
    Numbers,
    Logicals,
    Strings,
    Binaries,
    Items,
    Instances,
    /// ARRAYs of elements of the data type with this number.
    Arrays(u32),
    /// LISTs of elements of the data type with this number.
    Lists(u32),
    /// SETs and BAGs of elements of the data type with this number.
    Collections(u32),
}

/// The result of comparing two shapes.
enum Comparison {
    /// The shapes differ.
    Apart,
    /// The shapes are equal, without elements.
    Alike,
    /// The shapes are equal, with elements of the data types with these numbers.
    Elements(u32, u32),
}

fn compared(first: Shape, second: Shape) -> Comparison
    ensures { Tells first second result }
{
    match (first, second) {
        (Shape::Numbers, Shape::Numbers) => Comparison::Alike,
        (Shape::Logicals, Shape::Logicals) => Comparison::Alike,
        (Shape::Strings, Shape::Strings) => Comparison::Alike,
        (Shape::Binaries, Shape::Binaries) => Comparison::Alike,
        (Shape::Items, Shape::Items) => Comparison::Alike,
        (Shape::Instances, Shape::Instances) => Comparison::Alike,
        (Shape::Arrays(k), Shape::Arrays(l)) => Comparison::Elements(k, l),
        (Shape::Lists(k), Shape::Lists(l)) => Comparison::Elements(k, l),
        (Shape::Collections(k), Shape::Collections(l)) => Comparison::Elements(k, l),
        _ => Comparison::Apart,
    }
}

/// Whether two data types are alike: they have equal shapes, and elements that are alike.
///
/// Compares both, then their elements, and so on, for at most one step for each data type of the
/// table. If two data types agree for that count of steps, they agree for any count.
pub fn are_alike(shapes: &[Shape], first: u32, second: u32) -> bool
    requires table { IsTable shapes.now }
    requires first_within { first < length shapes.now }
    requires second_within { second < length shapes.now }
    ensures { IsTrue result ↔ AreAlikeAt shapes.now first second }
{
    let mut ours = first;
    let mut theirs = second;
    for _step in 0..shapes.len() {
        match compared(shapes[ours as usize], shapes[theirs as usize]) {
            Comparison::Apart => return false,
            Comparison::Alike => return true,
            Comparison::Elements(k, l) => {
                ours = k;
                theirs = l;
            }
        }
    }
    true
}
