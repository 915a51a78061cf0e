//! Tables of partition refinement: the classes of instances at each round.

ghost use Rattle.std.specs.Prelude.{◌≡◌, suc, map};
ghost use Rattle.value_equality.specs.Tables.{ancestor, last_class};
ghost use Rattle.value_equality.specs.Tables as tables;
ghost use Rattle.value_equality.specs.TableViews.{origin_of, member_of, table_of};

/// The origin of a class.
#[derive(Clone, Copy, Debug, PartialEq, Eq)]
pub enum Origin {
    /// The class exists from round 0 on.
    Start,
    /// The class was split off another one at a round.
    Split { parent: u32, round: u32 },
}

/// The classes of instances at each round, as in a certificate.
#[derive(Debug, PartialEq, Eq, Drop)]
pub struct Table {
    /// The last round.
    pub rounds: u32,
    /// The origin of each class, by its number.
    pub classes: Vec<Origin>,
    /// The name of each instance, with its class at the last round.
    pub members: Vec<(u64, u32)>,
}

impl Table {
    /// Returns the class of a name at a round; `None` if the name isn't a member.
    ///
    /// It is also `None` if the chain of parents leaves the list of classes, or doesn't fall,
    /// before it reaches that class. A chain that is broken beyond it doesn't matter.
    pub fn class_at(&self, name: u64, round: u32) -> Option<u32>
        ensures { result ≡ tables.class_at (table_of self.now) name round }
    {
        match last_class(&self.members, name) {
            None => None,
            Some(class) => class_above(&self.classes, round, class),
        }
    }
}

/// Returns the class of a name at the last round, if any.
fn last_class(members: &[(u64, u32)], name: u64) -> Option<u32>
    ensures { result ≡ last_class (map member_of members.now) name }
{
    for member in members {
        if member.0 == name {
            return Some(member.1);
        }
    }
    None
}

/// Returns the nearest class that had begun by the round, from class `first` up the chain of
/// parents.
///
/// It is `None` if the chain leaves the list of classes, or doesn't fall, before it reaches that
/// class.
pub fn class_above(classes: &[Origin], round: u32, first: u32) -> Option<u32>
    ensures { result ≡ ancestor (map origin_of classes.now) round (suc first) first }
{
    let mut class = first;
    loop {
        let origin = *classes.get(class as usize)?;
        let Origin::Split {
            parent,
            round: since,
        } = origin
        else {
            return Some(class);
        };
        if since <= round {
            return Some(class);
        }
        if parent >= class {
            return None;
        }
        class = parent;
    }
}
