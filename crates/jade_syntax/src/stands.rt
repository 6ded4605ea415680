use jade_base::ObjectId;
use jade_list::sequence::Sequence;

/// What a name of a program stands for: an input by its number, a variable by its slot in its body,
/// a single object, or a family by its first object and the number of its members.
#[derive(Clone, Copy, Debug, PartialEq, Eq)]
pub enum Stand {
    Input(u32),
    Slot(u32),
    Single(ObjectId),
    Family(ObjectId, u32),
}

/// What the names of a program stand for, one for each name in text order, declarations included.
pub type Stands = Sequence<Stand>;
