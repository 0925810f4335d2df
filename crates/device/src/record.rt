use crate::object::ObjectId;

// What a log holds of an object: the number of the commit that set it, and its value.
#[derive(Clone, Copy, PartialEq, Eq, Debug, Default)]
pub struct Entry {
    pub number: u32,
    pub value: u32,
}

// An object and its new value.
#[derive(Clone, Copy, PartialEq, Eq, Debug)]
pub struct Change {
    pub id: ObjectId,
    pub value: u32,
}

// An object and its entry.
#[derive(Clone, Copy, PartialEq, Eq, Debug, Default)]
pub struct Record {
    pub id: ObjectId,
    pub entry: Entry,
}
