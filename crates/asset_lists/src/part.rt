//! What a caller sees of a key's place.

/// The three parts that each list has.
#[derive(Clone, Copy)]
pub enum Section {
    Front,
    Middle,
    Back,
}

/// Where a key is: its list, and the part of it.
#[derive(Clone, Copy)]
pub struct Part {
    pub list: usize,
    pub section: Section,
}
