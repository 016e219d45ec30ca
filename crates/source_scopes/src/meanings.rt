use slint_base::Name;

/// What a name of a file's scope stands for, by the number of its declaration. Components, globals, enums and structs are each numbered over
/// all files, by file and in the order of the text; the enums begin with the built-in ones.
#[derive(Clone, Copy)]
pub enum Meaning {
    Component(usize),
    Global(usize),
    Enum(u32),
    Struct(usize),
}

/// A name of a file's scope, or one that a file exports. It stands for nothing where another file exports a name that stands for nothing there.
#[derive(Drop)]
pub struct Entry {
    pub name: Name,
    pub meaning: Option<Meaning>,
}

/// How many declarations of each kind there are, so far.
#[derive(Clone, Copy)]
pub struct Counts {
    pub comps: usize,
    pub globals: usize,
    pub enums: u32,
    pub structs: usize,
}
