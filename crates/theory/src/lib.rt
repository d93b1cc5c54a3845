// The types of a walk over two tries. There is no code here: the laws in specs/ say what such a walk gives, and code cites them.
#![tactic(auto)]

use defs::Prefix;

// The node of one side at a level of the walk, by its number in the pool, or none.
pub type Node = Option<u32>;

// The value index of one side at a data place, or none.
pub type Value = Option<u32>;

// An entry that leads a place: its length and its value index.
#[derive(Clone, Copy)]
pub struct Above {
    pub len: u32,
    pub value: u32,
}

// The longest entry of the other side that leads a record, or none.
pub type Cover = Option<Above>;

// An item of a list: of one side alone, with its cover, or of both.
#[derive(Clone, Copy)]
pub enum Item {
    Left {
        prefix: Prefix,
        value: u32,
        cover: Cover,
    },
    Right {
        prefix: Prefix,
        value: u32,
        cover: Cover,
    },
    Both {
        prefix: Prefix,
        left: u32,
        right: u32,
    },
}

// The longest entry of each side above a node, or none.
#[derive(Clone, Copy)]
pub struct Covers {
    pub left: Cover,
    pub right: Cover,
}

// One level of the walk: two nodes of one prefix, the entries above them, and the places still to visit, lowest bit first.
#[derive(Clone, Copy)]
pub struct Level {
    pub prefix: Prefix,
    pub left: Node,
    pub right: Node,
    pub above: Covers,
    pub todo: u64,
}

// What the next place of a level comes to.
#[derive(Clone, Copy)]
pub enum Step {
    Up,
    Skip(Level),
    Record(Item, Level),
    Down(Level, Level),
}
