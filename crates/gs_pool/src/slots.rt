//! How a node lies in memory: 32 bytes.
ghost use Rattle.std.specs.Prelude.{◌≡◌};
ghost use Rattle.gs_pool.specs.declared.slots.State.TheVariants.{Free, Plain};
ghost use Rattle.gs_pool.specs.Places.{is_listed, is_whole, aside_state, retired_state};
ghost use Rattle.gs_pool.specs.Slots.{sides_of, left_of, right_of, node_born, reused};

use crate::nodes::{Key, Node};

/// What a place is used for. A free, an aside and a retired place is on the list of its kind, a plain
/// one on none.
#[derive(Clone, Copy)]
pub enum State {
    Free,
    Plain,
    AsideNode,
    AsideTree,
    RetiredNode,
    RetiredTree,
}

impl State {
    /// The state of a node that is set aside, alone or with all below it.
    pub fn aside(whole: bool) -> State
        ensures { result ≡ aside_state whole }
    {
        if whole {
            State::AsideTree
        } else {
            State::AsideNode
        }
    }

    /// The state of a node that is retired, alone or with all below it.
    pub fn retired(whole: bool) -> State
        ensures { result ≡ retired_state whole }
    {
        if whole {
            State::RetiredTree
        } else {
            State::RetiredNode
        }
    }

    /// Whether the node of such a place is set aside or retired.
    pub fn is_listed(self) -> bool
        ensures { result ≡ is_listed self }
    {
        !matches!(self, State::Free | State::Plain)
    }

    /// Whether such a place stands for all nodes below it too.
    pub fn is_whole(self) -> bool
        ensures { result ≡ is_whole self }
    {
        matches!(self, State::AsideTree | State::RetiredTree)
    }
}

/// Which of `left` and `right` hold a number.
#[derive(Clone, Copy)]
pub enum Sides {
    Neither,
    Left,
    Right,
    Both,
}

impl Sides {
    /// The sides that a node has.
    pub fn of(left: bool, right: bool) -> Sides
        ensures { result ≡ sides_of left right }
    {
        if left {
            if right { Sides::Both } else { Sides::Left }
        } else if right {
            Sides::Right
        } else {
            Sides::Neither
        }
    }
}

/// A place in memory. While its node is on a list, `birth` has the number of its tail, and the tail the
/// birth. A free place has in `left` the next free one.
#[derive(Clone, Copy)]
pub struct Slot {
    pub birth: u64,
    pub key: Key,
    pub left: u32,
    pub right: u32,
    pub height: u16,
    pub state: State,
    pub sides: Sides,
}

impl Slot {
    /// A place in use that is on no list.
    pub fn plain(node: Node) -> Slot
        ensures node { node_born result result.birth ≡ node }
        ensures state { result.state ≡ Plain }
    {
        Slot {
            birth: node.birth,
            key: node.key,
            left: node.left.unwrap_or(0),
            right: node.right.unwrap_or(0),
            height: node.height,
            state: State::Plain,
            sides: Sides::of(node.left.is_some(), node.right.is_some()),
        }
    }

    /// A free place, and the next one.
    pub fn free(next: Option<u32>) -> Slot
        ensures left { left_of result ≡ next }
        ensures state { result.state ≡ Free }
    {
        Slot {
            birth: 0,
            key: Key {
                subject: 0,
                predicate: 0,
                object: 0,
            },
            left: next.unwrap_or(0),
            right: 0,
            height: 0,
            state: State::Free,
            sides: Sides::of(next.is_some(), false),
        }
    }

    /// The number in `left`, where there is one.
    pub fn left(self) -> Option<u32>
        ensures { result ≡ left_of self }
    {
        match self.sides {
            Sides::Left | Sides::Both => Some(self.left),
            Sides::Neither | Sides::Right => None,
        }
    }

    /// The number in `right`, where there is one.
    pub fn right(self) -> Option<u32>
        ensures { result ≡ right_of self }
    {
        match self.sides {
            Sides::Right | Sides::Both => Some(self.right),
            Sides::Neither | Sides::Left => None,
        }
    }

    /// The node of a place in use, with this birth.
    pub fn node(self, birth: u64) -> Node
        ensures { result ≡ node_born self birth }
    {
        Node {
            key: self.key,
            left: self.left(),
            right: self.right(),
            height: self.height,
            birth,
        }
    }

    /// The slot in another state, with this in place of its birth.
    pub fn with_birth(self, state: State, birth: u64) -> Slot
        ensures { result ≡ reused self state birth }
    {
        Slot {
            birth,
            state,
            ..self
        }
    }
}
