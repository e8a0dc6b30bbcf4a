//! What a pin holds: retired nodes on a list of their own.
ghost use Rattle.std.specs.Prelude.{◌≡◌, ◌<◌, ◌+◌, ◌^◌};
ghost use Rattle.gs_pool.specs.Lists.{empty_hold, with_node_first, joined_holds};

/// A list of retired nodes, each of which the version of one pin needs. Nobody looks at them until that
/// pin has ended; then the whole list goes before that of another pin of the same version, or before the
/// list of those that are looked at.
#[derive(Clone, Copy)]
pub struct Hold {
    pub pin: Option<u64>,
    pub first: Option<u32>,
    // The last one, where there is any.
    pub last: u32,
    pub count: usize,
}

impl Hold {
    /// A list with no node, for a pin.
    pub fn empty(pin: Option<u64>) -> Hold
        ensures { result ≡ empty_hold pin }
    {
        Hold {
            pin,
            first: None,
            last: 0,
            count: 0,
        }
    }

    /// The list with a node more, at its head.
    pub fn with_first(self, id: u32) -> Hold
        requires { self.count < 2 ^ 33 }
        ensures { result ≡ with_node_first self id }
    {
        Hold {
            pin: self.pin,
            first: Some(id),
            last: if self.first.is_some() { self.last } else { id },
            count: self.count + 1,
        }
    }
    /// The nodes of this list before those of another, whose pin stays.
    pub fn joined(self, other: Hold) -> Hold
        requires { self.count + other.count < 2 ^ 33 }
        ensures { result ≡ joined_holds self other }
    {
        Hold {
            pin: other.pin,
            first: self.first,
            last: if other.first.is_some() {
                other.last
            } else {
                self.last
            },
            count: self.count + other.count,
        }
    }
}
