// The nine kinds of node, and the plain row that each is written as.
ghost use Rattle.std.specs.Prelude.{◌≡◌, Some};
ghost use Rattle.rule.specs.Rows.{row_of, Read};
ghost use Rattle.rule.specs.Texts.{node_text};

use scale::Code;
use std::fmt;

/// A node of a rule. Operands, `first` and `second`, are numbers of nodes, in a rule of earlier ones; bounds, `low` and `high`, are in
/// ticks. Numbers and no boxes: there is no heap, a record has this table, and nodes may share an operand.
#[derive(Clone, Copy, PartialEq, Eq)]
pub enum Node {
    True,
    Level {
        channel: u8,
        level: Code,
    },
    Not {
        first: u8,
    },
    Or {
        first: u8,
        second: u8,
    },
    And {
        first: u8,
        second: u8,
    },
    Next {
        first: u8,
        low: u16,
        high: u16,
    },
    Yesterday {
        first: u8,
        low: u16,
        high: u16,
    },
    Until {
        first: u8,
        second: u8,
        low: u16,
        high: u16,
    },
    Since {
        first: u8,
        second: u8,
        low: u16,
        high: u16,
    },
}

/// The plain row of a node, with no promise that a node has it. Its kind is a number, as it stands in a record: `Node::row` and
/// `Node::from_row` have the table of kinds, one each way.
#[derive(Clone, Copy, PartialEq, Eq, Debug)]
pub struct NodeRow {
    pub kind: u8,
    pub first: u8,
    pub second: u8,
    pub low: u16,
    pub high: u16,
}

impl Node {
    /// The largest channel.
    pub const LARGEST_CHANNEL: u8 = 3;

    /// The largest bound, in ticks.
    pub const LARGEST_BOUND: u16 = 4095;

    /// The node that a row stands for at a place of a rule: none where no node that may stand there has this row. No `TryFrom`, since the place
    /// counts too.
    pub fn from_row(place: u8, row: NodeRow) -> Option<Node>
        ensures { Read place row result }
    {
        let NodeRow {
            kind,
            first,
            second,
            low,
            high,
        } = row;
        let first_earlier = first < place;
        let both_earlier = first_earlier && second < place;
        let bounded = low <= high && high <= Node::LARGEST_BOUND;
        match (kind, first, second, low, high) {
            (0, 0, 0, 0, 0) => Some(Node::True),
            (1, 0..=Node::LARGEST_CHANNEL, 0, _, 0) => Some(Node::Level {
                channel: first,
                level: Code::new(low).ok()?,
            }),
            (2, _, 0, 0, 0) if first_earlier => Some(Node::Not { first }),
            (3, _, _, 0, 0) if both_earlier => Some(Node::Or { first, second }),
            (4, _, _, 0, 0) if both_earlier => Some(Node::And { first, second }),
            (5, _, 0, _, _) if first_earlier && bounded => Some(Node::Next { first, low, high }),
            (6, _, 0, _, _) if first_earlier && bounded => Some(Node::Yesterday {
                first,
                low,
                high,
            }),
            (7, ..) if both_earlier && bounded => Some(Node::Until {
                first,
                second,
                low,
                high,
            }),
            (8, ..) if both_earlier && bounded => Some(Node::Since {
                first,
                second,
                low,
                high,
            }),
            _ => None,
        }
    }

    /// Its plain row. Fields that its kind does not use are 0.
    pub fn row(self) -> NodeRow
        ensures { result ≡ row_of self }
    {
        let (kind, first, second, low, high) = match self {
            Node::True => (0, 0, 0, 0, 0),
            Node::Level { channel, level } => (1, channel, 0, level.value(), 0),
            Node::Not { first } => (2, first, 0, 0, 0),
            Node::Or { first, second } => (3, first, second, 0, 0),
            Node::And { first, second } => (4, first, second, 0, 0),
            Node::Next { first, low, high } => (5, first, 0, low, high),
            Node::Yesterday { first, low, high } => (6, first, 0, low, high),
            Node::Until {
                first,
                second,
                low,
                high,
            } => (7, first, second, low, high),
            Node::Since {
                first,
                second,
                low,
                high,
            } => (8, first, second, low, high),
        };
        NodeRow {
            kind,
            first,
            second,
            low,
            high,
        }
    }
}

impl From<Node> for NodeRow {
    ghost from_gives = { λ node row. row ≡ row_of node };

    fn from(node: Node) -> NodeRow {
        node.row()
    }
}

impl fmt::Display for Node {
    ghost output = { λ n. Some (node_text n) };

    fn fmt<W: fmt::Write>(&self, f: &mut fmt::Formatter<W>) -> fmt::Result {
        match *self {
            Node::True => write!(f, "true"),
            Node::Level { channel, level } => write!(f, "channel {channel} at least {level}"),
            Node::Not { first } => write!(f, "not {first}"),
            Node::Or { first, second } => write!(f, "{first} or {second}"),
            Node::And { first, second } => write!(f, "{first} and {second}"),
            Node::Next { first, low, high } => write!(f, "next[{low},{high}] {first}"),
            Node::Yesterday { first, low, high } => write!(f, "yesterday[{low},{high}] {first}"),
            Node::Until {
                first,
                second,
                low,
                high,
            } => write!(f, "{first} until[{low},{high}] {second}"),
            Node::Since {
                first,
                second,
                low,
                high,
            } => write!(f, "{first} since[{low},{high}] {second}"),
        }
    }
}

/// The text of `Display`, so that a rule's is proved too: a derived text is not.
impl fmt::Debug for Node {
    ghost debug_output = { λ n. Some (node_text n) };

    fn fmt<W: fmt::Write>(&self, f: &mut fmt::Formatter<W>) -> fmt::Result {
        fmt::Display::fmt(self, f)
    }
}
