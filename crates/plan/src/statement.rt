// What a row of a plan says.
ghost use Rattle.std.specs.Prelude.{◌≡◌};

use network::Distances;
use reading::{HIGHEST, LOWEST};

// Two rows over steps: `hold` at every step from now to one that lies `from` to `upto` steps away, and `goal` there.
#[derive(Clone, Copy, PartialEq, Eq, Debug)]
pub struct Window {
    pub hold: u32,
    pub goal: u32,
    pub from: u32,
    pub upto: u32,
}

impl Window {
    ghost use Rattle.plan.specs.Rows.{are_steps};

    // Whether the steps make an interval, and are few enough.
    fn has_interval(self) -> bool
        ensures { result ≡ are_steps self }
    {
        self.from <= self.upto && self.upto <= 63
    }
}

// What a row says of a place at a step. It refers to rows by their numbers; in a draft they are lower than its own.
#[derive(Clone, Copy, PartialEq, Eq, Debug)]
pub enum Statement {
    // the channel's reading is at least the limit
    AtLeast {
        channel: u32,
        limit: i32,
    },
    Not {
        row: u32,
    },
    And {
        left: u32,
        right: u32,
    },
    Or {
        left: u32,
        right: u32,
    },
    // at a later step
    Until(Window),
    // at an earlier step
    Since(Window),
    // a place where the goal holds is reached through places where `through` holds, over a distance in the interval
    Reach {
        through: u32,
        goal: u32,
        distances: Distances,
    },
    Yes,
}

impl Statement {
    ghost use Rattle.plan.specs.Rows.{refers, names_channel, are_distances, has_interval};

    // Whether the statement refers only to rows below a number.
    pub(crate) fn refers_below(self, count: u32) -> bool
        ensures { result ≡ refers count self }
    {
        match self {
            Statement::AtLeast { .. } | Statement::Yes => true,
            Statement::Not { row } => row < count,
            Statement::And { left, right } | Statement::Or { left, right } => {
                left < count && right < count
            }
            Statement::Until(window) | Statement::Since(window) => {
                window.hold < count && window.goal < count
            }
            Statement::Reach { through, goal, .. } => through < count && goal < count,
        }
    }

    // Whether the channel that the statement reads is one of so many, and its limit a possible reading.
    pub(crate) fn reads_channel(self, channels: u32) -> bool
        ensures { result ≡ names_channel channels self }
    {
        match self {
            Statement::AtLeast { channel, limit } => {
                channel < channels && (LOWEST..=HIGHEST).contains(&limit)
            }
            _ => true,
        }
    }

    // Whether the steps or distances of the statement make an interval, and are small enough.
    pub(crate) fn has_interval(self) -> bool
        ensures { result ≡ has_interval self }
    {
        match self {
            Statement::Until(window) | Statement::Since(window) => window.has_interval(),
            Statement::Reach { distances, .. } => Statement::are_distances(distances),
            _ => true,
        }
    }

    // Whether distances make an interval, and are short enough. An absent upper distance bounds nothing.
    fn are_distances(distances: Distances) -> bool
        ensures { result ≡ are_distances distances.from distances.upto }
    {
        match distances.upto {
            Some(most) => distances.from <= most && most <= 127,
            None => distances.from <= 127,
        }
    }
}

// A row as it is asked for; none where its code names no statement.
pub type Row = Option<Statement>;
