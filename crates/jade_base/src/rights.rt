ghost use Rattle.std.specs.Prelude.{◌≡◌};
ghost use Rattle.jade_base.specs.Rights.{at_once, covered, has_rights, is_there, join, joined, may_read, may_write};

/// What a task may do with an object in one respect: nothing, something later, or something now.
#[derive(Clone, Copy, Debug, PartialEq, Eq)]
pub enum Right {
    Absent,
    Deferred,
    Immediate,
}

/// The rights of a task on one object.
#[derive(Clone, Copy, Debug, PartialEq, Eq)]
pub struct Rights {
    pub reads: Right,
    pub writes: Right,
    pub commutes: Right,
}

/// The way in which a task holds the content of an object.
#[derive(Clone, Copy, Debug, PartialEq, Eq)]
pub enum Mode {
    Reading,
    Writing,
    Commuting,
}

impl Right {
    /// Whether the right is there, now or later.
    pub fn is_there(self) -> bool
        ensures { result ≡ is_there self }
    {
        match self {
            Right::Absent => false,
            Right::Deferred | Right::Immediate => true,
        }
    }

    /// The right that is asked for at once: immediate where there is one; `None` exactly where
    /// there is none.
    pub fn at_once(self) -> Option<Right>
        ensures { result ≡ at_once self }
    {
        match self {
            Right::Absent => None,
            Right::Deferred | Right::Immediate => Some(Right::Immediate),
        }
    }

    /// The right that both declarations give together: the stronger one.
    pub fn joined(self, other: Right) -> Right
        ensures { result ≡ joined self other }
    {
        match (self, other) {
            (Right::Immediate, _) | (_, Right::Immediate) => Right::Immediate,
            (Right::Deferred, _) | (_, Right::Deferred) => Right::Deferred,
            (Right::Absent, Right::Absent) => Right::Absent,
        }
    }
}

impl Rights {
    /// No right at all.
    pub const NONE: Rights = Rights {
        reads: Right::Absent,
        writes: Right::Absent,
        commutes: Right::Absent,
    };

    /// Whether some right is there.
    pub fn any(self) -> bool
        ensures { result ≡ has_rights self }
    {
        self.reads.is_there() || self.writes.is_there() || self.commutes.is_there()
    }

    /// Whether a cell may be read now.
    pub fn may_read(self) -> bool
        ensures { result ≡ may_read self }
    {
        matches!(self.reads, Right::Immediate) || matches!(self.commutes, Right::Immediate)
    }

    /// Whether a cell may be written now.
    pub fn may_write(self) -> bool
        ensures { result ≡ may_write self }
    {
        matches!(self.writes, Right::Immediate) || matches!(self.commutes, Right::Immediate)
    }

    /// The rights that both declarations give together.
    pub fn join(self, other: Rights) -> Rights
        ensures { result ≡ join self other }
    {
        Rights {
            reads: self.reads.joined(other.reads),
            writes: self.writes.joined(other.writes),
            commutes: self.commutes.joined(other.commutes),
        }
    }

    /// Whether a task with these rights on an object may give a child those: each right of the
    /// child has one of the task's, now or later, and a commuting right needs both to read and to
    /// write.
    pub fn covers(self, child: Rights) -> bool
        ensures { result ≡ covered self child }
    {
        (!child.reads.is_there() || self.reads.is_there())
            && (!child.writes.is_there() || self.writes.is_there())
            && (!child.commutes.is_there() || (self.reads.is_there() && self.writes.is_there()))
    }
}
