//! The program that is run, and the schedules.

/// The task of a path has so many tries.
pub(crate) struct Move(pub(crate) &'static [u32], pub(crate) u32);

/// What is tried, in this order. A task that waits for an object lies in the object's room until
/// that is drained; where there are fewer rooms, it is kept at hand.
pub(crate) struct Schedule {
    pub(crate) title: &'static str,
    pub(crate) rooms: u32,
    pub(crate) moves: &'static [Move],
}

/// The path of the root.
const ROOT: &[u32] = &[0];

/// The path of its first child.
const FIRST: &[u32] = &[0, 0];

/// The path of its second child.
const SECOND: &[u32] = &[0, 1];

/// The program. Both children write to object 0, the first one also to object 1, and so does
/// the root in the end. The first child gives its rights on object 0 up before it ends, and the
/// second one ends by a fault.
pub(crate) const TEXT: &str = "object s : 1; object t : 1;
main {
    withonly { rd_wr(s); wr(t); } do () { s[0] = 5; with { no_rd_wr(s); } cont; t[0] = 7; }
    withonly { rd_wr(s); } do () { s[0] = s[0] + 1; s[0] = s[0] / (s[0] - 6); }
    t[0] = t[0] + 1;
}
";

/// The schedules. In the third one the second child asks three times for object 0: before the first
/// child has taken it, when that one has given it back but may take it again, and when that one has
/// left it. Then it goes on, and ends while the first child is still at work. In the fourth one
/// the second child and the root lie in rooms while they wait. Each comes out twice: when the first
/// child gives the object back, which is too early, and when it has left the object.
pub(crate) const SCHEDULES: [Schedule; 4] = [
    Schedule {
        title: "serial order: a child goes on before its parent",
        rooms: 0,
        moves: &[
            Move(ROOT, 12),
            Move(FIRST, 14),
            Move(ROOT, 3),
            Move(SECOND, 7),
            Move(ROOT, 8),
        ],
    },
    Schedule {
        title: "the parent goes on before its children, where it may",
        rooms: 0,
        moves: &[
            Move(ROOT, 17),
            Move(FIRST, 13),
            Move(ROOT, 7),
            Move(FIRST, 1),
            Move(SECOND, 7),
        ],
    },
    Schedule {
        title: "a task asks in vain, and again when the object is left to it",
        rooms: 0,
        moves: &[
            Move(ROOT, 15),
            Move(SECOND, 2),
            Move(FIRST, 7),
            Move(SECOND, 1),
            Move(FIRST, 1),
            Move(SECOND, 6),
            Move(ROOT, 2),
            Move(FIRST, 6),
            Move(ROOT, 7),
        ],
    },
    Schedule {
        title: "a task that waits lies in the object's room until the object is freed",
        rooms: 2,
        moves: &[
            Move(ROOT, 17),
            Move(SECOND, 2),
            Move(FIRST, 6),
            Move(SECOND, 1),
            Move(FIRST, 2),
            Move(SECOND, 6),
            Move(FIRST, 3),
            Move(ROOT, 1),
            Move(FIRST, 3),
            Move(ROOT, 7),
        ],
    },
];
