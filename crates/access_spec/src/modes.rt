ghost use Rattle.std.specs.Prelude.{◌≡◌};
ghost use Rattle.jade_base.specs.Rights.{gives_way, mode_of};

use jade_base::{Mode, Right, Rights};

/// The mode in which an object with these rights is held now; `None` exactly where no right is
/// immediate.
pub fn mode_of(rights: Rights) -> Option<Mode>
    ensures { result ≡ mode_of rights }
{
    if rights.commutes == Right::Immediate {
        Some(Mode::Commuting)
    } else if rights.writes == Right::Immediate {
        Some(Mode::Writing)
    } else if rights.reads == Right::Immediate {
        Some(Mode::Reading)
    } else {
        None
    }
}

/// Whether a hold in this mode is given up for a child with these rights on the object.
pub fn gives_way(hold: Mode, child: Rights) -> bool
    ensures { result ≡ gives_way hold child }
{
    match hold {
        Mode::Reading => child.writes.is_there() || child.commutes.is_there(),
        Mode::Writing | Mode::Commuting => child.any(),
    }
}

#[cfg(test)]
mod tests {
    use super::*;

    #[test]
    fn holds_by_the_strongest_right(rt: HostRuntime) {
        let reads = Rights {
            reads: Right::Immediate,
            writes: Right::Deferred,
            commutes: Right::Absent,
        };
        assert_eq!(rt; mode_of(reads), Some(Mode::Reading));
        assert_eq!(rt; mode_of(Rights::NONE), None);
        assert!(rt; gives_way(Mode::Reading, reads));
        assert!(rt; !gives_way(Mode::Writing, Rights::NONE));
    }
}
