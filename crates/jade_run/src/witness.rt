//! Who is shown the runs of a call.

ghost use Rattle.std.specs.Prelude.{◌≡◌, Option, None, List};
ghost use Rattle.jade_run.specs.Witnessed.{SeenRun, seen_with};

use object_table::Ran;

/// Who is shown what a run by workers did, before its answer is written. A `Ran` comes from the end
/// of a table alone, so what a witness tells of a call can't be told of one that ran nothing, or
/// serially.
pub trait Witness {
    // The runs that it was shown, with the turns that their tasks took, where it tells them.
    ghost seen: { Self → Option (List SeenRun) };

    /// Is shown what a run did.
    fn see(&mut self, ran: &Ran<'_>)
        ensures { seen self.new
            ≡ seen_with (seen self.old) (record { plan = ran.now.plan; turns = ran.now.report.turns }) };
}

/// The witness that looks away.
#[derive(Drop)]
pub struct NoWitness;

impl Witness for NoWitness {
    ghost seen = { λ _. None };

    fn see(&mut self, _ran: &Ran<'_>) {}
}
