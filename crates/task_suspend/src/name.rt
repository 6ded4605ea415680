//! Names of runs.

use std::marker::Brand;

/// Names one run: the table that its passes are of, and its plan. It has no calls.
pub trait RunName {
    ghost use Rattle.atomic_table.specs.Seated.{TableId};
    ghost use Rattle.jade_meaning.specs.Plan.{RunPlan};

    ghost mark: { TableId };

    ghost plan: { RunPlan };
}

impl RunName for Brand {
    ghost use Rattle.task_suspend.specs.Names.{no_table, no_plan};

    ghost mark = { no_table };

    ghost plan = { no_plan };
}
