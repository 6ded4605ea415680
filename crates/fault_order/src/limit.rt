ghost use Rattle.std.specs.Prelude.{◌≤◌, IfSome, IfNone};
ghost use Rattle.fault_order.specs.Order.{PassesLimit, steps_in};

use jade_base::{PartStep, PartSteps};

/// The first part of the list with which the sum of the steps is greater than the limit; `None`
/// exactly where the sum of all is not. Of a list by ascending key it is the part of least key
/// with which the limit is passed. It takes no memory.
pub fn limit_place(steps: &PartSteps, limit: u32) -> Option<&PartStep>
    ensures passed { IfSome result (λ part. PassesLimit steps.now limit part.now) }
    ensures kept { IfNone result (steps_in steps.now ≤ limit) }
{
    let mut left = u64::from(limit);
    for i in 0..steps.len() {
        let part = steps.at(i);
        if part.steps > left {
            return Some(part);
        }
        left -= part.steps;
    }
    None
}

#[cfg(test)]
mod tests {
    use super::*;
    use jade_base::Path;
    use std::test::Fail;

    #[test]
    fn finds_the_part(rt: HostRuntime) -> Result<(), Fail> {
        let mut list = Vec::new(rt.alloc());
        for (children, steps) in [(0, 3), (1, 4), (2, 5)] {
            let path = Path::root(rt.alloc())?;
            list.push(PartStep {
                path,
                children,
                steps,
            })?;
        }
        let steps = PartSteps::from_vec(list);
        for (limit, part) in [
            (2, Some(0)),
            (3, Some(1)),
            (7, Some(2)),
            (11, Some(2)),
            (12, None),
        ] {
            assert_eq!(rt; part_of(&steps, limit), part);
        }
        Ok(())
    }

    fn part_of(steps: &PartSteps, limit: u32) -> Option<u32> {
        match limit_place(steps, limit) {
            Some(part) => Some(part.children),
            None => None,
        }
    }
}
