//! Checks a program, and prints what each of its names stands for, in text order, and the number of
//! cells of each object, as the plan of a run tells it.
//!
//! Floor `worked`, over `jade_base`, `jade_meaning`, `jade_syntax` and `worked_case`.
#![tactic(auto)]

use jade_base::{ObjectId, StdSource, read_text};
use jade_meaning::Plan;
use jade_syntax::Stand;
use std::io;
use worked_case::checked;

/// Prints what a name stands for.
fn tell(rt: &HostRuntime, stand: &Stand) -> io::Result<()> {
    match stand {
        Stand::Input(number) => println!(rt; "input {number}"),
        Stand::Slot(number) => println!(rt; "slot {number}"),
        Stand::Single(ObjectId(number)) => println!(rt; "object {number}"),
        Stand::Family(ObjectId(first), count) => println!(rt;
            "objects from {first}, {count} of them"
        ),
    }
}

fn main(rt: HostRuntime) -> io::Result<()> {
    let alloc = rt.alloc();
    let mut source = StdSource::new(rt.stdin());
    let Ok(text) = read_text(alloc, &mut source) else {
        return println!(rt; "no text");
    };
    let Some(checked) = checked(alloc, &text) else {
        return println!(rt; "no checked program");
    };
    let stands = checked.stands();
    for i in 0..stands.len() {
        tell(&rt, stands.at(i))?;
    }
    let plan = Plan::of(&checked, &[7], 1000);
    for number in 0..plan.objects() {
        let size = plan.size(ObjectId(number));
        println!(rt; "object {number} has {size} cells")?;
    }
    Ok(())
}
