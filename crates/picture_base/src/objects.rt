//! The labels of objects.

ghost use Rattle.std.specs.Prelude.{◌≡◌, length, vec_len, IfOk};
ghost use Rattle.jade_syntax.specs.Objects.{sizes};

use crate::stop::Stop;
use jade_base::ObjectId;
use jade_syntax::Checked;
use std::alloc::Global;
use std::str;

/// The name of an object's item.
fn name_of(name: &[u8]) -> &str {
    match str::from_utf8(name) {
        Ok(name) => name,
        Err(_) => "?",
    }
}

/// The label of an item's object: its name, and its number among those of a family.
fn label(alloc: Global, name: &str, member: Option<u32>) -> Result<String, Stop> {
    match member {
        Some(index) => Ok(format!(in alloc; "{name}[{index}]")?),
        None => Ok(String::from_str(alloc, name)?),
    }
}

/// The labels of a program's objects, by the numbers of these. The error is want of memory.
pub fn labels(alloc: Global, checked: &Checked) -> Result<Vec<String>, Stop>
    ensures { IfOk result (λ labels. vec_len labels ≡ length (sizes checked.now.program.items)) }
{
    let mut labels = Vec::new(alloc);
    for number in 0..checked.objects() {
        let (name, member) = checked.label(ObjectId(number));
        let label = label(alloc, name_of(name.bytes()), member)?;
        if labels.push(label).is_err() {
            return Err(Stop::Failed);
        }
    }
    Ok(labels)
}
