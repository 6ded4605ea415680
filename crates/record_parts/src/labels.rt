//! What objects are called in texts.

ghost use Rattle.std.specs.Prelude.{◌≡◌, ◌<◌, ◌++◌, length, map, slice_get, true, Some, IfOk, IfSome, OnOk};
ghost use Rattle.std.specs.Fmt.{decimal};
ghost use Rattle.jade_syntax.specs.Objects.{labels, sizes};
ghost use Rattle.jade_syntax.specs.Shapes.{is_shaped};
ghost use Rattle.record_parts.specs.Labels.{label_text, member_text};
ghost use Rattle.run_record.specs.Pieces.{IsLabel};

use itoa::Buffer;
use jade_base::ObjectId;
use jade_syntax::{Checked, Name};
use std::alloc::{AllocError, Global};

/// Puts a number last, in decimal.
pub fn push_decimal(text: &mut Vec<u8>, number: u32) -> Result<(), AllocError>
    ensures { OnOk result (text.new.items ≡ text.old.items ++ decimal number) }
{
    let mut buffer = Buffer::new();
    text.extend_from_slice(buffer.format(number).as_bytes())
}

/// Puts the label of an object last.
pub fn push_label(text: &mut Vec<u8>, name: &Name, member: Option<u32>) -> Result<(), AllocError>
    ensures put { OnOk result (text.new.items ≡ text.old.items ++ (name.now ++ member_text member)) }
    ensures fits { IfSome member (λ index. index < 4294967296) }
{
    text.extend_from_slice(name.bytes())?;
    if let Some(index) = member {
        text.push(b'[')?;
        push_decimal(text, index)?;
        text.push(b']')?;
    }
    Ok(())
}

/// The label of an object. The error is want of memory.
pub fn label_of(alloc: Global, checked: &Checked, object: ObjectId) -> Result<Vec<u8>, AllocError>
    requires { object.0 < length (sizes checked.now.program.items) }
    ensures label { IfOk result (λ text. slice_get (map label_text (labels checked.now.program.items)) object.0 ≡ Some text.items) }
    ensures spelled { IfOk result (λ text. is_shaped checked.now.program ≡ true → IsLabel text.items) }
{
    let (name, member) = checked.label(object);
    let mut text = Vec::new(alloc);
    push_label(&mut text, name, member)?;
    Ok(text)
}
