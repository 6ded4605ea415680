//! The serial run of a program.

ghost use Rattle.std.specs.Prelude.{◌≡◌, ◌≤◌, length, IfOk};
ghost use Rattle.jade_syntax.specs.declared.objects.TheConstants.{OBJECT_LIMIT};
ghost use Rattle.jade_syntax.specs.Image.{program as abstracted};
ghost use Rattle.jade_syntax.specs.Objects.{input_names, sizes};
ghost use Rattle.jade_meaning.specs.Course.{inputs};
ghost use Rattle.jade_meaning.specs.Report.{report};
ghost use Rattle.jade_meaning.specs.Turns.{in_order};

use crate::dense_spec::DenseSpec;
use crate::resolve::DeclaredItems;
use crate::run_state::RunState;
use crate::scope::Scope;
use crate::setting::Setting;
use crate::values::Value;
use jade_base::{Memory, Path, Report};
use jade_syntax::Checked;
use jade_syntax::tree::{Item, Items, Program};
use std::alloc::Global;

/// Runs a program serially, each child whole where it is created, and reports what it did: a child
/// that commutes too, so the turns are in the order of creation. Each task may begin `limit` steps.
/// The error is want of memory.
pub fn serial_run(
    alloc: Global,
    checked: &Checked,
    numbers: &[i64],
    limit: u32,
) -> Result<Report, Memory>
    requires given { length numbers.now ≡ length (input_names checked.now.program.items) }
    requires limit { 1 ≤ limit }
    ensures { IfOk result (λ done. done ≡ report (abstracted checked.now.program) numbers.now limit in_order) }
{
    serial_program(alloc, checked.program(), numbers, limit)
}

/// Runs a tree serially, whether or not its names and kinds are right: a name that stands for
/// nothing is zero, or an object without cells. It declares at most 4,096 objects. The error is
/// want of memory.
pub fn serial_program(
    alloc: Global,
    program: &Program,
    numbers: &[i64],
    limit: u32,
) -> Result<Report, Memory>
    requires given { length numbers.now ≡ length (input_names program.now.items) }
    requires objects { length (sizes program.now.items) ≤ OBJECT_LIMIT }
    ensures { IfOk result (λ done. done ≡ report (abstracted program.now) numbers.now limit in_order) }
{
    let items = DeclaredItems::of(&program.items);
    let given = inputs(alloc, &program.items, numbers)?;
    let scope = given.copy(alloc)?;
    let count = items.objects();
    let spec = DenseSpec::all(alloc, count)?;
    let path = Path::root(alloc)?;
    let mut state = RunState::start(alloc, &program.items)?;
    let setting = Setting {
        alloc,
        items,
        given,
        limit,
    };
    setting.run(scope, spec, &program.main, &path, &mut state)?;
    state.into_report(alloc)
}

// The inputs as variables with these values.
pub(crate) fn inputs<'c>(
    alloc: Global,
    items: &'c Items,
    numbers: &[i64],
) -> Result<Scope<'c>, Memory>
    requires { length numbers.now ≡ length (input_names items.now) }
    ensures { IfOk result (λ scope. scope ≡ inputs items.now numbers.now) }
{
    let mut scope = Scope::empty(alloc);
    let mut number = numbers.len();
    let mut left = items.len();
    while left > 0 {
        left -= 1;
        match items.at(left) {
            Item::Input { name, .. } => {
                number -= 1;
                match scope.bind(name, Value::IntOf(numbers[number])) {
                    Ok(()) => {}
                    Err(memory) => return Err(memory),
                }
            }
            Item::Single { .. } => {}
            Item::Family { .. } => {}
        }
    }
    Ok(scope)
}
