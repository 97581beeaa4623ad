//! Units that are entered and left: calls, initializations and ends.

ghost use Rattle.std.specs.Prelude.{◌≡◌, [], ◌∷◌, List, MatchOption, OnOk};
ghost use Rattle.std.specs.Option.{option_copied};
ghost use Rattle.body_code.specs.declared.unit.CodeUnit as code_units;
ghost use Rattle.estelle_model.specs.Subject.{Subject};
ghost use Rattle.body_numbers.specs.declared.numbers.Numbers as numbers;
ghost use Rattle.body_machine.specs.Frames.{pop_frame};
ghost use Rattle.body_machine.specs.Steps.{behind, begun, call_unit, init_with, values_from, taken_from, return_to};
ghost use Rattle.body_machine.specs.Seen.{seen, seen_unit, IsNext, IsStep};

use crate::activation::{Activation, Return};
use crate::children::{hold, make_child};
use crate::frames::deepen;
use crate::given::{add_blanks, given_to, values_of};
use crate::machine::Machine;
use crate::places::after;
use crate::stack::Stack;
use crate::values::stuck;
use body_code::CodeUnit;
use body_state::ModuleBodies;
use body_values::Stop;
use estelle_model::{Environment, Place};
use estelle_tree::{Items, Path, Sequence, SequenceMut};
use pascal_values::Values;
use std::alloc::{AllocError, Global};
use std::mem;

impl<'a> Activation<'a> {
    /// A unit as it begins, one frame above another.
    pub fn begun(
        alloc: Global,
        body: u32,
        unit: &'a CodeUnit,
        path: Path,
        frame: u32,
        references: Items<Place>,
        return_to: Return,
    ) -> Activation<'a>
        ensures { seen_unit result ≡ begun body unit.now path frame references return_to }
    {
        Activation {
            body,
            unit,
            here: Environment {
                path,
                frame,
                references,
            },
            address: 0,
            stack: Stack::none(alloc),
            turned: false,
            return_to,
        }
    }
}

impl<'a> Machine<'a> {
    /// A unit begins, and the one that runs goes on behind its end.
    pub fn begin(&mut self, unit: Activation<'a>) -> Result<(), AllocError>
        ensures { OnOk result (seen self.new ≡ record (seen self.old) { active = seen_unit unit.entry; waiting = behind (seen self.old).active.stack (seen self.old).active ∷ (seen self.old).waiting }) }
    {
        self.advance()?;
        let caller = mem::replace(&mut self.active, unit);
        match self.waiting.push(caller) {
            Ok(()) => Ok(()),
            Err(_) => Err(AllocError),
        }
    }
}

impl<'a> Machine<'a> {
    /// The unit that waits for the one that ends, taken off those that wait.
    fn leave_unit(&mut self) -> Option<Activation<'a>>
        ensures same { (seen self.new).active ≡ (seen self.old).active }
        ensures kept { self.new.walk ≡ self.old.walk }
        ensures waits { MatchOption result (((seen self.old).waiting ≡ []) × ((seen self.new).waiting ≡ [])) (λ caller. (seen self.old).waiting ≡ seen_unit caller ∷ (seen self.new).waiting) }
    {
        self.waiting.pop()
    }
}

/// Calls a routine of a body, with the topmost items.
pub fn call<'a>(
    alloc: Global,
    machine: &mut Machine<'a>,
    body: u32,
    unit: Option<&'a CodeUnit>,
    arguments: u32,
) -> Result<(), Stop>
    ensures { (s : Subject) (n : numbers.Numbers) (code : List code_units.CodeUnit) → IsNext (call_unit s n code body (option_copied unit.entry) arguments (seen machine.old).active.stack (seen machine.old)) result (seen machine.new) }
{
    let Some(unit) = unit else {
        return Err(stuck());
    };
    let arguments_count = arguments as usize;
    if !machine.active.stack.turn_top(arguments_count) {
        return Err(stuck());
    }
    let locals = unit.locals.items();
    let stack = &mut machine.active.stack;
    let Some(given) = given_to(alloc, locals, stack, arguments_count)? else {
        return Err(stuck());
    };
    let frame = machine.active.here.frame;
    deepen(&mut machine.walk, frame)?;
    let mut values = given.values;
    add_blanks(alloc, &mut values, after(locals, arguments))?;
    machine.walk.push_frame(values)?;
    let path = machine.active.own_path(alloc)?;
    let mut callee = Activation::begun(
        alloc,
        body,
        unit,
        path,
        frame + 1,
        given.references,
        Return::ToCaller,
    );
    callee.stack = machine.active.stack.of_callee(alloc);
    machine.begin(callee)?;
    Ok(())
}

/// Makes a child of a body in a module variable, which begins its initialization.
pub fn init<'a>(
    alloc: Global,
    bodies: &ModuleBodies,
    machine: &mut Machine<'a>,
    modvar: u32,
    body: u32,
    unit: Option<&'a CodeUnit>,
    arguments: u32,
) -> Result<(), Stop>
    ensures { (n : numbers.Numbers) (code : List code_units.CodeUnit) → IsNext (init_with bodies.now n code modvar body (option_copied unit.entry) (values_from (taken_from arguments (seen machine.old).active.stack)) (seen machine.old)) result (seen machine.new) }
{
    let Some(items) = machine.active.stack.take_top(arguments as usize)? else {
        return Err(stuck());
    };
    let Some(values) = values_of(alloc, items)? else {
        return Err(stuck());
    };
    let Some(unit) = unit else {
        return Err(stuck());
    };
    let here = &machine.active.here;
    let child = make_child(alloc, bodies, &mut machine.walk, here, modvar, body, values)?;
    let frame = here.frame + 1;
    let mut values = Values::none(alloc);
    add_blanks(alloc, &mut values, unit.locals.items())?;
    machine.walk.push_frame(values)?;
    let return_to = Return::ToParent {
        variable: modvar,
        body,
        child: child.copy(alloc)?,
    };
    let initialization = Activation::begun(
        alloc,
        body,
        unit,
        child,
        frame,
        Items::new(alloc),
        return_to,
    );
    machine.begin(initialization)?;
    Ok(())
}

/// Ends a unit; whether another one goes on.
pub fn ret(alloc: Global, bodies: &ModuleBodies, machine: &mut Machine) -> Result<bool, Stop>
    ensures { (n : numbers.Numbers) (code : List code_units.CodeUnit) → IsStep (return_to bodies.now n code (seen machine.old).active.return (seen machine.old).waiting (seen machine.old).active.stack (pop_frame (seen machine.old).running)) result (seen machine.new) }
{
    machine.walk.pop_frame();
    match machine.leave_unit() {
        None => Ok(false),
        Some(caller) => match resume(alloc, bodies, machine, caller) {
            Ok(()) => Ok(true),
            Err(stop) => Err(stop),
        },
    }
}

/// A unit goes on with what is left by the one that has ended.
fn resume<'a>(
    alloc: Global,
    bodies: &ModuleBodies,
    machine: &mut Machine<'a>,
    caller: Activation<'a>,
) -> Result<(), Stop>
    ensures { (n : numbers.Numbers) (code : List code_units.CodeUnit) → IsNext (return_to bodies.now n code (seen machine.old).active.return (seen_unit caller.entry ∷ (seen machine.old).waiting) (seen machine.old).active.stack (seen machine.old).running) result (seen machine.new) }
{
    let (stack, return_to) = mem::replace(&mut machine.active, caller).into_left();
    machine.active.stack.put_all(stack)?;
    match return_to {
        Return::ToParent {
            variable,
            body,
            child,
        } => hold(
            alloc,
            bodies,
            &mut machine.walk,
            &machine.active.here.path,
            variable,
            body,
            child,
        ),
        _ => Ok(()),
    }
}
