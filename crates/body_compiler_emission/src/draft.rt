//! The unit that is being written.

ghost use Rattle.std.specs.Prelude.{◌≡◌, ◌+◌, [], ◌∷◌, ◌++◌, true, length, IfOk, OnOk};
ghost use Rattle.body_code.specs.declared.instr.Instr.TheVariants as op;
ghost use Rattle.body_compiler_emission.specs.Drafts.{with_locals, with_temporary, with_instr, with_instr_at, fork_closed, loop_closed, repeat_closed, count_closed, ends_closed};

use body_code::{CodeUnit, Heading, Instr, Instrs, Local, Shared};
use estelle_tree::Items;
use pascal_values::Shape;
use std::alloc::{AllocError, Global};
use std::marker::Model;

/// The locals and the instructions of a unit so far. What has no code is not put into it.
pub struct Draft {
    locals: Items<Local>,
    instrs: Vec<Instr>,
}

impl Drop for Draft {
    fn drop(self) {
        let Draft {
            locals: _,
            instrs: _,
        } = self;
    }
}

impl Model for Draft {
    ghost use Rattle.std.specs.Prelude.{true};
    ghost use Rattle.std.specs.Coded.{codes};
    ghost use Rattle.body_code.specs.contracts.unit.Local as of_local;
    ghost use Rattle.body_code.specs.contracts.instr.Instr as of_instr;
    ghost use Rattle.body_compiler_emission.specs.Drafts.{Drafted};

    ghost Value = { Drafted };

    ghost coded = { Prim.hlevel (codes, of_local.the_row.coded, of_instr.the_row.coded) };

    ghost view = { λ d. record { locals = d.locals; instrs = d.instrs.items; fine = true } };
}

/// A number in instructions. What is beyond them counts as want of memory.
pub fn number(count: usize) -> Result<u32, AllocError>
    ensures { IfOk result (λ n. n ≡ count) }
{
    match u32::try_from(count) {
        Ok(n) => Ok(n),
        Err(_) => Err(AllocError),
    }
}

/// The address so many instructions behind another.
pub fn behind(at: u32, count: u32) -> Result<u32, AllocError>
    ensures { IfOk result (λ n. n ≡ at + count) }
{
    match at.checked_add(count) {
        Some(n) => Ok(n),
        None => Err(AllocError),
    }
}

impl Draft {
    /// A unit with these locals.
    pub fn new(alloc: Global, locals: Items<Local>) -> Draft
        ensures { result ≡ with_locals locals }
    {
        Draft {
            locals,
            instrs: Vec::new(alloc),
        }
    }

    /// One more instruction.
    pub fn push(&mut self, instr: Instr) -> Result<(), AllocError>
        ensures { OnOk result (self.new ≡ with_instr instr self.old) }
    {
        self.instrs.push(instr)?;
        Ok(())
    }

    /// The address of the next instruction.
    pub fn address(&self) -> Result<u32, AllocError>
        ensures { IfOk result (λ at. at ≡ length self.now.instrs) }
    {
        number(self.instrs.len())
    }

    /// One more jump, whose target is set later; its address.
    pub fn hole(&mut self, instr: Instr) -> Result<u32, AllocError>
        ensures { IfOk result (λ at. (at ≡ length self.old.instrs) × (self.new ≡ with_instr instr self.old)) }
    {
        let at = self.address()?;
        self.instrs.push(instr)?;
        Ok(at)
    }

    /// Sets an instruction.
    fn set(&mut self, at: u32, instr: Instr) -> Result<(), AllocError>
        ensures { OnOk result (self.new ≡ with_instr_at at instr self.old) }
    {
        if at as usize >= self.instrs.len() {
            return Err(AllocError);
        }
        self.instrs[at as usize] = instr;
        Ok(())
    }

    /// The end of a fork: its test and the end of its first branch now know where they go.
    pub fn close_fork(&mut self, test: u32, end: u32) -> Result<(), AllocError>
        ensures { OnOk result (self.new ≡ fork_closed test end self.old) }
    {
        let here = self.address()?;
        self.set(test, Instr::Jfalse(behind(end, 1)?))?;
        self.set(end, Instr::Jump(here))
    }

    /// The end of a `while`, whose test begins at an address.
    pub fn close_loop(&mut self, entry: u32, test: u32) -> Result<(), AllocError>
        ensures { OnOk result (self.new ≡ loop_closed entry test self.old) }
    {
        let end = behind(self.address()?, 3)?;
        self.push(Instr::Jfalse(end))?;
        self.push(Instr::Turn)?;
        self.push(Instr::Jump(behind(entry, 1)?))?;
        self.set(entry, Instr::Jump(test))
    }

    /// The end of a `repeat`.
    pub fn close_repeat(&mut self, entry: u32) -> Result<(), AllocError>
        ensures { OnOk result (self.new ≡ repeat_closed entry self.old) }
    {
        let end = behind(self.address()?, 3)?;
        self.push(Instr::Jtrue(end))?;
        self.push(Instr::Turn)?;
        self.push(Instr::Jump(behind(entry, 1)?))
    }

    /// The end of the turns of a `for`, whose temporary takes its next value.
    pub fn close_count(
        &mut self,
        temporary: u32,
        number: u32,
        following: Instr,
        test: u32,
    ) -> Result<(), AllocError>
        ensures { OnOk result (self.new ≡ count_closed temporary number following test self.old) }
    {
        let end = behind(self.address()?, 8)?;
        self.push(Instr::Jfalse(end))?;
        self.push(Instr::Loc(temporary))?;
        self.push(Instr::Loc(temporary))?;
        self.push(Instr::Load)?;
        self.push(following)?;
        self.push(Instr::Store(number))?;
        self.push(Instr::Turn)?;
        self.push(Instr::Jump(behind(test, 2)?))?;
        self.set(test, Instr::Jfalse(end))
    }

    /// One more local of a shape, and its place on the stack.
    pub fn temporary(&mut self, shape: Shape) -> Result<u32, AllocError>
        ensures { IfOk result (λ t. (t ≡ length self.old.locals) × (self.new ≡ with_instr (op.Loc t) (with_temporary shape self.old))) }
    {
        let local = number(self.locals.len())?;
        self.locals.push(Local {
            shape,
            by_ref: false,
        })?;
        self.push(Instr::Loc(local))?;
        Ok(local)
    }

    /// The unit under a heading, which ends here.
    pub fn finish(self, alloc: Global, heading: Heading) -> Result<CodeUnit, AllocError>
        ensures made { IfOk result (λ c. (c.locals ≡ self.locals) × (c.instrs ≡ self.instrs ++ op.Ret ∷ []) × (self.fine ≡ true)) }
        ensures heading { IfOk result (λ c. c.heading ≡ heading) }
    {
        let Draft { locals, mut instrs } = self;
        instrs.push(Instr::Ret)?;
        instrs.shrink_to_fit();
        Ok(CodeUnit {
            heading,
            locals: Shared::of(alloc, locals)?,
            instrs: Instrs::of(Items::from_vec(instrs)),
        })
    }

    /// The test of a fork whose first branch ends at an address.
    pub fn close_test(&mut self, test: u32, end: u32) -> Result<(), AllocError>
        ensures { OnOk result (self.new ≡ with_instr_at test (op.Jfalse (end + 1)) self.old) }
    {
        self.set(test, Instr::Jfalse(behind(end, 1)?))
    }

    /// The end of a `case`, with the addresses of the jumps to it.
    #[tactic(auto, using(crate::proofs::Ends::end_set))]
    pub fn close_ends(&mut self, ends: Items<u32>) -> Result<(), AllocError>
        ensures { OnOk result (self.new ≡ ends_closed ends (length self.old.instrs) self.old) }
    {
        let here = self.address()?;
        let mut ends = ends;
        while let Some(end) = ends.pop() {
            self.set(end, Instr::Jump(here))?;
        }
        Ok(())
    }
}
