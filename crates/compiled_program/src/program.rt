//! Programs with their code.

ghost use Rattle.std.specs.Prelude.{◌≡◌, IfOk};
ghost use Rattle.std.specs.Option.{option_copied};
ghost use Rattle.estelle_model.specs.Asked.{IsGuard};
ghost use Rattle.estelle_model.specs.Jobs.{Answers};
ghost use Rattle.estelle_model.specs.Subject.{subject};
ghost use Rattle.estelle_model_legality.specs.Instances.{LeadsToStates};
ghost use Rattle.body_state.specs.InOrder.{InOrder};
ghost use Rattle.body_jobs.specs.Jobs.{MayBeFired};
ghost use Rattle.body_kinds.specs.Good.{HasGoodKinds};
ghost use Rattle.body_machine_meaning.specs.Faithful.{IsFaithful};
ghost use Rattle.body_program_numbers.specs.Numbering.{numbers_of};

use accepted_program::AcceptedProgram;
use body_code::Code;
use body_compiler::compile;
use body_jobs::Guards;
use body_machine_jobs::{run_guard, run_job};
use body_program::Program;
use body_program_numbers::Numbering;
use body_state::View;
use estelle_model::{Done, Guard, Interaction, Job};
use estelle_tree::Path;
use spec_accept::Checked;
use std::alloc::{AllocError, Global};
use std::marker::Model;

/// The program of an accepted specification with its code, seen as the program is.
pub struct CompiledProgram<'a> {
    program: &'a AcceptedProgram<'a>,
    numbering: Numbering<'a>,
    code: Code,
}

impl Drop for CompiledProgram<'_> {
    fn drop(self) {
        let CompiledProgram {
            program: _,
            numbering: _,
            code: _,
        } = self;
    }
}

impl<'a> Model for CompiledProgram<'a> {
    ghost use Rattle.std.specs.Prelude.{◌≡◌};
    ghost use Rattle.std.specs.Coded.{codes};
    ghost use Rattle.estelle_tree.specs.contracts.tree.specification.Spec as of_specs;
    ghost use Rattle.estelle_model.specs.Subject.{Subject};

    ghost Value = { Subject };

    ghost coded = { Prim.hlevel (codes, of_specs.the_row.coded) };

    ghost use Rattle.estelle_model_legality.specs.Instances.{LeadsToStates};
    ghost use Rattle.body_kinds.specs.Good.{HasGoodKinds};
    ghost use Rattle.body_machine_meaning.specs.Faithful.{IsFaithful};
    ghost use Rattle.body_program_numbers.specs.Numbering.{numbers_of};

    ghost view = { λ p. p.program.now };

    ghost invariant = { λ p. (p.numbering ≡ p.program.now) × IsFaithful p.program.now (numbers_of p.program.now) p.code
        × HasGoodKinds p.program.now (numbers_of p.program.now) p.code };
}

impl<'a> CompiledProgram<'a> {
    /// Compiles the bodies of the specification. The error is want of memory.
    pub fn new(
        alloc: Global,
        checked: &'a Checked,
        program: &'a AcceptedProgram<'a>,
    ) -> Result<CompiledProgram<'a>, AllocError>
        requires { program.now ≡ subject checked.now.spec checked.now.names }
        ensures { IfOk result (λ compiled. compiled ≡ program.now) }
    {
        let numbering = Numbering::new(alloc, &checked.spec, program.program())?;
        let code = compile(alloc, &numbering)?;
        Ok(CompiledProgram {
            program,
            numbering,
            code,
        })
    }

    /// The program.
    pub fn program(&self) -> &Program<'a>
        ensures same { result.now ≡ self.now }
        ensures leads { LeadsToStates self.now }
    {
        self.program.program()
    }

    /// The code of its bodies.
    pub fn code(&self) -> &Code
        ensures faithful { IsFaithful self.now (numbers_of self.now) result.now }
        ensures kinds { HasGoodKinds self.now (numbers_of self.now) result.now }
    {
        &self.code
    }

    /// Computes a job by the code, in place of its image. The error is want of memory.
    pub fn fire(&self, alloc: Global, job: Job) -> Result<Done, AllocError>
        requires { MayBeFired job }
        ensures { IfOk result (λ done. Answers self.now job done) }
    {
        run_job(
            alloc,
            self.program.program(),
            self.numbering.numbers(),
            &self.code,
            job,
        )
    }
}

impl Guards for CompiledProgram<'_> {
    ghost subject = { λ program. program };

    fn guard(
        &self,
        alloc: Global,
        path: &Path,
        view: &View,
        trans: u32,
        head: Option<&Interaction>,
        timed: bool,
        budget: u32,
    ) -> Result<Guard, AllocError> {
        run_guard(
            alloc,
            self.program.program(),
            self.numbering.numbers(),
            &self.code,
            path,
            view,
            trans,
            head,
            timed,
            budget,
        )
    }
}
