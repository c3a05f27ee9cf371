ghost use Rattle.std.specs.Prelude.{◌≡◌, ◌↔◌, IsTrue, IfOk};

use crate::copies::copy_three;
use crate::structural::Structural;
use hip_tree::{Extern, Function, GlobalVar, Param, Program};
use hip_types::NoMemory;
use std::alloc::Global;

impl Structural for GlobalVar {
    fn copy(&self, alloc: Global) -> Result<GlobalVar, NoMemory> {
        let (name, ty, init) = copy_three(alloc, &self.name, &self.ty, &self.init)?;
        Ok(GlobalVar {
            name,
            fixed: self.fixed,
            ty,
            init,
            persistent: self.persistent,
            align: self.align,
        })
    }

    fn same(&self, other: &GlobalVar) -> bool {
        self.name.same(&other.name)
            && self.fixed == other.fixed
            && self.ty.same(&other.ty)
            && self.init.same(&other.init)
            && self.persistent == other.persistent
            && self.align == other.align
    }
}

impl Structural for Extern {
    fn copy(&self, alloc: Global) -> Result<Extern, NoMemory> {
        Ok(Extern {
            ret: self.ret,
            name: self.name.copy(alloc)?,
            params: self.params.copy(alloc)?,
        })
    }

    fn same(&self, other: &Extern) -> bool {
        self.ret == other.ret && self.name.same(&other.name) && self.params.same(&other.params)
    }
}

impl Structural for Param {
    fn copy(&self, alloc: Global) -> Result<Param, NoMemory> {
        Ok(Param {
            ty: self.ty,
            name: self.name.copy(alloc)?,
        })
    }

    fn same(&self, other: &Param) -> bool {
        self.ty == other.ty && self.name.same(&other.name)
    }
}

impl Structural for Function {
    fn copy(&self, alloc: Global) -> Result<Function, NoMemory> {
        let (name, params, blocks) = copy_three(alloc, &self.name, &self.params, &self.blocks)?;
        Ok(Function {
            ret: self.ret,
            name,
            params,
            blocks,
        })
    }

    fn same(&self, other: &Function) -> bool {
        self.ret == other.ret
            && self.name.same(&other.name)
            && self.params.same(&other.params)
            && self.blocks.same(&other.blocks)
    }
}

/// A new program that is equal to the given one.
pub fn copy(alloc: Global, program: &Program) -> Result<Program, NoMemory>
    ensures { IfOk result (λ p. p ≡ program.now) }
{
    let (globals, externs, functions) = copy_three(
        alloc,
        &program.globals,
        &program.externs,
        &program.functions,
    )?;
    Ok(Program {
        globals,
        externs,
        functions,
    })
}

/// Whether two programs are equal.
pub fn same(a: &Program, b: &Program) -> bool
    ensures { IsTrue result ↔ (a.now ≡ b.now) }
{
    a.globals.same(&b.globals) && a.externs.same(&b.externs) && a.functions.same(&b.functions)
}
