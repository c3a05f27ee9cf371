ghost use Rattle.std.specs.Prelude.{◌≡◌, [], ◌∷◌, true, false, OnOk};
ghost use Rattle.hip_runs.specs.Operands.{scalar_size};
ghost use Rattle.hip_repairs.specs.Repaired as spec;
ghost use Rattle.hip_repairs.specs.Repaired.{added_fence, added_flush, flush_of, the_fence};
ghost use Rattle.hip_fix.specs.Walk.{grown, none_needed};

use crate::insertions::{fence, is_wide, line_flush, range_flush};
use hip_tree::{Instr, Operand};
use hip_types::{NoMemory, Row, Scalar};
use std::alloc::Global;

/// The functions that inserted calls name.
#[derive(Clone, Copy)]
pub struct NeededExterns {
    pub clwb: bool,
    pub sfence: bool,
    pub pmem_flush: bool,
}

impl NeededExterns {
    /// No functions so far.
    pub fn none() -> NeededExterns
        ensures { result ≡ none_needed }
    {
        NeededExterns {
            clwb: false,
            sfence: false,
            pmem_flush: false,
        }
    }
}

/// Repaired instructions, and the functions that the inserted ones name.
#[derive(Drop)]
pub struct RepairedBody {
    pub instrs: Row<Instr>,
    pub needed: NeededExterns,
}

impl RepairedBody {
    /// Adds an instruction of the program.
    pub fn add(&mut self, instr: Instr) -> Result<(), NoMemory>
        ensures { OnOk result (self.new ≡ grown self.old ((instr, false) ∷ [])) }
    {
        self.instrs.push(instr)
    }

    /// Adds the flush of a cache line.
    fn add_line_flush(&mut self, alloc: Global, addr: &Operand) -> Result<(), NoMemory>
        ensures { OnOk result (self.new ≡ grown self.old ((spec.line_flush addr.now, true) ∷ [])) }
    {
        self.instrs.push(line_flush(alloc, addr)?)?;
        self.needed.clwb = true;
        Ok(())
    }

    /// Adds the flush of the bytes of a scalar.
    fn add_range_flush(&mut self, alloc: Global, addr: &Operand, ty: Scalar) -> Result<(), NoMemory>
        ensures { OnOk result (self.new ≡ grown self.old
            ((spec.range_flush addr.now (scalar_size ty), true) ∷ [])) }
    {
        self.instrs.push(range_flush(alloc, addr, ty)?)?;
        self.needed.pmem_flush = true;
        Ok(())
    }

    /// Adds the flush of a store.
    fn add_flush(
        &mut self,
        alloc: Global,
        ty: Scalar,
        addr: &Operand,
        align: Option<u64>,
    ) -> Result<(), NoMemory>
        ensures { OnOk result (self.new ≡ grown self.old ((flush_of ty addr.now align, true) ∷ [])) }
    {
        if is_wide(ty, align) {
            self.add_range_flush(alloc, addr, ty)
        } else {
            self.add_line_flush(alloc, addr)
        }
    }

    /// Adds the flush after an instruction, if it is a store that gets one.
    pub fn add_flush_after(
        &mut self,
        alloc: Global,
        instr: &Instr,
        is_wanted: bool,
    ) -> Result<(), NoMemory>
        ensures { OnOk result (self.new ≡ grown self.old (added_flush instr.now is_wanted)) }
    {
        match instr {
            Instr::Store {
                ty,
                addr,
                align,
                ..
            } if is_wanted => { self.add_flush(alloc, *ty, addr, *align) }
            _ => Ok(()),
        }
    }

    /// Adds a fence.
    fn add_fence(&mut self, alloc: Global) -> Result<(), NoMemory>
        ensures { OnOk result (self.new ≡ grown self.old ((the_fence, true) ∷ [])) }
    {
        self.instrs.push(fence(alloc)?)?;
        self.needed.sfence = true;
        Ok(())
    }

    /// Adds a fence, if the repair inserts one.
    pub fn add_fence_after(&mut self, alloc: Global, is_wanted: bool) -> Result<(), NoMemory>
        ensures { OnOk result (self.new ≡ grown self.old (added_fence is_wanted)) }
    {
        if is_wanted {
            return self.add_fence(alloc);
        }
        Ok(())
    }
}
