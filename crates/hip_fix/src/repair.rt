ghost use Rattle.std.specs.Prelude.{◌≡◌, [], ◌∷◌, ◌||◌, ◌&&◌, not, length, slice_get, IfOk, OnOk};
ghost use Rattle.hip_repairs.specs.Repaired as spec;
ghost use Rattle.hip_repairs.specs.Repaired.{clone_functions, clone_in, instrs_of, repaired_body, repaired_functions};
ghost use Rattle.hip_fix.specs.Walk.{grown, marked_blocks, marked_clone, marked_clones, marked_functions, none_made, noted, repaired_at, wanted_in, with_functions};

use crate::body::{NeededExterns, RepairedBody};
use crate::clone_table::CloneTable;
use hip_ir::Structural;
use hip_sites::SiteSet;
use hip_tree::{Block, Function, Instr, Program, Site};
use hip_types::{Name, NoMemory, Row};
use std::alloc::Global;

/// Where a repair inserts, and the names of its clones. Clones flush all stores except those of `skip`.
#[derive(Drop)]
pub struct RepairSites<'a> {
    pub flush_after: SiteSet,
    pub fence_after: SiteSet,
    pub hoist: SiteSet,
    pub skip: SiteSet,
    pub clones: CloneTable<'a>,
}

/// Repaired functions, and the functions that the inserted calls name.
#[derive(Drop)]
pub struct RepairedFunctions {
    pub functions: Row<Function>,
    pub needed: NeededExterns,
}

impl RepairedFunctions {
    /// No functions so far.
    pub fn none(alloc: Global) -> RepairedFunctions
        ensures { result ≡ none_made }
    {
        RepairedFunctions {
            functions: Row::new(alloc),
            needed: NeededExterns::none(),
        }
    }
}

/// A function that is repaired, or whose clone is made.
#[derive(Clone, Copy)]
struct Insertion {
    function: usize,
    is_clone: bool,
}

impl RepairSites<'_> {
    /// A copy of an instruction. With `to_clone` a call names the clone of its callee.
    fn renamed(&self, alloc: Global, instr: &Instr, to_clone: bool) -> Result<Instr, NoMemory>
        ensures { IfOk result (λ i. i ≡ spec.renamed self.now.clones instr.now to_clone) }
    {
        match instr {
            Instr::Call {
                dest,
                ret,
                callee,
                args,
            } if to_clone => Ok(Instr::Call {
                dest: dest.copy(alloc)?,
                ret: *ret,
                callee: Row::from_slice(alloc, self.clones.clone_name(callee.as_slice()))?,
                args: args.copy(alloc)?,
            }),
            _ => instr.copy(alloc),
        }
    }

    /// Whether a call at a site names a clone, in the function of the site or in its clone.
    pub fn names_clone(&self, is_clone: bool, site: Site) -> bool
        ensures { result ≡ (is_clone || (wanted_in self.now).hoist site) }
    {
        is_clone || self.hoist.contains(site)
    }

    /// Whether a store at a site gets a flush, in the function of the site or in its clone.
    pub fn is_flushed(&self, is_clone: bool, site: Site) -> bool
        ensures { result
            ≡ ((wanted_in self.now).flush_after site || (is_clone && not ((wanted_in self.now).skip site))) }
    {
        self.flush_after.contains(site) || is_clone && !self.skip.contains(site)
    }

    /// Whether a fence follows the instruction at a site and its inserted flush.
    pub fn is_fenced(&self, site: Site) -> bool
        ensures { result ≡ ((wanted_in self.now).fence_after site || (wanted_in self.now).hoist site) }
    {
        self.fence_after.contains(site) || self.hoist.contains(site)
    }

    /// Adds a repaired instruction of a function or of its clone, with what is inserted after it.
    pub fn add_repaired(
        &self,
        alloc: Global,
        body: &mut RepairedBody,
        is_clone: bool,
        site: Site,
        instr: &Instr,
    ) -> Result<(), NoMemory>
        ensures { OnOk result (body.new ≡ grown body.old
            (repaired_at self.now.clones (wanted_in self.now) is_clone site instr.now)) }
    {
        let to_clone = self.names_clone(is_clone, site);
        body.add(self.renamed(alloc, instr, to_clone)?)?;
        body.add_flush_after(alloc, instr, self.is_flushed(is_clone, site))?;
        body.add_fence_after(alloc, self.is_fenced(site))
    }

    /// Adds the repaired instructions of a block's body.
    fn add_body(
        &self,
        alloc: Global,
        out: &mut RepairedBody,
        place: Insertion,
        block: usize,
        body: &[Instr],
    ) -> Result<(), NoMemory>
        ensures { OnOk result (out.new ≡ grown out.old
            (repaired_body self.now.clones (wanted_in self.now) place.is_clone place.function block 0 body.now)) }
    {
        'each: for index in 0..body.len() {
            let site = Site {
                function: place.function,
                block,
                index,
            };
            self.add_repaired(alloc, out, place.is_clone, site, &body[index])?;
        }
        Ok(())
    }

    /// The repaired instructions of a block's body.
    fn body(
        &self,
        alloc: Global,
        needed: &mut NeededExterns,
        place: Insertion,
        block: usize,
        body: &[Instr],
    ) -> Result<Row<Instr>, NoMemory>
        ensures instrs { IfOk result (λ instrs. instrs ≡ instrs_of
            (repaired_body self.now.clones (wanted_in self.now) place.is_clone place.function block 0 body.now)) }
        ensures needed { OnOk result (needed.new ≡ noted needed.old
            (repaired_body self.now.clones (wanted_in self.now) place.is_clone place.function block 0 body.now)) }
    {
        let mut out = RepairedBody {
            instrs: Row::new(alloc),
            needed: *needed,
        };
        self.add_body(alloc, &mut out, place, block, body)?;
        *needed = out.needed;
        Ok(out.instrs)
    }

    /// A repaired block.
    fn block(
        &self,
        alloc: Global,
        needed: &mut NeededExterns,
        place: Insertion,
        number: usize,
        block: &Block,
    ) -> Result<Block, NoMemory>
        ensures block { IfOk result (λ b. b
            ≡ spec.repaired_block self.now.clones
            (wanted_in self.now) place.is_clone place.function number block.now) }
        ensures needed { OnOk result (needed.new ≡ noted needed.old
            (repaired_body self.now.clones (wanted_in self.now) place.is_clone place.function number 0
            block.now.body)) }
    {
        Ok(Block {
            label: block.label.copy(alloc)?,
            phis: block.phis.copy(alloc)?,
            body: self.body(alloc, needed, place, number, block.body.as_slice())?,
            end: block.end.copy(alloc)?,
        })
    }

    /// The repaired blocks of a function.
    fn blocks(
        &self,
        alloc: Global,
        needed: &mut NeededExterns,
        place: Insertion,
        blocks: &[Block],
    ) -> Result<Row<Block>, NoMemory>
        ensures blocks { IfOk result (λ bs. bs
            ≡ spec.repaired_blocks self.now.clones (wanted_in self.now) place.is_clone place.function 0 blocks.now) }
        ensures needed { OnOk result (needed.new ≡ noted needed.old
            (marked_blocks self.now.clones (wanted_in self.now) place.is_clone place.function 0 blocks.now)) }
    {
        let mut repaired = Row::from_vec(Vec::with_capacity(alloc, blocks.len())?);
        'each: for number in 0..blocks.len() {
            repaired.push(self.block(alloc, needed, place, number, &blocks[number])?)?;
        }
        Ok(repaired)
    }

    /// Adds a repaired function, or its clone, under a name.
    fn add_function(
        &self,
        alloc: Global,
        made: &mut RepairedFunctions,
        place: Insertion,
        name: &Name,
        function: &Function,
    ) -> Result<(), NoMemory>
        ensures { OnOk result (made.new ≡ with_functions made.old
            (spec.repaired_function self.now.clones (wanted_in self.now) place.is_clone place.function name.now
            function.now ∷ [])
            (marked_blocks self.now.clones (wanted_in self.now) place.is_clone place.function 0 function.now.blocks)) }
    {
        let blocks = function.blocks.as_slice();
        let repaired = Function {
            ret: function.ret,
            name: name.copy(alloc)?,
            params: function.params.copy(alloc)?,
            blocks: self.blocks(alloc, &mut made.needed, place, blocks)?,
        };
        made.functions.push(repaired)
    }

    /// Adds the repaired functions of a program.
    pub fn add_functions(
        &self,
        alloc: Global,
        made: &mut RepairedFunctions,
        functions: &[Function],
    ) -> Result<(), NoMemory>
        ensures { OnOk result (made.new ≡ with_functions made.old
            (repaired_functions self.now.clones (wanted_in self.now) 0 functions.now)
            (marked_functions self.now.clones (wanted_in self.now) 0 functions.now)) }
    {
        'each: for number in 0..functions.len() {
            let place = Insertion {
                function: number,
                is_clone: false,
            };
            let function = &functions[number];
            self.add_function(alloc, made, place, &function.name, function)?;
        }
        Ok(())
    }

    /// Adds the clone of the function of a number, if there is one.
    fn add_clone(
        &self,
        alloc: Global,
        made: &mut RepairedFunctions,
        program: &Program,
        number: usize,
        name: &Name,
    ) -> Result<(), NoMemory>
        ensures { OnOk result (made.new ≡ with_functions made.old
            (clone_in self.now.clones (wanted_in self.now) number name.now (slice_get program.now.functions number))
            (marked_clone self.now.clones (wanted_in self.now) number (slice_get program.now.functions number))) }
    {
        let place = Insertion {
            function: number,
            is_clone: true,
        };
        match program.functions.get(number) {
            Some(function) => self.add_function(alloc, made, place, name, function),
            None => Ok(()),
        }
    }

    /// Adds the clones of the functions of these numbers, under these names.
    pub fn add_clones(
        &self,
        alloc: Global,
        made: &mut RepairedFunctions,
        program: &Program,
        originals: &[usize],
        names: &[Name],
    ) -> Result<(), NoMemory>
        requires { length names.now ≡ length originals.now }
        ensures { OnOk result (made.new ≡ with_functions made.old
            (clone_functions program.now self.now.clones (wanted_in self.now) originals.now names.now)
            (marked_clones program.now self.now.clones (wanted_in self.now) originals.now)) }
    {
        'each: for place in 0..originals.len() {
            self.add_clone(alloc, made, program, originals[place], &names[place])?;
        }
        Ok(())
    }
}
