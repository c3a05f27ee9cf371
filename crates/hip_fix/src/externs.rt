ghost use Rattle.std.specs.Prelude.{◌≡◌, ◌++◌, [], ◌&&◌, map, None, IfOk, OnOk};
ghost use Rattle.hip_names.specs.Names.{is_among};
ghost use Rattle.hip_repairs.specs.Repaired.{declared_if};
ghost use Rattle.hip_fix.specs.Walk.{added};

use crate::body::NeededExterns;
use hip_ir::Structural;
use hip_tree::Extern;
use hip_types::{NoMemory, Row, Scalar, Width};
use std::alloc::Global;

/// Whether one of the declarations has the name.
fn declares(externs: &[Extern], name: &[u8]) -> bool
    ensures { result ≡ is_among (map (λ e. e.name) externs.now) name.now }
{
    'each: for external in externs {
        if name == external.name.as_slice() {
            return true;
        }
    }
    false
}

/// Adds the declaration of a function without a result, if inserted calls need it and the program has none.
fn declare(
    alloc: Global,
    externs: &mut Row<Extern>,
    declared: &[Extern],
    is_wanted: bool,
    name: &[u8],
    params: &[Scalar],
) -> Result<(), NoMemory>
    ensures { OnOk result (externs.new ≡ externs.old ++ declared_if is_wanted declared.now name.now params.now) }
{
    if is_wanted && !declares(declared, name) {
        return externs.push(Extern {
            ret: None,
            name: Row::from_slice(alloc, name)?,
            params: Row::from_slice(alloc, params)?,
        });
    }
    Ok(())
}

/// The declarations of a program, and after them those that inserted calls need and the program lacks.
pub fn declarations(
    alloc: Global,
    declared: &Row<Extern>,
    needed: NeededExterns,
) -> Result<Row<Extern>, NoMemory>
    ensures { IfOk result (λ externs. externs ≡ declared.now ++ added declared.now needed) }
{
    let mut externs = declared.copy(alloc)?;
    let old = declared.as_slice();
    let number = Scalar::Int(Width::W64);
    declare(
        alloc,
        &mut externs,
        old,
        needed.clwb,
        b"llvm.x86.clwb",
        &[Scalar::Ptr],
    )?;
    declare(
        alloc,
        &mut externs,
        old,
        needed.sfence,
        b"llvm.x86.sse.sfence",
        &[],
    )?;
    declare(
        alloc,
        &mut externs,
        old,
        needed.pmem_flush,
        b"pmem_flush",
        &[Scalar::Ptr, number],
    )?;
    Ok(externs)
}
