use crate::comparisons::{same_four, same_three};
use crate::copies::{copy_four, copy_three};
use crate::structural::Structural;
use hip_tree::{Block, Case, Edge, End, Phi};
use hip_types::NoMemory;
use std::alloc::Global;

impl Structural for Edge {
    fn copy(&self, alloc: Global) -> Result<Edge, NoMemory> {
        Ok(Edge {
            value: self.value.copy(alloc)?,
            label: self.label.copy(alloc)?,
        })
    }

    fn same(&self, other: &Edge) -> bool {
        self.value.same(&other.value) && self.label.same(&other.label)
    }
}

impl Structural for Phi {
    fn copy(&self, alloc: Global) -> Result<Phi, NoMemory> {
        Ok(Phi {
            dest: self.dest.copy(alloc)?,
            ty: self.ty,
            edges: self.edges.copy(alloc)?,
        })
    }

    fn same(&self, other: &Phi) -> bool {
        self.dest.same(&other.dest) && self.ty == other.ty && self.edges.same(&other.edges)
    }
}

impl Structural for Case {
    fn copy(&self, alloc: Global) -> Result<Case, NoMemory> {
        Ok(Case {
            value: self.value,
            label: self.label.copy(alloc)?,
        })
    }

    fn same(&self, other: &Case) -> bool {
        self.value.same(&other.value) && self.label.same(&other.label)
    }
}

impl Structural for End {
    fn copy(&self, alloc: Global) -> Result<End, NoMemory> {
        match self {
            End::Br { label } => Ok(End::Br {
                label: label.copy(alloc)?,
            }),
            End::CondBr { cond, yes, no } => {
                let (cond, yes, no) = copy_three(alloc, cond, yes, no)?;
                Ok(End::CondBr { cond, yes, no })
            }
            End::Switch {
                width,
                value,
                other,
                cases,
            } => {
                let (value, other, cases) = copy_three(alloc, value, other, cases)?;
                Ok(End::Switch {
                    width: *width,
                    value,
                    other,
                    cases,
                })
            }
            End::Ret(arg) => Ok(End::Ret(arg.copy(alloc)?)),
            End::Unreachable => Ok(End::Unreachable),
        }
    }

    fn same(&self, other: &End) -> bool {
        match (self, other) {
            (End::Br { label }, End::Br { label: to }) => label.same(to),
            (
                End::CondBr { cond, yes, no },
                End::CondBr {
                    cond: test,
                    yes: left,
                    no: right,
                },
            ) => same_three((cond, test), (yes, left), (no, right)),
            (
                End::Switch {
                    width,
                    value,
                    other: rest,
                    cases,
                },
                End::Switch {
                    width: wide,
                    value: x,
                    other: last,
                    cases: arms,
                },
            ) => same_four((width, wide), (value, x), (rest, last), (cases, arms)),
            (End::Ret(arg), End::Ret(with)) => arg.same(with),
            (End::Unreachable, End::Unreachable) => true,
            _ => false,
        }
    }
}

impl Structural for Block {
    fn copy(&self, alloc: Global) -> Result<Block, NoMemory> {
        let (label, phis, body, end) = copy_four(
            alloc,
            &self.label,
            &self.phis,
            &self.body,
            &self.end,
        )?;
        Ok(Block {
            label,
            phis,
            body,
            end,
        })
    }

    fn same(&self, other: &Block) -> bool {
        self.label.same(&other.label)
            && self.phis.same(&other.phis)
            && self.body.same(&other.body)
            && self.end.same(&other.end)
    }
}
