use crate::block::Block;
use crate::constant::Const;
use hip_types::{Name, Row, Scalar, Ty};

/// A global variable.
pub struct GlobalVar {
    pub name: Name,
    /// Whether it is a `constant`.
    pub fixed: bool,
    pub ty: Ty,
    /// Its initial value.
    pub init: Const,
    /// Whether it lies in persistent memory, as `section ".pm"` says.
    pub persistent: bool,
    /// The alignment that is written, in bytes.
    pub align: Option<u64>,
}

impl Drop for GlobalVar {
    fn drop(self) {
        let GlobalVar {
            name: _,
            fixed: _,
            ty: _,
            init: _,
            persistent: _,
            align: _,
        } = self;
    }
}

/// A declaration of an external function.
#[derive(Drop)]
pub struct Extern {
    /// The type of its result; none for `void`.
    pub ret: Option<Scalar>,
    pub name: Name,
    pub params: Row<Scalar>,
}

/// A parameter of a function.
#[derive(Drop)]
pub struct Param {
    pub ty: Scalar,
    pub name: Name,
}

/// A function with its basic blocks.
pub struct Function {
    /// The type of its result; none for `void`.
    pub ret: Option<Scalar>,
    pub name: Name,
    pub params: Row<Param>,
    /// The first one is the entry block.
    pub blocks: Row<Block>,
}

impl Drop for Function {
    fn drop(self) {
        let Function {
            ret: _,
            name: _,
            params: _,
            blocks: _,
        } = self;
    }
}

/// A program: its globals, declared functions and functions, each in the order of the text.
pub struct Program {
    pub globals: Row<GlobalVar>,
    pub externs: Row<Extern>,
    pub functions: Row<Function>,
}

// This is written by hand, so that the drop of a whole tree is proved once here, and not again in each crate that drops
// a program.
impl Drop for Program {
    fn drop(self) {
        let Program {
            globals: _,
            externs: _,
            functions: _,
        } = self;
    }
}
