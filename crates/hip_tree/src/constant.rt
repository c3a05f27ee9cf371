use hip_types::{Bits, Link, Name, Row, Ty};

/// A constant. The type before it decides which forms it may have.
#[cycle(constant)]
#[derive(Drop)]
pub enum Const {
    Int(Bits),
    /// The pointer `null`.
    Null,
    /// `zeroinitializer`, under any type.
    Zero,
    /// The address of a global.
    Address(Name),
    Gep(Link<ConstGep>),
    Array(Row<TypedConst>),
    Struct(Row<TypedConst>),
}

/// A constant `getelementptr`: the address of an element.
#[cycle(constant)]
#[derive(Drop)]
pub struct ConstGep {
    pub inbounds: bool,
    pub ty: Ty,
    pub base: Const,
    pub indices: Row<Bits>,
}

/// A member of an aggregate constant.
#[cycle(constant)]
#[derive(Drop)]
pub struct TypedConst {
    pub ty: Ty,
    pub value: Const,
}
