//! Base types: lists, boxes, widths of numbers, types and their layout, fixed limits and addresses; picks of crash
//! images, and why a pick is refused.
#![tactic(auto)]

mod areas;
mod layout;
mod limits;
mod link;
mod memory;
mod number;
mod pick;
mod pick_limits;
mod row;
mod text;
mod ty;

pub use areas::{LINE_SIZE, STACK_END, STACK_SIZE, STACK_START, VOLATILE_START};
pub use layout::{align, field_offset, fits, gep_offset, size};
pub use limits::{
    BASE_ALIGNMENT, DEEPEST_NESTING, HIGHEST_BASE, LARGEST_ALIGNMENT, LARGEST_COUNT,
    LARGEST_REGION, LARGEST_TYPE, LARGEST_VOLATILE, LOWEST_BASE,
};
pub use link::Link;
pub use memory::NoMemory;
pub use number::{BinaryOp, Bits, CastOp, Pred, Scalar, Width};
pub use pick::{Bounds, Pick, PickRefusal};
pub use pick_limits::MOST_PICKS;
pub use row::{Name, Row};
pub use text::Text;
pub use ty::{Ty, copy_ty, same_ty};
