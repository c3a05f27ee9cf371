//! The keys of pages.

ghost use Rattle.std.specs.Prelude.{◌≡◌, ◌<◌, ◌^◌};
ghost use Rattle.hip_mem.specs.PageTable.{key_of};

use crate::PAGE_SIZE;
use hip_types::{
    LARGEST_REGION, LARGEST_VOLATILE, LOWEST_BASE, STACK_SIZE, STACK_START, VOLATILE_START,
};

/// The number of the stack's first page.
pub const STACK_PAGE: u64 = STACK_START / PAGE_SIZE;

/// How many pages the stack may have.
pub const STACK_PAGES: u64 = STACK_SIZE / PAGE_SIZE;

/// The number of the first page of the volatile globals.
pub const VOLATILE_PAGE: u64 = VOLATILE_START / PAGE_SIZE;

/// How many pages the volatile globals may have.
pub const VOLATILE_PAGES: u64 = LARGEST_VOLATILE / PAGE_SIZE;

/// How many pages the region may have.
pub const REGION_PAGES: u64 = LARGEST_REGION / PAGE_SIZE;

/// The least number that the region's first page may have.
pub const LOWEST_REGION_PAGE: u64 = LOWEST_BASE / PAGE_SIZE;

/// The key of a page, if the region begins with page `region`. Pages of the three areas have small keys.
#[inline(always)]
#[tactic(auto, unfolding(crate::specs::PageTable::key_of))]
pub fn key_of(region: u64, number: u64) -> u64
    requires { number < 2 ^ 63 }
    ensures { result ≡ key_of region number }
{
    if number >= STACK_PAGE && number - STACK_PAGE < STACK_PAGES {
        return number - STACK_PAGE;
    }
    if number >= VOLATILE_PAGE && number - VOLATILE_PAGE < VOLATILE_PAGES {
        return number - VOLATILE_PAGE + STACK_PAGES;
    }
    if number >= region && number - region < REGION_PAGES {
        return number - region + (STACK_PAGES + VOLATILE_PAGES);
    }
    number + (STACK_PAGES + VOLATILE_PAGES + REGION_PAGES)
}
