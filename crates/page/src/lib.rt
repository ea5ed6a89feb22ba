// The shared page of a control ring: where its counts and its two areas stand, and the counts themselves. One end writes an area and
// the other end reads it; the functions are for both, with the places of the counts as parameters.
#![tactic(auto)]

ghost use Rattle.std.specs.Prelude.{◌≡◌};
ghost use Rattle.page.specs.Refusals.{page_refusal_number};

mod counts;

pub use counts::{unread_by_other, unread_here, write_counts};

// The numbers of the refusals of a page.
const PAGE_WRONG: u32 = 3;

const REQUESTS_WRONG: u32 = 4;

const RESPONSES_WRONG: u32 = 5;

// Octets of the page, and of each area. A page is a slice, and its length stands in the clauses: a slice turned into an array by
// `try_from` was tried, and what is then written to the array is not known of the slice; by `first_chunk_mut` an arm is never reached.
pub const PAGE: usize = 4096;

pub const AREA: u32 = 1024;

// Where the counts and the areas stand.
pub const REQ_CONS: usize = 0;

pub const REQ_PROD: usize = 4;

pub const RSP_CONS: usize = 8;

pub const RSP_PROD: usize = 12;

pub const REQUESTS: usize = 16;

pub const RESPONSES: usize = 1040;

// Why a page is refused, at either end.
#[derive(Clone, Copy, Debug, PartialEq, Eq)]
pub enum PageRefusal {
    // The page is not 4,096 octets.
    PageLength,
    // The count of req_prod is more than 1,024 ahead of that of req_cons.
    RequestCount,
    // The count of rsp_prod is more than 1,024 ahead of that of rsp_cons.
    ResponseCount,
}

// The number of each refusal.
impl From<PageRefusal> for u32 {
    ghost from_gives = { λ e n. n ≡ page_refusal_number e };

    fn from(refusal: PageRefusal) -> u32 {
        match refusal {
            PageRefusal::PageLength => PAGE_WRONG,
            PageRefusal::RequestCount => REQUESTS_WRONG,
            PageRefusal::ResponseCount => RESPONSES_WRONG,
        }
    }
}
