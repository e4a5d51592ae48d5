// Pages: the row of a tick, and after the last row of a page the line with its number.
ghost use Rattle.std.specs.Prelude.{◌≡◌};
ghost use Rattle.printer.specs.Printer.{pages, next_page, fills};

use crate::{Notes, Printer};
use journal::tick::Run;
use lictor_core::envelope::FuseConfig;
use lictor_core::verdict::SafetyVerdict;
use page_text::{show_page, show_row};

// The rows of a whole page.
const PAGE_ROWS: u8 = 50;

// Where the number of pages stops.
const LAST_PAGE: u64 = 9999999999;

fn next_page(n: u64) -> u64
    ensures { result ≡ next_page n }
{
    if n < LAST_PAGE { n + 1 } else { LAST_PAGE }
}

// Whether one more row fills the page.
fn fills_page(notes: Notes) -> bool
    ensures { result ≡ fills notes }
{
    notes.rows >= PAGE_ROWS - 1
}

// The printer of `pages`.
pub struct Pages;

impl Printer for Pages {
    ghost shows = { pages };

    // The row, and where it fills the page the page's line.
    fn put_tick(
        notes: Notes,
        _pos: &[f64],
        _guard: u32,
        verdict: SafetyVerdict,
        _run: Run,
        out: &mut [u8],
        n: usize,
    ) -> usize {
        let end = show_row(verdict, out, n);
        if fills_page(notes) {
            return show_page(notes.page, out, end);
        }
        end
    }

    fn after_tick(notes: Notes, _pos: &[f64], _guard: u32, _config: FuseConfig) -> Notes {
        if fills_page(notes) {
            return Notes {
                rows: 0,
                page: next_page(notes.page),
                ..notes
            };
        }
        Notes {
            rows: notes.rows + 1,
            ..notes
        }
    }

    fn after_reset(notes: Notes) -> Notes {
        notes
    }

    fn after_width(notes: Notes, _width: f64) -> Notes {
        notes
    }

    // The line of a page that has rows.
    fn put_closing(notes: Notes, out: &mut [u8]) -> usize {
        if notes.rows == 0 {
            return 0;
        }
        show_page(notes.page, out, 0)
    }

    // There is none.
    fn put_end(_run: Run, _out: &mut [u8], n: usize) -> usize {
        n
    }
}
