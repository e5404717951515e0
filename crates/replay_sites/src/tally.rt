// How far the replay is.
use lines::input::Line;
use lines::one_if_not;

// The first site is asked in the order of the functions' numbers, so a number above all before is a new function.
#[derive(Clone, Copy, Default)]
pub struct Tally {
    pub lines: u64,
    pub functions: u64,
    pub top: u64,
    pub sites: u64,
    pub differ: u64,
}

// What was counted before a line, and that line; none at the end of the input.
#[derive(Clone, Copy)]
pub struct Place {
    pub tally: Tally,
    pub line: Option<Line>,
}

// t with a line of the function f.
pub(crate) fn counted(t: Tally, f: u64, ok: bool) -> Tally {
    Tally {
        lines: t.lines.wrapping_add(1),
        functions: t.functions.wrapping_add(u64::from(t.top < f)),
        top: t.top.max(f),
        differ: t.differ.wrapping_add(one_if_not(ok)),
        ..t
    }
}

// t with a site more.
pub(crate) fn with_site(t: Tally) -> Tally {
    Tally {
        sites: t.sites.wrapping_add(1),
        ..t
    }
}
