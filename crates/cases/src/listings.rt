// The calls that search, with and without the reduction of what is found.
ghost use Rattle.std.specs.Prelude.{◌≡◌, ◌≤◌, option_map, replicate};
ghost use Rattle.cases.specs.Arguments.{resources_in};

use crate::arguments::{room_at, settings_in};
use crate::rewrites::kept_line;
use assurance::{BothListings, list_twice};
use case_notation::fields::rest;
use case_notation::numbers::argument;
use case_output::{LIST_FILL, answer_line, words_line};
use discovery::discover;
use discovery_spec::Run;
use limits::Refusal;
use listing::{Listing, list_places};
use std::io;
use std::io::Write;

// The words of a cache, of the list of a search, and of the lists of a listing.
const CACHE_WORDS: usize = 640;

const SEARCH_WORDS: usize = 2240;

const LIST_WORDS: usize = 320;

// What a cache is filled with: a word that would rule every candidate if it were read.
const CACHE_FILL: u64 = 0x3FFFF0000;

fn run_line<W: Write>(out: &mut W, run: Run) -> io::Result<()> {
    let end = run.end.number();
    writeln!(
        out,
        "  end {end} found {} rejected {} replays {} visits {}",
        run.found, run.rejected, run.replays, run.visits
    )
}

// The answer and the buffers of a search.
fn search_lines<W: Write>(
    out: &mut W,
    answer: Result<Run, Refusal>,
    rejected: &[u64; CACHE_WORDS],
    found: &[u32; SEARCH_WORDS],
) -> io::Result<()> {
    answer_line(out, answer, run_line)?;
    words_line(out, "list", found)?;
    words_line(out, "cache", rejected)
}

// search A mi mo T cache list budget text
pub fn search<W: Write>(out: &mut W, line: &[u8], text: &[u8]) -> Option<io::Result<()>> {
    let settings = settings_in(line)?;
    let cache = room_at(line, 5, CACHE_WORDS)?;
    let list = room_at(line, 6, SEARCH_WORDS)?;
    let budget = argument(line, 7)?;
    let mut rejected = [CACHE_FILL; CACHE_WORDS];
    let mut found = [LIST_FILL; SEARCH_WORDS];
    let answer = discover(
        settings,
        text,
        budget,
        &mut rejected[..cache],
        &mut found[..list],
    );
    Some(search_lines(out, answer, &rejected, &found))
}

// What a listing is lent: how much of each buffer, and its budget.
#[derive(Drop)]
struct Resources {
    cache: usize,
    list: usize,
    reduced: usize,
    budget: u32,
    ghost within: { (cache ≤ 640) × (list ≤ 320) × (reduced ≤ 320) },
}

impl Resources {
    // What four words say.
    fn read(words: &[u8]) -> Option<Self>
        ensures { option_map (λ r. (r.cache, r.list, r.reduced, r.budget)) result
            ≡ resources_in words.now }
    {
        Some(Resources {
            cache: room_at(words, 0, CACHE_WORDS)?,
            list: room_at(words, 1, LIST_WORDS)?,
            reduced: room_at(words, 2, LIST_WORDS)?,
            budget: argument(words, 3)?,
        })
    }
}

// The buffers of a listing.
#[derive(Drop)]
struct Buffers {
    rejected: [u64; CACHE_WORDS],
    found: [u32; LIST_WORDS],
    kept: [u32; LIST_WORDS],
}

impl Buffers {
    // All of them as they are filled before a call.
    fn new() -> Self
        ensures rejected { result.rejected ≡ replicate CACHE_WORDS CACHE_FILL }
        ensures found { result.found ≡ replicate LIST_WORDS LIST_FILL }
        ensures kept { result.kept ≡ replicate LIST_WORDS LIST_FILL }
    {
        Buffers {
            rejected: [CACHE_FILL; CACHE_WORDS],
            found: [LIST_FILL; LIST_WORDS],
            kept: [LIST_FILL; LIST_WORDS],
        }
    }
}

fn listing_line<W: Write>(out: &mut W, listing: Listing) -> io::Result<()> {
    match listing {
        Listing::Incomplete(run) => run_line(out, run),
        Listing::Complete { run, reduced } => {
            run_line(out, run)?;
            answer_line(out, reduced, kept_line)
        }
    }
}

// The answer and the buffers of one listing.
fn listing_lines<W: Write>(
    out: &mut W,
    answer: Result<Listing, Refusal>,
    buffers: &Buffers,
) -> io::Result<()> {
    answer_line(out, answer, listing_line)?;
    words_line(out, "list", &buffers.found)?;
    words_line(out, "cache", &buffers.rejected)?;
    words_line(out, "reduced", &buffers.kept)
}

// list A mi mo T cache list reduced budget text
pub fn list<W: Write>(out: &mut W, line: &[u8], text: &[u8]) -> Option<io::Result<()>> {
    let settings = settings_in(line)?;
    let resources = Resources::read(rest(line, 5))?;
    let mut buffers = Buffers::new();
    let answer = list_places(
        settings,
        text,
        resources.budget,
        &mut buffers.rejected[..resources.cache],
        &mut buffers.found[..resources.list],
        &mut buffers.kept[..resources.reduced],
    );
    Some(listing_lines(out, answer, &buffers))
}

// The answers and the buffers of two listings.
fn both_lines<W: Write>(
    out: &mut W,
    both: BothListings,
    first: &Buffers,
    second: &Buffers,
) -> io::Result<()> {
    listing_lines(out, both.first, first)?;
    listing_lines(out, both.second, second)
}

// twice A mi mo T cache list reduced budget cache list reduced budget text
pub fn twice<W: Write>(out: &mut W, line: &[u8], text: &[u8]) -> Option<io::Result<()>> {
    let settings = settings_in(line)?;
    let resources1 = Resources::read(rest(line, 5))?;
    let resources2 = Resources::read(rest(line, 9))?;
    let mut first = Buffers::new();
    let mut second = Buffers::new();
    let both = list_twice(
        settings,
        text,
        resources1.budget,
        &mut first.rejected[..resources1.cache],
        &mut first.found[..resources1.list],
        &mut first.kept[..resources1.reduced],
        resources2.budget,
        &mut second.rejected[..resources2.cache],
        &mut second.found[..resources2.list],
        &mut second.kept[..resources2.reduced],
    );
    Some(both_lines(out, both, &first, &second))
}
