// The edges of the longer sides of all rival pairs, counted without a list of pairs. A side has an edge from each last read of a
// source to the other source, but none from that to itself: so a pair's longer side is about as long as the longer list of last
// reads, and the few pairs in which one source is a last read of the other are mended afterwards.
ghost use Rattle.std.specs.Prelude.{◌≡◌, ◌+◌, ◌^◌, ◌<◌, ◌≤◌, ◌&&◌, length, slice_index, Contains};
ghost use Rattle.std.specs.List.{sum_by};
ghost use Rattle.replay_model.specs.WellFormed.{IsWellFormed};
ghost use Rattle.constraints.specs.Constraints.{sources_of, last_reads_from, last_reads_of, longer_sides, pairs_at, side_edges_of};
ghost use Rattle.constraints.specs.SideEdges.{pair_count, sum_pairs, has, count_up_to, more_reads, shortens, shortening};

use crate::problem::Problem;

// How many pairs so many sources make.
fn pair_count(sources: u64) -> u64
    requires { sources < 2 ^ 20 }
    ensures value { result ≡ pair_count sources }
    ensures small { result < 2 ^ 39 }
{
    sources * sources.saturating_sub(1) / 2
}

// How many of the word's sources have at most so many last reads.
fn count_up_to(problem: &Problem, word: u16, most: usize) -> u64
    requires rules { IsWellFormed problem.now }
    requires word { word < length problem.now.last_tags }
    ensures { result ≡ count_up_to (last_reads_from problem.now word) (sources_of problem.now word) most }
{
    let mut count: u64 = 0;
    for i in 0..problem.sources(word).len() {
        if problem.lasts(word, i as u32).len() <= most {
            count += 1;
        }
    }
    count
}

// The last reads of that source of each pair of the word that has more of them, in number. A source has at most one last read by
// each thread.
fn more_reads(problem: &Problem, word: u16) -> u64
    requires rules { IsWellFormed problem.now }
    requires word { word < length problem.now.last_tags }
    ensures value { result ≡ sum_pairs (more_reads (last_reads_from problem.now word)) (sources_of problem.now word) }
    ensures small { result < 2 ^ 43 }
{
    let all = pair_count(problem.sources(word).len() as u64);
    let mut total: u64 = 0;
    for most in 0..problem.counts().len() {
        total += all - pair_count(count_up_to(problem, word, most));
    }
    total
}

// Whether a source that is a last read of another one takes an edge from the longer side of the two.
fn shortens(reads: &[u32], source: u32, others: &[u32], other: u32) -> bool
    ensures { result ≡ shortens reads.now source others.now other }
{
    others.len() < reads.len()
        || (others.len() == reads.len() && source < other && others.contains(&source))
}

// Whether a last read of the word's i-th source is a source too, and takes an edge from the longer side of the two.
fn is_shortening(problem: &Problem, word: u16, i: u32, last: u32) -> bool
    requires rules { IsWellFormed problem.now }
    requires word { word < length problem.now.last_tags }
    requires source { i < length (sources_of problem.now word) }
    ensures { result ≡ (has (sources_of problem.now word) last &&
        shortens (last_reads_of problem.now word i) (slice_index (sources_of problem.now word) i) (last_reads_from problem.now word last) last) }
{
    let sources = problem.sources(word);
    match sources.binary_search(&last) {
        Ok(place) => shortens(
            problem.lasts(word, i),
            sources[i as usize],
            problem.lasts(word, place as u32),
            last,
        ),
        Err(_) => false,
    }
}

// How many of the last reads of the word's i-th source are so.
fn shortening(problem: &Problem, word: u16, i: u32) -> u64
    requires rules { IsWellFormed problem.now }
    requires word { word < length problem.now.last_tags }
    requires source { i < length (sources_of problem.now word) }
    ensures value { result ≡ shortening (last_reads_from problem.now word) (sources_of problem.now word) (slice_index (sources_of problem.now word) i) }
    ensures few { result ≤ 15 }
{
    let reads = problem.lasts(word, i);
    let mut count: u64 = 0;
    for last in reads {
        if is_shortening(problem, word, i, *last) {
            count += 1;
        }
    }
    count
}

// The same of all sources of the word.
fn all_shortening(problem: &Problem, word: u16) -> u64
    requires rules { IsWellFormed problem.now }
    requires word { word < length problem.now.last_tags }
    ensures { result ≡ sum_by (shortening (last_reads_from problem.now word) (sources_of problem.now word)) (sources_of problem.now word) }
{
    let mut total: u64 = 0;
    for i in 0..problem.sources(word).len() {
        total += shortening(problem, word, i as u32);
    }
    total
}

// The number of edges of the longer side of each of the word's pairs, summed over all of them.
fn side_edges_at(problem: &Problem, word: u16) -> u64
    requires rules { IsWellFormed problem.now }
    requires word { word < length problem.now.last_tags }
    ensures value { result ≡ longer_sides (pairs_at problem.now word) }
    ensures small { result < 2 ^ 43 }
{
    more_reads(problem, word) - all_shortening(problem, word)
}

impl Problem {
    /// The number of edges of the longer side of each rival pair, summed over all pairs. No pair is looked at by itself.
    pub fn side_edges(&self) -> u64
        ensures { result ≡ side_edges_of self.now }
    {
        let _events = self.events();
        let mut total: u64 = 0;
        for word in 0..self.words() {
            total += side_edges_at(self, word);
        }
        total
    }
}
