// What the search works on.
ghost use Rattle.std.specs.Prelude.{◌≡◌, ℕ, ◌+◌, ◌<◌, length, slice_index};
ghost use Rattle.order_solver.specs.Rivals.{Rivalry, source_at, IsNextRival};

use plain_search::Edge;

/// Nodes of threads with edges that have to hold, and for each word its sources. Some of these are rivals: one of the two comes
/// first, and its last reads do too. Of two that are none nothing is asked.
pub trait Rivals {
    ghost rivalry: { Self → Rivalry };

    /// The number of nodes of each thread. Nodes are numbered from 0, thread after thread.
    fn counts(&self) -> &[u32]
        ensures { result.now ≡ (rivalry self.now).counts };

    /// The edges that have to hold, beside those from each node to the next one of its thread.
    fn base(&self) -> &[Edge]
        ensures { result.now ≡ (rivalry self.now).base };

    /// The number of words.
    fn words(&self) -> u16
        ensures { result ≡ (rivalry self.now).words };

    /// The nodes that are sources of the word, those of each thread together.
    fn sources(&self, word: u16) -> &[u32]
        requires { word < (rivalry self.now).words }
        ensures { result.now ≡ (rivalry self.now).sources word };

    /// The last reads of the word's source at this place.
    fn last_reads(&self, word: u16, source: u32) -> &[u32]
        requires word { word < (rivalry self.now).words }
        requires source { source < length ((rivalry self.now).sources word) }
        ensures { result.now ≡ (rivalry self.now).last_reads word (source_at (rivalry self.now) word source) };

    /// Where the sources of one thread begin and end among those of the word.
    fn group(&self, word: u16, thread: u8) -> (u32, u32)
        requires word { word < (rivalry self.now).words }
        requires thread { thread < length (rivalry self.now).counts }
        ensures start { result.0 ≡ (rivalry self.now).start word thread }
        ensures end { result.1 ≡ (rivalry self.now).start word (thread + 1) };

    /// The place of the word's first source from this place on that is a rival of the one at the other place; past all sources
    /// where none is left.
    fn next_rival(&self, word: u16, source: u32, from: u32) -> u32
        requires word { word < (rivalry self.now).words }
        requires source { source < length ((rivalry self.now).sources word) }
        requires later { source < from }
        ensures { IsNextRival (rivalry self.now) word source from result };
}
