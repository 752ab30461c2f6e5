// The tests that both calls of the cache make first, and what a lookup answers (specification, 'The cache').
ghost use Rattle.std.specs.Prelude.{◌≡◌, length};
ghost use Rattle.cache.specs.entries.Cache.{is_size, is_store_of};
ghost use Rattle.cache.specs.lookup.Answers.{met_at, looked_refusal};

// The latest time: 2^62 ms.
pub const LATEST: u64 = 4611686018427387904;

// The most entries of a table, and the bytes of a slot.
pub const MOST_ENTRIES: usize = 512;

pub const SLOT: usize = 1024;

// What a lookup found: a slot, and of the name how many labels it has and how long the first is; the same holds of the owner in the slot.
#[derive(Clone, Copy)]
pub struct Met {
    pub slot: usize,
    pub labels: usize,
    pub first: usize,
}

// What a lookup answers. A refusal carries the specification's number.
#[derive(Clone, Copy)]
pub enum Looked {
    Refused(u8),
    Found(Met),
    Nothing,
}

// Whether a table may have n entries.
pub fn is_size(n: usize) -> bool
    ensures { result ≡ is_size n }
{
    1 <= n && n <= MOST_ENTRIES
}

// Whether a store of so many bytes is that of a table of n entries. The size is tested before it is multiplied.
pub fn is_store_of(n: usize, bytes: usize) -> bool
    ensures { result ≡ is_store_of n bytes }
{
    is_size(n) && bytes == SLOT * n
}

// The number of a lookup's refusal, or 0, where `entries` is that of its table of n entries.
pub fn look_refusal(entries: u8, n: usize, store: &[u8], name: &[u8]) -> u8
    ensures { result ≡ looked_refusal entries n store.now name.now }
{
    if entries != 0 {
        return entries;
    }
    if !is_store_of(n, store.len()) {
        return wire::refusals::TABLE;
    }
    if !wire::names::is_name(name) {
        return wire::refusals::MALFORMED;
    }
    0
}

// A slot that was found for a name.
pub fn met_at(slot: usize, name: &[u8]) -> Met
    ensures { result ≡ met_at name.now slot }
{
    let span = wire::names::plain_span(name);
    Met {
        slot,
        labels: span.labels,
        first: span.first,
    }
}
