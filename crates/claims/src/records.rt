// The two claims and the own records (specification, 'Own records' and 'Writing a packet'): of each record its index, type, class, TTL and claim; and sets of
// records. One record more is one line more in each of the functions by cases here, and in each of the definitions of specs/records/Own.
ghost use Rattle.std.specs.Prelude.{◌≡◌, false, ◌&&◌, get_or};
ghost use Rattle.claims.specs.records.Own.{index_of, record_at, own_type, own_class, own_ttl, claim_for, same_claim, present, carries_data, goes_at_once};
ghost use Rattle.claims.specs.records.Own.{first_of, second_of, has, each};
ghost use Rattle.claims.specs.records.Sets.{no_record, only, any_of, at_once, with_data, records_of};

// The two claims: to the instance's name and to the host's.
#[derive(Clone, Copy, PartialEq, Eq)]
pub enum Claim {
    Instance,
    Host,
}

// The own records, in the specification's order; the last two say which types the names of the claims have (NSEC, RFC 6762, section 6.1).
#[derive(Clone, Copy, PartialEq, Eq)]
pub enum Own {
    Ptr,
    Srv,
    Txt,
    A,
    Aaaa,
    InstanceNsec,
    HostNsec,
}

// How many own records there are.
pub const RECORDS: usize = 7;

// The TTLs in seconds: of a record that names the host, and of any other (RFC 6762, section 10).
const HOST_TTL: u32 = 120;

const OTHER_TTL: u32 = 4500;

// The classes on the wire: of a record that others may have too, and, with the cache flush bit, of one that nobody else has.
const SHARED: u16 = 1;

const UNIQUE: u16 = 0x8001;

// A set of own records: whether it has each of them.
// Seven fields, and no array: the definitions has and each are over them.
#[derive(Clone, Copy)]
pub struct Set {
    pub ptr: bool,
    pub srv: bool,
    pub txt: bool,
    pub a: bool,
    pub aaaa: bool,
    pub instancensec: bool,
    pub hostnsec: bool,
}

impl Set {
    // The records of which a test holds.
    pub(crate) fn of<F: Fn(Own) -> bool>(test: F) -> Set
        requires { F.IsAlwaysCallable test }
        ensures { (o : _) → F.post test o (has o result) }
    {
        Set {
            ptr: test(Own::Ptr),
            srv: test(Own::Srv),
            txt: test(Own::Txt),
            a: test(Own::A),
            aaaa: test(Own::Aaaa),
            instancensec: test(Own::InstanceNsec),
            hostnsec: test(Own::HostNsec),
        }
    }
}

// The record of an index; past the end, the first.
pub fn record_at(i: usize) -> Own
    ensures { result ≡ record_at i }
{
    let all = [
        Own::Ptr,
        Own::Srv,
        Own::Txt,
        Own::A,
        Own::Aaaa,
        Own::InstanceNsec,
        Own::HostNsec,
    ];
    if i < RECORDS { all[i] } else { Own::Ptr }
}

// The place of a record in the order of `Own`.
pub fn index_of(o: Own) -> usize
    ensures { result ≡ index_of o }
{
    o as usize
}

pub fn own_type(o: Own) -> u16
    ensures { result ≡ own_type o }
{
    match o {
        Own::Ptr => 12,
        Own::Srv => 33,
        Own::Txt => 16,
        Own::A => 1,
        Own::Aaaa => 28,
        Own::InstanceNsec => 47,
        Own::HostNsec => 47,
    }
}

pub fn own_class(o: Own) -> u16
    ensures { result ≡ own_class o }
{
    match o {
        Own::Ptr => SHARED,
        Own::Srv => UNIQUE,
        Own::Txt => UNIQUE,
        Own::A => UNIQUE,
        Own::Aaaa => UNIQUE,
        Own::InstanceNsec => UNIQUE,
        Own::HostNsec => UNIQUE,
    }
}

pub fn own_ttl(o: Own) -> u32
    ensures { result ≡ own_ttl o }
{
    match o {
        Own::Ptr => OTHER_TTL,
        Own::Srv => HOST_TTL,
        Own::Txt => OTHER_TTL,
        Own::A => HOST_TTL,
        Own::Aaaa => HOST_TTL,
        Own::InstanceNsec => HOST_TTL,
        Own::HostNsec => HOST_TTL,
    }
}

// The claim that the record goes with.
pub fn claim_for(o: Own) -> Claim
    ensures { result ≡ claim_for o }
{
    match o {
        Own::Ptr => Claim::Instance,
        Own::Srv => Claim::Instance,
        Own::Txt => Claim::Instance,
        Own::A => Claim::Host,
        Own::Aaaa => Claim::Host,
        Own::InstanceNsec => Claim::Instance,
        Own::HostNsec => Claim::Host,
    }
}

// Is there such a record? `aaaa` says whether there is an AAAA record.
pub fn is_present(o: Own, aaaa: bool) -> bool
    ensures { result ≡ present o aaaa }
{
    match o {
        Own::Ptr => true,
        Own::Srv => true,
        Own::Txt => true,
        Own::A => true,
        Own::Aaaa => aaaa,
        Own::InstanceNsec => true,
        Own::HostNsec => true,
    }
}

// Does the record carry data? Those that do are announced and probed with, and may conflict; NSEC only says which types a name has.
pub fn carries_data(o: Own) -> bool
    ensures { result ≡ carries_data o }
{
    match o {
        Own::Ptr => true,
        Own::Srv => true,
        Own::Txt => true,
        Own::A => true,
        Own::Aaaa => true,
        Own::InstanceNsec => false,
        Own::HostNsec => false,
    }
}

// Does the record answer a query at once?
pub fn goes_at_once(o: Own) -> bool
    ensures { result ≡ goes_at_once o }
{
    match o {
        Own::Ptr => false,
        Own::Srv => true,
        Own::Txt => true,
        Own::A => true,
        Own::Aaaa => true,
        Own::InstanceNsec => true,
        Own::HostNsec => true,
    }
}

// The two records that carry data under a claim's name, by rising type; the first is always there.
pub fn first_of(claim: Claim) -> Own
    ensures { result ≡ first_of claim }
{
    match claim {
        Claim::Instance => Own::Txt,
        Claim::Host => Own::A,
    }
}

pub fn second_of(claim: Claim) -> Own
    ensures { result ≡ second_of claim }
{
    match claim {
        Claim::Instance => Own::Srv,
        Claim::Host => Own::Aaaa,
    }
}

// Is the record in the set?
pub fn is_in(o: Own, set: Set) -> bool
    ensures { result ≡ has o set }
{
    match o {
        Own::Ptr => set.ptr,
        Own::Srv => set.srv,
        Own::Txt => set.txt,
        Own::A => set.a,
        Own::Aaaa => set.aaaa,
        Own::InstanceNsec => set.instancensec,
        Own::HostNsec => set.hostnsec,
    }
}

// The set of the records whose flag is up, by their indices.
pub fn set_of(flags: [bool; RECORDS]) -> Set
    ensures { result ≡ each (λ o. get_or flags (index_of o) false) }
{
    Set {
        ptr: flags[0],
        srv: flags[1],
        txt: flags[2],
        a: flags[3],
        aaaa: flags[4],
        instancensec: flags[5],
        hostnsec: flags[6],
    }
}

// No record.
pub fn no_record() -> Set
    ensures { result ≡ no_record }
{
    set_of([false; RECORDS])
}

// One record.
pub fn only(o: Own) -> Set
    ensures { result ≡ only o }
{
    Set::of(|p| p == o)
}

// Has a set any record?
pub fn is_any(set: Set) -> bool
    ensures { result ≡ any_of set }
{
    set.ptr || set.srv || set.txt || set.a || set.aaaa || set.instancensec || set.hostnsec
}

// The records of a set that go out at once.
pub fn at_once(set: Set) -> Set
    ensures { result ≡ at_once set }
{
    Set::of(|o| goes_at_once(o) && is_in(o, set))
}

// The records of a set that carry data.
pub fn with_data(set: Set) -> Set
    ensures { result ≡ with_data set }
{
    Set::of(|o| carries_data(o) && is_in(o, set))
}

// The records that are announced for a claim.
pub fn records_of(claim: Claim, aaaa: bool) -> Set
    ensures { result ≡ records_of claim aaaa }
{
    Set::of(|o| claim_for(o) == claim && carries_data(o) && is_present(o, aaaa))
}
