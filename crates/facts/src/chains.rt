// Chains of pointers (specification, 'Reading a message'): where each ends is noted once of a long message that was read, so that a name is followed in as many
// steps as it has labels, and a section of it is walked without a pointer followed. A table without entries notes nothing, and says nothing of the message.
ghost use Rattle.std.specs.Prelude.{◌≡◌, true, ℕ, ◌<◌, ◌≤◌, length};
ghost use Rattle.wire.specs.names.Answers.{name_is, Chased, or_later};
ghost use Rattle.wire.specs.message.Layout.{question_at, record_at};
ghost use Rattle.facts.specs.Found.{QuestionStep, RecordStep};
ghost use Rattle.facts.specs.chains.Chains.{end_of, Ends, Stands, WholeLayout};

use wire::message::{Layout, QuestionAt, RecordAt, Section};
use wire::name_pieces::Piece;
use wire::names::Span;

// Where the chain of pointers that begins at an offset ends, as far as it is noted.
// 0 where nothing is noted: an Option in each of the 8,972 entries takes twice the memory, which is fixed.
#[tactic(auto, unfolding(crate::specs::chains::Chains::end_of))]
fn end_of(ends: &[u16], target: usize) -> usize
    ensures { result ≡ end_of ends.now target }
{
    if ends.len() <= target || ends[target] == 0 {
        return target;
    }
    ends[target] as usize
}

// What is to be noted of an offset: where the chain that goes on at its pointer's target ends, and 0 where no pointer stands.
// A number, and no Option: an Option in each entry would double the table, and memory is fixed.
fn end_from(p: &[u8], ends: &[u16], at: usize) -> u16
    requires p_len_bound { (length p.now ≤ 8972) × (at < length p.now) }
    requires ends { Ends p.now ends.now }
    ensures { (used : ℕ) → Chased p.now used at (or_later result at) }
{
    if p[at] < 192 {
        return 0;
    }
    match wire::name_pieces::piece_at(p, at, at, 0) {
        Piece::Pointer(target) => end_of(ends, target) as u16,
        Piece::Root | Piece::Label(_) | Piece::Bad => 0,
    }
}

// Notes where the chains of pointers of a packet end. A target stands before its pointer, and so is noted before it.
pub(crate) fn note_ends(p: &[u8], ends: &mut [u16; 8972])
    requires p_len_bound { (length p.now ≤ 8972) × (length ends.old ≡ 8972) }
    requires ends { Ends p.now ends.old }
    ensures { (length ends.new ≡ 8972) × Ends p.now ends.new }
{
    for at in 0..p.len() {
        ends[at] = end_from(p, ends, at);
    }
}

// Whether the name at an offset equals an uncompressed one, ASCII letters folded, as `wire::names::name_is` answers it.
pub(crate) fn name_by(p: &[u8], ends: &[u16], at: usize, other: &[u8]) -> bool
    requires { Ends p.now ends.now }
    ensures { result ≡ name_is p.now at other.now }
{
    let mut start = at;
    let mut here = at;
    let mut used = 0;
    // piece by piece: a pointer leads elsewhere, so that no `for` fits
    loop {
        match wire::name_pieces::piece_at(p, start, here, used) {
            Piece::Root => {
                let end = here + 1;
                return wire::case_folding::same_name(&p[here..end], &other[used..]);
            }
            Piece::Label(n) => {
                let next = here + 1 + n;
                let total = used + 1 + n;
                if other.len() < total {
                    return false;
                }
                if !wire::case_folding::same_name(&p[here..next], &other[used..total]) {
                    return false;
                }
                here = next;
                used = total;
            }
            Piece::Pointer(target) => {
                let run = end_of(ends, target);
                start = run;
                here = run;
            }
            Piece::Bad => {
                return false;
            }
        }
    }
}

// The question at an offset; where the message was read, without its name followed.
pub(crate) fn question_step(p: &[u8], ends: &[u16], at: usize) -> Option<QuestionAt>
    requires { 0 < length ends.now → Stands (question_at p.now) at }
    ensures { QuestionStep p.now at result }
{
    if ends.len() == 0 {
        return wire::message::question_at(p, at);
    }
    let end = crate::past_labels(p, at);
    Some(QuestionAt {
        name: at,
        span: Span {
            end,
            len: 0,
            labels: 0,
            first: 0,
        },
        rtype: wire::octets::be16(p, end),
        class: wire::octets::be16(p, end + 2),
        next: end + 4,
    })
}

// The record at an offset, if its rdata is as its type asks; where the message was read, without its names followed.
pub(crate) fn record_step(p: &[u8], ends: &[u16], at: usize) -> Option<RecordAt>
    requires { 0 < length ends.now → Stands (record_at p.now) at }
    ensures { RecordStep p.now at result }
{
    if ends.len() == 0 {
        return wire::message::whole_record(p, at);
    }
    let end = crate::past_labels(p, at);
    let rdlength = wire::octets::be16(p, end + 8) as usize;
    Some(RecordAt {
        owner: at,
        span: Span {
            end,
            len: 0,
            labels: 0,
            first: 0,
        },
        rtype: wire::octets::be16(p, end),
        class: wire::octets::be16(p, end + 2),
        ttl: wire::message::counted_ttl(wire::octets::be32(p, end + 4)),
        rdata: end + 10,
        rdlength,
        next: end + 10 + rdlength,
    })
}

// Whether two sections are the same part of a message.
fn same_section(a: Section, b: Section) -> bool
    ensures { result ≡ true → a ≡ b }
{
    a.at == b.at && a.count == b.count
}

// Whether the sections of a layout are those of the message that is read in a packet.
pub(crate) fn is_read(p: &[u8], l: Layout) -> bool
    ensures { result ≡ true → WholeLayout p.now l }
{
    if wire::message::MOST_MESSAGE < p.len() {
        return false;
    }
    let Ok(m) = wire::long_message::read_long(p) else {
        return false;
    };
    same_section(l.questions, m.questions)
        && same_section(l.answers, m.answers)
        && same_section(l.authorities, m.authorities)
        && same_section(l.additionals, m.additionals)
}
