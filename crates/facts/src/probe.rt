// Whether a message is a probe for a name (specification, 'A claim's life', "A probe is .."; RFC 6762, 8.2). How a probe's records stand to the own ones
// is in the module `tiebreak`.
ghost use Rattle.std.specs.Prelude.{◌≡◌};
ghost use Rattle.wire.specs.message.Layout.{question_at, record_at};
ghost use Rattle.wire.specs.Lists.{some};
ghost use Rattle.wire.specs.message.Readable.{readable, message_in};
ghost use Rattle.facts.specs.chains.Chains.{Ends, Whole, Walkable};
ghost use Rattle.facts.specs.probe.Probe.{under, asks_all, is_probe};

use wire::message::{Layout, Section};

// Whether a question of a section asks for all that a name has.
fn some_asks(p: &[u8], ends: &[u16], s: Section, name: &[u8]) -> bool
    requires ends { Ends p.now ends.now }
    requires whole { Whole (question_at p.now) ends.now s.count s.at }
    ensures { result ≡ some (asks_all name.now) (readable (question_at p.now) s.count s.at) }
{
    let mut here = s.at;
    for _read in 0..s.count {
        let Some(q) = crate::chains::question_step(p, ends, here) else {
            return false;
        };
        if crate::asks(p, ends, q, name, crate::takes_in(q.rtype, crate::ANY)) {
            return true;
        }
        here = q.next;
    }
    false
}

// Whether a record of a section is under a name.
fn some_under(p: &[u8], ends: &[u16], s: Section, name: &[u8]) -> bool
    requires ends { Ends p.now ends.now }
    requires whole { Whole (record_at p.now) ends.now s.count s.at }
    ensures { result ≡ some (under name.now) (readable (record_at p.now) s.count s.at) }
{
    crate::some_record(
        p,
        ends,
        s,
        |f| crate::is_named(p, ends, f.owner, f.span.len, name),
    )
}

// Whether the message is a probe for a name: a query with a question for all that the name has, and an Authority record under it.
#[tactic(auto, unfolding(crate::specs::probe::Probe::is_probe, wire::specs::message::Readable::message_in))]
pub(crate) fn probe_by(p: &[u8], ends: &[u16], l: Layout, name: &[u8]) -> bool
    requires { Walkable p.now ends.now l }
    ensures { result ≡ is_probe name.now (message_in p.now l) }
{
    l.flags < 32768
        && some_asks(p, ends, l.questions, name)
        && some_under(p, ends, l.authorities, name)
}

// The same, of any layout.
pub fn is_probe(p: &[u8], l: Layout, name: &[u8]) -> bool
    ensures { result ≡ is_probe name.now (message_in p.now l) }
{
    let none = [0u16; 1];
    probe_by(p, &none[..0], l, name)
}
